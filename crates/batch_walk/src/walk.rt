//! The walk of a batch.
ghost use Rattle.std.specs.Prelude.{◌≡◌, ◌<◌, ◌≤◌, ◌+◌, ◌^◌, length, is_some, IfOk};
ghost use Rattle.pcap_io.specs.Captures.{AreShort};
ghost use Rattle.filter_state.specs.States.{no_state};
ghost use Rattle.std.specs.List.{All};
ghost use Rattle.batch_run.specs.declared.limit.TheConstants.{COMMANDS_MAX};
ghost use Rattle.batch_run.specs.Commands.{commands_in};
ghost use Rattle.batch_run.specs.Runs.{Ran, IsRun};
ghost use Rattle.walk_ends.specs.declared.limits.TheConstants.{PACKETS_MAX};
ghost use Rattle.tc_report.specs.OfShownBatches.Shown.{stop_shown};
ghost use Rattle.walk_texts.specs.Texts.{joined};
ghost use Rattle.batch_walk.specs.Texts.{closing_lines, HasCount};
ghost use Rattle.batch_walk.specs.Walked.{passed_count, summary_of, IsWalked};

use crate::closing::closing_text;
use batch_run::{BatchRun, run_batch};
use capture_walk::{Ends, WalkedCapture, walk_capture};
use pcap_io::Capture;
use std::alloc::Global;
use tc_base::{Hook, NoMemory, Pieces};
use tc_report::shown_batches::push_stop;
use walk_ends::Count;
use walk_rules::Verdict;
use walk_texts::Summary;

/// What `walk` writes. The packets' lines stand between the two texts, and are made as they are written.
#[derive(Drop)]
pub struct WalkText {
    /// The refused line, or nothing.
    pub stop: Vec<u8>,
    /// How each packet ended, in order.
    pub ends: Ends,
    /// The lines behind the packets' lines.
    pub closing: Vec<u8>,
}

/// What `walk` puts and writes for a batch and a capture.
#[derive(Drop)]
pub struct BatchWalk<'a> {
    /// The bytes of a capture of the packets that passed, in order, as their walks left them.
    pub output: Pieces<'a>,
    pub text: WalkText,
    /// Whether a line was refused.
    pub refused: bool,
}

fn count_passed(ends: &Ends) -> usize
    ensures value { result ≡ passed_count ends.now }
    ensures within { result ≤ length ends.now }
{
    let mut passed = 0;
    for end in ends.iter() {
        if let Verdict::Pass = end.verdict {
            passed += 1;
        }
    }
    passed
}

fn summary_of(run: &BatchRun, ends: &Ends) -> Summary
    ensures value { result ≡ summary_of run.now.accepted (is_some run.now.stop) ends.now }
    ensures within { result.passed + result.dropped ≡ length ends.now }
    ensures few { result.passed + result.dropped < 2 ^ 64 }
{
    let passed = count_passed(ends);
    Summary {
        edits: u64::from(run.accepted),
        refused: u64::from(run.stop.is_some()),
        passed: passed as u64,
        dropped: (ends.len() - passed) as u64,
    }
}

// The text of a batch that was run, and of the walks over what it left.
fn text_of(
    alloc: Global,
    run: &BatchRun,
    ends: Ends,
    counts: &[Count],
) -> Result<WalkText, NoMemory>
    requires { All (HasCount (length counts.now)) run.now.made.items }
    ensures stop { IfOk result (λ text. text.stop.items ≡ stop_shown run.now.accepted run.now.stop) }
    ensures ends { IfOk result (λ text. text.ends ≡ ends) }
    ensures closing { IfOk result (λ text. text.closing.items
        ≡ joined (closing_lines run.now.made.items counts.now
        (summary_of run.now.accepted (is_some run.now.stop) ends))) }
{
    let mut stop = Vec::new(alloc);
    push_stop(&mut stop, run.accepted, &run.stop)?;
    let closing = closing_text(alloc, &run.made, counts, &summary_of(run, &ends))?;
    Ok(WalkText {
        stop,
        ends,
        closing,
    })
}

/// Applies the lines of a batch file of at most 262,144 commands to lists in which nothing stands, walks each
/// of at most 1,048,576 packets through a hook of what the batch leaves, and makes what `walk` puts and
/// writes.
///
/// `NoMemory`: memory was refused.
pub fn walk_batch<'a>(
    alloc: Global,
    texts: &[&[u8]],
    hook: Hook,
    capture: &'a Capture,
) -> Result<BatchWalk<'a>, NoMemory>
    requires commands { length (commands_in texts.now) ≤ COMMANDS_MAX }
    requires few { length capture.now.packets ≤ PACKETS_MAX }
    requires short { AreShort capture.now.packets }
    ensures { IfOk result (λ w. (ran : Ran) × IsRun no_state 0 (commands_in texts.now) ran
        × IsWalked ran hook capture.now w) }
{
    let run = run_batch(alloc, texts)?;
    let WalkedCapture {
        ends,
        output,
        counts,
    } = walk_capture(alloc, &run.lists, hook, capture)?;
    let text = text_of(alloc, &run, ends, &counts)?;
    Ok(BatchWalk {
        output,
        text,
        refused: run.stop.is_some(),
    })
}
