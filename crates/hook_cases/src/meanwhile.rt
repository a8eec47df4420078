//! A desk that edits, and a reader that walks meanwhile, in two threads.

use crate::dice::Dice;
use crate::editor::{Editor, new_hook};
use crate::frames::frame_to;
use crate::lines::{Line, step};
use crate::log::{Entry, Log, Told};
use crate::random::is_alike;
use crate::random_lines::random_line;
use crate::recorder::Recorder;
use crate::trouble::Trouble;
use filter_lists::Lists;
use plain_walk::PlainWalk;
use shared_hook::ApplyFault;
use std::alloc::{AllocError, Global};
use std::sync::atomic::{AtomicBool, Ordering};
use std::test::Fail;
use std::thread;
use std::thread::Threads;
use tc_base::{Hook, Point};
use walk_steps::{Walk, run};

// How many edits are tried.
const EDITS: u32 = 20_000;

// How many walks there are at most. They end with the last edit.
const WALKS: u32 = 20_000;

// The lines of which a desk accepted the edits, in order, and whether it answered as plain lists do.
#[derive(Drop)]
struct Edited {
    journal: Vec<String>,
    agrees: bool,
}

// Applies a random edit. One that is held stands nowhere, so the plain lists don't see it.
fn edit_once(
    alloc: Global,
    dice: &mut Dice,
    editor: &mut Editor<'_>,
    lists: &mut Lists,
    edited: &mut Edited,
) -> Result<(), Trouble> {
    let text = random_line(alloc, dice)?;
    let line = Line::read(alloc, text.as_bytes())?;
    let answer = editor.step(&line)?;
    if let Err(ApplyFault::Held { .. }) = answer {
        return Ok(());
    }
    let plain = step(lists, &line)?;
    edited.agrees = edited.agrees && is_alike(&answer, &plain);
    if answer.is_ok() {
        edited.journal.push(text)?;
    }
    Ok(())
}

// Applies many random edits.
fn edit_all(
    alloc: Global,
    editor: &mut Editor<'_>,
    lists: &mut Lists,
    edited: &mut Edited,
) -> Result<(), Trouble> {
    let mut dice = Dice { seed: 7 };
    for _ in 0..EDITS {
        edit_once(alloc, &mut dice, editor, lists, edited)?;
    }
    Ok(())
}

// The same, and says when it is over.
fn edit_often(
    alloc: Global,
    mut editor: Editor<'_>,
    is_over: &AtomicBool,
) -> Result<Edited, Trouble> {
    let mut lists = Lists::new(alloc);
    let mut edited = Edited {
        journal: Vec::new(alloc),
        agrees: true,
    };
    let all = edit_all(alloc, &mut editor, &mut lists, &mut edited);
    drop((editor, lists));
    is_over.store(true, Ordering::SeqCst);
    match all {
        Ok(()) => Ok(edited),
        Err(trouble) => {
            drop(edited);
            Err(trouble)
        }
    }
}

// From 10.0.0.254 or 10.0.1.254 to one of 40 hosts, by UDP to one of three ports.
fn random_frame(dice: &mut Dice) -> [u8; 42] {
    let mut bytes = frame_to(dice.below(40) as u8);
    bytes[28] = dice.below(2) as u8;
    bytes[37] = 53 + dice.below(3) as u8;
    bytes
}

// Whether all visits of a walk had the same point.
fn have_one_point(points: &[Point]) -> bool {
    match points.first() {
        Some(first) => points.iter().all(|point| point == first),
        None => false,
    }
}

// Writes a walk down as a whole, if all its visits had one point.
fn write_walk(log: &mut Log, hook: Hook, bytes: &[u8], walk: &Walk) {
    if !have_one_point(walk.points()) {
        return;
    }
    let point = walk.points().first().copied().unwrap_or(0);
    let told = whole_walk(log.alloc, hook, bytes, walk);
    log.write(point, told);
}

fn whole_walk(alloc: Global, hook: Hook, bytes: &[u8], walk: &Walk) -> Result<Told, AllocError> {
    Ok(Told::Walk {
        hook,
        bytes: bytes.to_vec(alloc)?,
        verdict: walk.verdict(),
        executed: walk.executed().to_vec(alloc)?,
    })
}

// Takes a random frame through the hook.
fn walk_once<'a>(recorder: Recorder<'a>, walk: &mut Walk, dice: &mut Dice) -> Option<Recorder<'a>> {
    let bytes = random_frame(dice);
    let hook = if dice.below(8) == 0 {
        Hook::Egress
    } else {
        Hook::Ingress
    };
    let mut recording = recorder.enter()?;
    walk.begin(hook, &bytes);
    run(walk, &mut recording);
    write_walk(&mut recording.log, hook, &bytes, walk);
    Some(recording.leave())
}

// Takes many random frames through the hook.
fn walk_all<'a>(
    mut recorder: Recorder<'a>,
    walk: &mut Walk,
    is_over: &AtomicBool,
) -> Option<Recorder<'a>> {
    let mut dice = Dice { seed: 8 };
    for _ in 0..WALKS {
        if is_over.load(Ordering::SeqCst) {
            break;
        }
        match walk_once(recorder, walk, &mut dice) {
            Some(next) => recorder = next,
            None => return None,
        }
    }
    Some(recorder)
}

// The same, with what was written down.
fn walk_often(alloc: Global, recorder: Recorder<'_>, is_over: &AtomicBool) -> Result<Log, Trouble> {
    let Ok(mut walk) = Walk::with_room(alloc) else {
        drop(recorder);
        return Err(Trouble::NoMemory);
    };
    let walked = walk_all(recorder, &mut walk, is_over);
    drop(walk);
    match walked {
        Some(recorder) => Ok(recorder.into_log()),
        None => Err(Trouble::TooFar),
    }
}

// Goes through the journal with plain lists, and says whether each answer is theirs at its point.
fn are_answers(alloc: Global, journal: &[String], entries: &[Entry]) -> Result<bool, Trouble> {
    let mut lists = Lists::new(alloc);
    let mut plain = PlainWalk::with_room(alloc)?;
    let mut agree = true;
    let mut point = 0;
    for entry in entries {
        replay(alloc, &mut lists, journal, point, entry.point)?;
        point = entry.point;
        agree = agree && entry.told.is_of(&lists, &mut plain);
    }
    Ok(agree)
}

// Applies the edits of a journal between two points.
fn replay(
    alloc: Global,
    lists: &mut Lists,
    journal: &[String],
    from: Point,
    to: Point,
) -> Result<(), Trouble> {
    for place in from..to {
        let Some(text) = journal.get(place as usize) else {
            return Err(Trouble::TooFar);
        };
        step(lists, &Line::read(alloc, text.as_bytes())?)??;
    }
    Ok(())
}

// The desk and the reader at work, the reader in a thread of its own.
fn work<R: Threads + Sync>(
    rt: &R,
    alloc: Global,
    editor: Editor<'_>,
    recorder: Recorder<'_>,
) -> (Result<Edited, Trouble>, Result<Log, Trouble>) {
    let is_over = AtomicBool::new(false);
    let (log, edited) = thread::join(
        rt,
        || walk_often(alloc, recorder, &is_over),
        || edit_often(alloc, editor, &is_over),
    );
    (edited, log)
}

fn edit_and_walk<R: Threads + Sync>(rt: &R, alloc: Global) -> Result<(Edited, Log), Trouble> {
    let (store, desk, reader) = new_hook(alloc)?;
    let editor = Editor {
        store: &store,
        desk,
    };
    let recorder = Recorder {
        store: &store,
        reader,
        log: Log::new(alloc),
        pins: 0,
    };
    let (edited, log) = work(rt, alloc, editor, recorder);
    drop(store);
    match edited {
        Ok(edited) => match log {
            Ok(log) => Ok((edited, log)),
            Err(trouble) => {
                drop(edited);
                Err(trouble)
            }
        },
        Err(trouble) => {
            drop(log);
            Err(trouble)
        }
    }
}

#[test]
fn walks_are_lawful_meanwhile(rt: HostRuntime) -> Result<(), Fail> {
    let (edited, mut log) = edit_and_walk(&rt, rt.alloc())?;
    assert!(rt; edited.agrees);
    assert!(rt; log.is_whole);
    log.entries
        .as_mut_slice()
        .sort_unstable_by_key(|entry| entry.point);
    assert!(rt; are_answers(rt.alloc(), &edited.journal, &log.entries)?);
    Ok(())
}
