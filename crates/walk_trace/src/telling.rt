//! The walk of a packet, told visit by visit.
ghost use Rattle.frame_edit.specs.declared.limits.TheConstants.{FRAME_MAX};
ghost use Rattle.std.specs.Prelude.{◌≡◌, ◌≤◌, ◌+◌, ◌++◌, length, None, OnOk};
ghost use Rattle.walk_rules.specs.declared.limits.TheConstants.{VISITS_MAX};
ghost use Rattle.walk_rules.specs.Steps.{begun, question_of};
ghost use Rattle.trace_lines.specs.Lines.{joined, walk_lines, decided_in, listed};
ghost use Rattle.walk_trace.specs.Traces.{steps_at, stands_behind};

use crate::points::Points;
use point_walks::{PointAnswers, visit_at};
use std::alloc::AllocError;
use tc_base::{Hook, NoMemory, Point};
use trace_lines::{Before, Naming, Page, SeenFrame, Told, tell_before, tell_visit};
use walk_steps::{Progress, Walk};

// Puts an edit behind others, if there is one.
fn put(decided: &mut Vec<Point>, met: Option<Point>) -> Result<(), AllocError>
    ensures { OnOk result (decided.new.items ≡ decided.old.items ++ listed met) }
{
    match met {
        Some(edit) => decided.push(edit)?,
        None => {}
    }
    Ok(())
}

/// Walks a frame of at most 262,144 bytes, each visit answered at its point, puts the lines of each visit
/// behind a page's text, and the edits whose filters decided behind others. The lines end where the walk needs
/// no further visit, and before a visit that has no answer: there the walk leads nowhere.
///
/// `NoMemory`: memory was refused.
pub fn tell_walk<A: PointAnswers, N: Naming>(
    walk: &mut Walk,
    answers: &A,
    names: &N,
    hook: Hook,
    bytes: &[u8],
    points: Points<'_>,
    told: Told,
    page: &mut Page,
    decided: &mut Vec<Point>,
) -> Result<(), NoMemory>
    requires bytes { length bytes.now ≤ FRAME_MAX }
    ensures text { OnOk result (page.new ≡ page.old ++ joined (walk_lines told (N.names names.now) None
        (steps_at (A.answer answers.now) points.entry hook bytes.now))) }
    ensures decided { OnOk result (decided.new.items ≡ decided.old.items ++ decided_in
        (N.names names.now) (steps_at (A.answer answers.now) points.entry hook bytes.now)) }
    ensures few { OnOk result (length decided.new.items ≤ length decided.old.items + VISITS_MAX) }
    ensures end { OnOk result (let end = stands_behind (begun hook bytes.now)
        (steps_at (A.answer answers.now) points.entry hook bytes.now) in
        question_of end ≡ None → walk.new.standing ≡ end) }
{
    walk.begin(hook, bytes);
    let mut seen = SeenFrame::new();
    let mut visits = 0;
    let mut progress = Progress::Going;
    while let Progress::Going = progress {
        let point = points.at(visits);
        let length = page.text().len();
        tell_before(page, told, &mut seen, walk)?;
        let before = Before::of(walk, hook, visits);
        let Some((answered, next)) = visit_at(walk, answers, point) else {
            page.truncate(length);
            return Ok(());
        };
        let met = tell_visit(page, told, names, walk, before, answered, point)?;
        put(decided, met)?;
        visits += 1;
        progress = next;
    }
    Ok(())
}
