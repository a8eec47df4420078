//! What a walk met, told visit by visit.
ghost use Rattle.frame_edit.specs.declared.limits.TheConstants.{FRAME_MAX};
ghost use Rattle.std.specs.Prelude.{◌≡◌, ◌≤◌, ◌++◌, length, get_or, OnOk};
ghost use Rattle.walk_texts.specs.Texts.{joined};
ghost use Rattle.change_fates.specs.Told.{met_lines};

use crate::known::Known;
use std::alloc::Global;
use tc_base::{NoMemory, Point};
use trace_lines::{Page, Told};
use walk_steps::Walk;
use walk_trace::{Points, tell_walk};

/// Puts what the walk of a packet of at most 262,144 bytes met at these points behind a page's text. The first
/// of them isn't before the change.
///
/// `NoMemory`: memory was refused.
pub(crate) fn tell_met(
    alloc: Global,
    walk: &mut Walk,
    known: &Known<'_>,
    number: u64,
    bytes: &[u8],
    points: &[Point],
    page: &mut Page,
) -> Result<(), NoMemory>
    requires short { length bytes.now ≤ FRAME_MAX }
    requires since { known.now.before ≤ get_or points.now 0 0 }
    ensures { OnOk result (page.new ≡ page.old ++ joined (met_lines known.now number bytes.now points.now)) }
{
    // What decided is told with each walk. Nobody asks for it here.
    let mut decided = Vec::new(alloc);
    let answers = known.answers();
    let names = known.names();
    let hook = known.hook();
    let points = Points::Each(points);
    let told = Told {
        packet: number,
        points: true,
    };
    tell_walk(
        walk,
        &answers,
        &names,
        hook,
        bytes,
        points,
        told,
        page,
        &mut decided,
    )
}
