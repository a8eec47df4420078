//! The search.
ghost use Rattle.frame_edit.specs.declared.limits.TheConstants.{FRAME_MAX};
ghost use Rattle.std.specs.Prelude.{◌≡◌, ◌≤◌, length, take, OnOk, IfOk};
ghost use Rattle.walk_fate_laws.specs.declared.limits.TheConstants.{WAYS_MAX};
ghost use Rattle.walk_fate_laws.specs.Told.{told_fates, has_more};
ghost use Rattle.walk_fate_laws.specs.Walks.{ways_of};
ghost use Rattle.fate_search.specs.Found.{all_found};
ghost use Rattle.fate_search.specs.Looking.{AreLooked, IsLook};
ghost use Rattle.fate_search.specs.Searched.{sought_by};

use crate::fates::Fates;
use crate::searching::{Packet, Searching, follow};
use crate::turning::turn_back;
use state_past::journals::PointChanges;
use tc_base::{Hook, NoMemory, Point};
use walk_fate_laws::WAYS_MAX;

/// How many ways of a packet were looked at, and whether it has more than these.
#[derive(Clone, Copy, Debug, PartialEq, Eq)]
pub struct Looked {
    pub ways: u32,
    pub more: bool,
}

// Looks at the way that is to come next, notes its fate, and tells how many ways were looked at then;
// nothing, where it is one more than are.
fn look<A: PointChanges>(
    room: &mut Searching,
    packet: &Packet<'_, A>,
    from: Option<Point>,
    fates: &mut Fates,
    ways: u32,
) -> Result<Option<u32>, NoMemory>
    requires short { length packet.now.bytes.now ≤ FRAME_MAX }
    requires looked { AreLooked (sought_by (A.answer packet.now.answers.now) packet.now) from
        room.old.path.items ways fates.old }
    ensures { IfOk result (λ now. IsLook (sought_by (A.answer packet.now.answers.now) packet.now) from
        room.old.path.items room.new.path.items ways fates.new now) }
{
    let is_end = follow(room, packet, from)?;
    if !is_end {
        return Ok(Some(ways));
    }
    if ways as usize == WAYS_MAX {
        return Ok(None);
    }
    fates.note(room.walk.verdict(), room.walk.frame(), &room.path)?;
    Ok(Some(ways + 1))
}

/// Finds the fates of a frame of at most 262,144 bytes at a hook between two points, each with its least
/// points, by its ways: those that are looked at are the first 4,096.
///
/// `NoMemory`: memory was refused, and some fates were found.
pub fn search<A: PointChanges>(
    room: &mut Searching,
    answers: &A,
    hook: Hook,
    bytes: &[u8],
    before: Point,
    ceiling: Point,
    fates: &mut Fates,
) -> Result<Looked, NoMemory>
    requires { length bytes.now ≤ FRAME_MAX }
    ensures fates { OnOk result (fates.new
        ≡ all_found (told_fates (A.answer answers.now) before ceiling hook bytes.now)) }
    ensures ways { IfOk result (λ looked. looked.ways
        ≡ length (take WAYS_MAX (ways_of (A.answer answers.now) before ceiling hook bytes.now))) }
    ensures more { IfOk result (λ looked. looked.more
        ≡ has_more (A.answer answers.now) before ceiling hook bytes.now) }
{
    fates.clear();
    room.path.clear();
    let packet = Packet {
        answers,
        hook,
        bytes,
        before,
        ceiling,
    };
    let mut ways = 0;
    let mut from = None;
    while let Some(now) = look(room, &packet, from, fates, ways)? {
        ways = now;
        from = turn_back(&mut room.path);
        if from.is_none() {
            return Ok(Looked { ways, more: false });
        }
    }
    Ok(Looked { ways, more: true })
}
