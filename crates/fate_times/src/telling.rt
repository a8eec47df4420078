//! When the fates of a packet are had.
ghost use Rattle.frame_edit.specs.declared.limits.TheConstants.{FRAME_MAX};
ghost use Rattle.std.specs.Prelude.{◌≡◌, ◌<◌, ◌≤◌, ℕ, length, false, OnOk, IfOk};
ghost use Rattle.slot_pasts.specs.Next.{IsBefore};
ghost use Rattle.walk_fate_laws.specs.Fates.{Fate};
ghost use Rattle.walk_fate_laws.specs.Told.{told_fates, has_more};
ghost use Rattle.walk_fate_laws.specs.Stays.{fate_there, IsAnsweredAt};
ghost use Rattle.walk_fate_laws.specs.Times.{is_had_at, when_by, when_of, whens_at};
ghost use Rattle.walk_fate_laws.specs.Kinds.{kind_at};
ghost use Rattle.fate_search.specs.Found.{all_found};
ghost use Rattle.fate_times.specs.Marks.{times_of};

use crate::deciding::{is_one_mixed, kind_of};
use crate::marking::{begin, mark};
use crate::staying::{Packet, stay};
use crate::times::Times;
use fate_search::{Fates, Looked};
use state_past::journals::PointChanges;
use tc_base::{Hook, NoMemory, Point};
use walk_fate_laws::{Kind, When};
use walk_steps::Walk;

/// Tells when each of a packet's fates between two points is had, and what kind of packet it is: the fates
/// are those that `search` found for it, which also told whether it has more ways than were looked at. Each
/// state between answers all that a walk of the packet asks for.
///
/// `NoMemory`: memory was refused, and nothing is told.
pub fn tell_times<A: PointChanges>(
    times: &mut Times,
    answers: &A,
    hook: Hook,
    bytes: &[u8],
    before: Point,
    ceiling: Point,
    looked: Looked,
    fates: &Fates,
) -> Result<Kind, NoMemory>
    requires short { length bytes.now ≤ FRAME_MAX }
    requires order { before ≤ ceiling }
    requires ends { (point : ℕ) → before ≤ point → point ≤ ceiling
        → IsAnsweredAt (A.answer answers.now) hook bytes.now point }
    requires fates { fates.now
        ≡ all_found (told_fates (A.answer answers.now) before ceiling hook bytes.now) }
    requires more { looked.more ≡ has_more (A.answer answers.now) before ceiling hook bytes.now }
    ensures whens { OnOk result (times.new ≡ whens_at (A.answer answers.now) before ceiling hook bytes.now) }
    ensures kind { IfOk result (λ kind. kind ≡ kind_at (A.answer answers.now) before ceiling hook bytes.now) }
{
    let packet = Packet {
        answers,
        hook,
        bytes,
        before,
        ceiling,
    };
    begin(&mut times.whens, fates)?;
    look(
        &mut times.walk,
        &mut times.whens,
        &packet,
        looked.more,
        fates,
    );
    Ok(kind_of(looked.more, &times.whens))
}

// Walks over the state before the change, over that after it, and over as many between as are needed. Where
// one fate is all that there is, these walks have it.
fn look<A: PointChanges>(
    walk: &mut Walk,
    whens: &mut [When],
    packet: &Packet<'_, A>,
    more: bool,
    fates: &Fates,
)
    requires short { length packet.now.bytes.now ≤ FRAME_MAX }
    requires order { packet.now.before ≤ packet.now.ceiling }
    requires ends { (point : ℕ) → packet.now.before ≤ point → point ≤ packet.now.ceiling
        → IsAnsweredAt (A.answer packet.now.answers.now) packet.now.hook packet.now.bytes.now point }
    requires fates { fates.now ≡ all_found (told_fates (A.answer packet.now.answers.now) packet.now.before
        packet.now.ceiling packet.now.hook packet.now.bytes.now) }
    requires more { more ≡ has_more (A.answer packet.now.answers.now) packet.now.before packet.now.ceiling
        packet.now.hook packet.now.bytes.now }
    requires none { whens.old ≡ times_of (λ fate. When.Mixed) fates.now }
    ensures { whens.new ≡ whens_at (A.answer packet.now.answers.now) packet.now.before packet.now.ceiling
        packet.now.hook packet.now.bytes.now }
{
    if fates.len() == 1 && !more {
        whens[0] = When::Both;
        return;
    }
    let next = stay(walk, packet, packet.before);
    mark(whens, fates, walk, When::Before);
    stay(walk, packet, packet.ceiling);
    mark(whens, fates, walk, When::After);
    look_between(walk, whens, packet, fates, next);
}

// Walks over the states between, from the first at which the walk over the one before goes otherwise.
fn look_between<A: PointChanges>(
    walk: &mut Walk,
    whens: &mut [When],
    packet: &Packet<'_, A>,
    fates: &Fates,
    first: Option<Point>,
)
    requires short { length packet.now.bytes.now ≤ FRAME_MAX }
    requires ends { (point : ℕ) → packet.now.before ≤ point → point ≤ packet.now.ceiling
        → IsAnsweredAt (A.answer packet.now.answers.now) packet.now.hook packet.now.bytes.now point }
    requires ahead { IsBefore packet.now.before first }
    requires same { (later : ℕ) → packet.now.before ≤ later → IsBefore later first
        → fate_there (A.answer packet.now.answers.now) packet.now.hook packet.now.bytes.now later
        ≡ fate_there (A.answer packet.now.answers.now) packet.now.hook packet.now.bytes.now
        packet.now.before }
    requires none { whens.old ≡ times_of (λ (fate : Fate). when_by
        (is_had_at (A.answer packet.now.answers.now) packet.now.hook packet.now.bytes.now fate
        packet.now.before)
        (is_had_at (A.answer packet.now.answers.now) packet.now.hook packet.now.bytes.now fate
        packet.now.ceiling) false) fates.now }
    ensures { whens.new ≡ times_of (when_of (A.answer packet.now.answers.now) packet.now.before
        packet.now.ceiling packet.now.hook packet.now.bytes.now) fates.now }
{
    let mut next = first;
    while let Some(point) = next {
        if packet.ceiling <= point || !is_one_mixed(whens) {
            return;
        }
        next = stay(walk, packet, point);
        mark(whens, fates, walk, When::Between);
    }
}
