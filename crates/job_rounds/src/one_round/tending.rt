//! What the calling thread does while a round's threads are busy.
ghost use Rattle.std.specs.Prelude.{◌≡◌};

use crate::one_round::bell::Bell;
use std::sync::Wait;
use tc_base::Tender;

/// The tender takes turns until all threads have left.
pub(crate) fn tend<T: Tender, R: Wait>(rt: &R, bell: &Bell, tender: &mut T)
    ensures { T.name tender.new ≡ T.name tender.old }
{
    let mut seen = 0;
    for _ in rt.forever() {
        tender.turn();
        match bell.wait_past(rt, seen) {
            Some(rings) => seen = rings,
            None => return,
        }
    }
    unreachable!()
}
