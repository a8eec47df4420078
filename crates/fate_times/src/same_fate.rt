//! Whether a walk ended with a fate that was found.
ghost use Rattle.std.specs.Prelude.{◌≡◌, ◌<◌, length, Some, IfSome};
ghost use Rattle.std.specs.List.{slice_get};
ghost use Rattle.walk_rules.specs.Walks.{Outcome, outcome_of};
ghost use Rattle.walk_fate_laws.specs.Fates.{same_meta};
ghost use Rattle.walk_fate_laws.specs.Stays.{fate_at_end};
ghost use Rattle.walk_fate_laws.specs.Times.{is_fate};
ghost use Rattle.fate_search.specs.Found.{fate_found};

use fate_search::Fates;
use frame_edit::Meta;
use walk_rules::Verdict;
use walk_steps::Walk;

/// Whether a walk that has ended has the fate at a place.
pub(crate) fn has_fate(walk: &Walk, fates: &Fates, place: usize) -> bool
    requires place { place < length fates.now }
    requires ended { (outcome : Outcome) × (outcome_of walk.now.standing ≡ Some outcome) }
    ensures { IfSome (slice_get fates.now place)
        (λ found. result ≡ is_fate (fate_found found) (fate_at_end walk.now.standing)) }
{
    match (fates.verdict(place), walk.verdict()) {
        (Verdict::Drop, Verdict::Drop) => true,
        (Verdict::Pass, Verdict::Pass) => {
            fates.bytes(place) == walk.frame().bytes()
                && are_same(fates.meta(place), walk.frame().meta())
        }
        _ => false,
    }
}

fn are_same(one: Meta, other: Meta) -> bool
    ensures { result ≡ same_meta one other }
{
    one.priority == other.priority && one.mark == other.mark && one.queue == other.queue
}
