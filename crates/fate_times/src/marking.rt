//! One walk after the other, and the fates that it has.
ghost use Rattle.std.specs.Prelude.{◌≡◌, Some, OnOk, length};
ghost use Rattle.walk_rules.specs.Walks.{Outcome, outcome_of};
ghost use Rattle.walk_fate_laws.specs.Fates.{Fate};
ghost use Rattle.walk_fate_laws.specs.Stays.{fate_at_end};
ghost use Rattle.fate_times.specs.Marks.{marked_by, times_of, marked};

use crate::same_fate::has_fate;
use fate_search::Fates;
use tc_base::NoMemory;
use walk_fate_laws::When;
use walk_steps::Walk;

/// No fate was seen so far.
pub(crate) fn begin(whens: &mut Vec<When>, fates: &Fates) -> Result<(), NoMemory>
    ensures { OnOk result (whens.new.items ≡ times_of (λ fate. When.Mixed) fates.now) }
{
    whens.clear();
    whens.resize(fates.len(), When::Mixed)?;
    Ok(())
}

/// The fates that a walk has are seen at that time too.
pub(crate) fn mark(whens: &mut [When], fates: &Fates, walk: &Walk, seen: When)
    requires ended { (outcome : Outcome) × (outcome_of walk.now.standing ≡ Some outcome) }
    requires each { length whens.old ≡ length fates.now }
    ensures { (when : Fate → When) → whens.old ≡ times_of when fates.now
        → whens.new ≡ times_of (marked (fate_at_end walk.now.standing) seen when) fates.now }
{
    for place in 0..whens.len() {
        let had = has_fate(walk, fates, place);
        whens[place] = also_seen(whens[place], had, seen);
    }
}

fn also_seen(when: When, had: bool, seen: When) -> When
    ensures { result ≡ marked_by had when seen }
{
    match (had, when, seen) {
        (true, When::Mixed, _) => seen,
        (true, When::Before, When::After) => When::Both,
        _ => when,
    }
}
