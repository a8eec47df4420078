//! What is found under a mask, and where it is other.

use crate::names::{key_words, slot_name};
use crate::past::StatePast;
use flow_fields::Key;
use flow_mask::masked;
use tc_base::{Numbers, Point};

impl StatePast {
    ghost use Rattle.std.specs.Prelude.{◌≡◌, ◌<◌, option_map, IfSome};
    ghost use Rattle.std.specs.Bool.{Decides};
    ghost use Rattle.std.specs.Option.{option_copied};
    ghost use Rattle.slot_pasts.specs.Next.{IsSteady};
    ghost use Rattle.state_past.specs.NextChange.{IsNextChange};
    ghost use Rattle.state_past.specs.Found.{found_at};

    // The first point behind that one at which something else is found than there.
    pub(crate) fn other_found_after(&self, point: Point, mask: u32, key: &Key<14>) -> Option<Point>
        ensures { IsNextChange (found_at self.now mask key.now.words) point result }
    {
        let mut next = self.put_after(point, mask, key)?;
        while are_same_finds(self.found(next, mask, key), self.found(point, mask, key)) {
            next = self.put_after(next, mask, key)?;
        }
        Some(next)
    }

    // The first point behind that one at which something was put of the mask, or in the slot that the key has
    // there. Until then the same is found.
    fn put_after(&self, point: Point, mask: u32, key: &Key<14>) -> Option<Point>
        ensures behind { IfSome result (λ next. point < next) }
        ensures steady { IsSteady (found_at self.now mask key.now.words) point result }
    {
        let of_mask = self.masks.after(mask, point);
        let Some(words) = self.masks.at(mask, point) else {
            return of_mask;
        };
        let name = slot_name(mask, &masked(key, words));
        earlier(of_mask, self.slots.after(&name, point))
    }

    // The actions of the filter that a frame of that key met under the mask at a point, or that there was
    // none; nothing, where the mask didn't stand.
    fn found(&self, point: Point, mask: u32, key: &Key<14>) -> Option<Option<&Numbers>>
        ensures { option_map option_copied result ≡ found_at self.now mask key.now.words point }
    {
        let words = self.masks.at(mask, point)?;
        let _mask = key_words(words);
        let name = slot_name(mask, &masked(key, words));
        Some(self.slots.at(&name, point))
    }
}

// Whether the same was found.
ghost use Rattle.std.specs.Prelude.{◌≡◌, ◌⊎◌, ℕ, option_map};
ghost use Rattle.std.specs.Bool.{Decides};
ghost use Rattle.std.specs.Option.{option_copied};
ghost use Rattle.slot_pasts.specs.Next.{IsBefore};

fn are_same_finds(one: Option<Option<&Numbers>>, other: Option<Option<&Numbers>>) -> bool
    ensures { Decides result (option_map option_copied one.entry ≡ option_map option_copied other.entry) }
{
    match (one, other) {
        (Some(one), Some(other)) => are_same_actions(one, other),
        (None, None) => true,
        _ => false,
    }
}

// Whether these are the same actions, or none both.
fn are_same_actions(one: Option<&Numbers>, other: Option<&Numbers>) -> bool
    ensures { Decides result (option_copied one.entry ≡ option_copied other.entry) }
{
    match (one, other) {
        (Some(one), Some(other)) => one.as_slice() == other.as_slice(),
        (None, None) => true,
        _ => false,
    }
}

// The earlier of two points, where there is one.
fn earlier(one: Option<Point>, other: Option<Point>) -> Option<Point>
    ensures one { (result ≡ one) ⊎ (result ≡ other) }
    ensures least { (at : ℕ) → IsBefore at result → IsBefore at one × IsBefore at other }
{
    match (one, other) {
        (Some(first), Some(second)) => Some(first.min(second)),
        (Some(first), None) => Some(first),
        (None, second) => second,
    }
}
