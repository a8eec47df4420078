//! What stood in one place over time.

use std::alloc::{AllocFailed, Global};
use std::marker::Model;
use tc_base::Point;

/// From a point on, until the next change, this stood there.
#[derive(Drop)]
pub struct Change<V> {
    pub from: Point,
    pub value: V,
}

/// The changes of one place, by rising point.
#[derive(Drop)]
pub struct Past<V> {
    changes: Vec<Change<V>>,
}

impl<V> Model for Past<V> {
    ghost use Rattle.std.specs.Prelude.{List};
    ghost use Rattle.slot_pasts.specs.declared.past.Change.{Change};
    ghost use Rattle.slot_pasts.specs.Pasts.{AreRising};

    ghost Value = { List (Change V) };

    ghost view = { λ p. p.changes.items };

    ghost invariant = { λ p. AreRising p.changes.items };
}

impl<V: Drop> Past<V> {
    ghost use Rattle.std.specs.Prelude.{◌≡◌, ◌++◌, ◌∷◌, [], OnOk, OnErr};
    ghost use Rattle.std.specs.Option.{option_copied};
    ghost use Rattle.slot_pasts.specs.Pasts.{value_at, UpTo};
    ghost use Rattle.slot_pasts.specs.Next.{IsNextPut, IsSteady};

    /// Nothing stood there.
    pub fn new(alloc: Global) -> Self
        ensures { result ≡ [] }
    {
        Past {
            changes: Vec::new(alloc),
        }
    }

    /// From that point on, which is no earlier than that of any change so far, this stands there.
    pub fn put(&mut self, from: Point, value: V) -> Result<(), AllocFailed<Change<V>>>
        requires { UpTo from self.old }
        ensures put { OnOk result (self.new ≡ self.old ++ (record { from = from; value = value } ∷ [])) }
        ensures kept { OnErr result (self.new ≡ self.old) }
    {
        self.changes.push(Change { from, value })
    }

    /// What stood there at a point.
    pub fn at(&self, point: Point) -> Option<&V>
        ensures { option_copied result ≡ value_at point self.now }
    {
        last_until(&self.changes, point)
    }

    /// The first point behind that one at which something was put there; nothing, where nothing was. What
    /// stood there at the point stood until then.
    pub fn after(&self, point: Point) -> Option<Point>
        ensures next { IsNextPut self.now point result }
        ensures steady { IsSteady (λ at. value_at at self.now) point result }
    {
        first_after(&self.changes, point)
    }
}

// The value of the last change up to a point.
ghost use Rattle.std.specs.Prelude.{◌≡◌};
ghost use Rattle.std.specs.Option.{option_copied};
ghost use Rattle.slot_pasts.specs.Pasts.{AreRising, value_at};
ghost use Rattle.slot_pasts.specs.Next.{IsNextPut};

fn last_until<V>(changes: &[Change<V>], point: Point) -> Option<&V>
    requires { AreRising changes.now }
    ensures { option_copied result ≡ value_at point changes.now }
{
    let after = changes.partition_point(|change| change.from <= point);
    if after == 0 {
        return None;
    }
    Some(&changes[after - 1].value)
}

// The point of the first change behind a point.
fn first_after<V>(changes: &[Change<V>], point: Point) -> Option<Point>
    requires { AreRising changes.now }
    ensures { IsNextPut changes.now point result }
{
    let until = changes.partition_point(|change| change.from <= point);
    if until == changes.len() {
        return None;
    }
    Some(changes[until].from)
}
