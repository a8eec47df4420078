//! The words that the seats of a store share, under the store's rule.

use crate::shape::Shape;
use crate::view::View;
use atomic_table::{Seat, Table, TableRule};
use std::alloc::Global;
use std::marker::PhantomData;
use store_history::Law;

/// The rule of a store whose commits keep `L`.
pub struct Keeping<L> {
    law: PhantomData<L>,
}

impl<L: Law> TableRule<(), View<L::Entry>, Shape> for Keeping<L> {
    ghost use Rattle.pin_store.specs.Rule.{IsKept, opening_view};

    ghost holds = { λ shape. IsKept L.keeps shape };

    ghost first = { opening_view };
}

pub type Words<L> = Table<(), View<<L as Law>::Entry>, Shape, Keeping<L>, Global>;

/// A seat of a store. It takes no bytes.
pub type Place<L> = Seat<(), View<<L as Law>::Entry>>;
