//! What each kind of step tells of the seat that makes it.
ghost use Rattle.pin_store.specs.Kinds.{Fills, Commits, LoadsRoot, LoadsWord, Raises, LoadsEpoch, Bumps};
ghost use Rattle.pin_store.specs.Kinds.{LoadsPin, Meets};

use crate::view::View;
use atomic_table::{Join, Play, Split};
use std::marker::{Brand, PhantomData};
use store_history::{Commit, Law};

pub struct Fill;

impl<E> Play<(), View<E>> for Fill {
    ghost then = { Fills };
}

/// Which commit a step makes. A step knows its word and its operands alone, so the commit is named by a type.
pub trait Chosen<E> {
    ghost use Rattle.store_history.specs.declared.history.Commit.{Commit};

    ghost commit: { Commit E };
}

impl<E> Chosen<E> for Brand {
    ghost use Rattle.std.specs.Prelude.{None};
    ghost use Rattle.store_history.specs.History.{empty_named};

    ghost commit = { record { root = 0; named = empty_named; edit = None } };
}

pub struct Make<C> {
    chosen: PhantomData<C>,
}

impl<E, C: Chosen<E>> Play<(), View<E>> for Make<C> {
    ghost then = { Commits C.commit };
}

pub struct LoadRoot<L> {
    law: PhantomData<L>,
}

impl<L: Law> Play<(), View<L::Entry>> for LoadRoot<L> {
    ghost then = { LoadsRoot L.keeps };
}

pub struct LoadWord;

impl<E> Play<(), View<E>> for LoadWord {
    ghost then = { LoadsWord };
}

pub struct Raise;

impl<E> Play<(), View<E>> for Raise {
    ghost then = { Raises };
}

pub struct LoadEpoch;

impl<E> Play<(), View<E>> for LoadEpoch {
    ghost then = { LoadsEpoch };
}

pub struct Bump;

impl<E> Play<(), View<E>> for Bump {
    ghost then = { Bumps };
}

pub struct LoadPin;

impl<E> Play<(), View<E>> for LoadPin {
    ghost then = { LoadsPin };
}

pub struct Meet;

impl<E> Play<(), View<E>> for Meet {
    ghost then = { Meets };
}

/// A new seat has seen as much as the one that it was cut from, and is nobody's.
pub struct Told;

impl<E> Split<View<E>> for Told {
    ghost use Rattle.pin_store.specs.Kinds.{receipt_view};

    ghost left = { λ v. v };

    ghost right = { receipt_view };
}

/// A new seat is the next reader's, and the writer's counts one more reader.
pub struct Spread;

impl<E> Split<View<E>> for Spread {
    ghost use Rattle.pin_store.specs.Kinds.{reader_view, counted_view};

    ghost left = { counted_view };

    ghost right = { reader_view };
}

/// A seat remembers what another has seen, and the other is spent.
pub struct Remember;

impl<E> Join<View<E>> for Remember {
    ghost use Rattle.pin_store.specs.Kinds.{joined_view, spent_view};

    ghost both = { joined_view };

    ghost spent = { spent_view };
}
