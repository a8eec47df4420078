//! The order of each mask's filters, which clauses alone read.
ghost use Rattle.std.specs.Prelude.{◌≡◌, ℕ, List, [], Option, None, map, slice_set, slice_index_or};
ghost use Rattle.std.specs.Borrow.{ftrue};
ghost use Rattle.block_codec.specs.declared.filter.StoredFilter.{StoredFilter};
ghost use Rattle.mask_writer.specs.Masks.{Order};
ghost use Rattle.mask_writer.specs.Telling.{begun, ended, joined, without, exchanged};

use block_codec::StoredFilter;
use mask_table::mirrors::Mirror;
use std::marker::{Model, PhantomData};

/// How orders are read off a value.
pub(crate) trait Tells<X> {
    ghost orders: { X → List (Option Order) };
}

/// By slot the order of the filters of the mask that stands there. It has no bytes and owns nothing, so only
/// the clauses of its functions tie `orders`, and the invariant of the writer that keeps it.
#[derive(Drop)]
pub(crate) struct Told {
    marker: PhantomData<()>,
    pub(crate) ghost orders: { List (Option Order) },
}

impl Model for Told {
    ghost also_owns = { λ _. ftrue };
}

unsafe impl Send for Told {}

unsafe impl Sync for Told {}

/// What becomes of the order of one mask, of some filters and a number.
pub(crate) trait Changes {
    ghost order: { Option Order → List StoredFilter → ℕ → Option Order };
}

// What one change is told of.
#[derive(Drop)]
struct Changed<'a> {
    told: &'a Told,
    slot: u32,
    filters: &'a [StoredFilter],
    number: u32,
}

// The same, of no filters.
#[derive(Drop)]
struct Lost<'a> {
    told: &'a Told,
    slot: u32,
    number: u32,
}

struct By<M> {
    marker: PhantomData<M>,
}

impl<'a, M: Changes> Tells<Changed<'a>> for By<M> {
    ghost orders = { λ c. slice_set c.told.now.orders c.slot
        (M.order (slice_index_or c.told.now.orders c.slot None) c.filters.now c.number) };
}

impl<'a, M: Changes> Tells<Lost<'a>> for By<M> {
    ghost orders = { λ c. slice_set c.told.now.orders c.slot
        (M.order (slice_index_or c.told.now.orders c.slot None) [] c.number) };
}

struct Nothing;

impl Tells<Mirror> for Nothing {
    ghost orders = { λ mirror. map (λ _. None) mirror.slots.items };
}

impl Told {
    // The orders that are read off a value.
    fn of<X, M: Tells<X>>(x: &X) -> Told
        ensures { result.orders ≡ M.orders x.now }
    {
        let _ = x;
        Told {
            marker: PhantomData,
        }
    }

    /// No order is told.
    pub(crate) fn nothing(mirror: &Mirror) -> Told
        ensures { result.orders ≡ map (λ _. None) mirror.now.slots.items }
    {
        Told::of::<Mirror, Nothing>(mirror)
    }

    /// The orders once that of the mask at a slot is another.
    pub(crate) fn with<M: Changes>(&self, slot: u32, filters: &[StoredFilter], number: u32) -> Told
        ensures { result.orders ≡ slice_set self.now.orders slot
            (M.order (slice_index_or self.now.orders slot None) filters.now number) }
    {
        Told::of::<Changed, By<M>>(&Changed {
            told: self,
            slot,
            filters,
            number,
        })
    }

    /// The same, of no filters.
    pub(crate) fn with_none<M: Changes>(&self, slot: u32, number: u32) -> Told
        ensures { result.orders ≡ slice_set self.now.orders slot
            (M.order (slice_index_or self.now.orders slot None) [] number) }
    {
        Told::of::<Lost, By<M>>(&Lost {
            told: self,
            slot,
            number,
        })
    }
}

/// Filters come to be the mask's.
pub(crate) struct Begun;

impl Changes for Begun {
    ghost order = { begun };
}

/// The mask is no more.
pub(crate) struct Ended;

impl Changes for Ended {
    ghost order = { ended };
}

/// Filters come behind the others.
pub(crate) struct Joined;

impl Changes for Joined {
    ghost order = { joined };
}

/// The filter goes that has the number as its handle.
pub(crate) struct Without;

impl Changes for Without {
    ghost order = { without };
}

/// A filter takes the place of the one with its handle and key.
pub(crate) struct Exchanged;

impl Changes for Exchanged {
    ghost order = { exchanged };
}
