//! Lists of filters as they are stored.
ghost use Rattle.std.specs.Prelude.{◌≡◌};

use block_codec::StoredFilter;
use std::marker::Model;

/// The filters of a mask, in order, with the slots of their actions.
#[derive(Drop)]
pub struct StoredFilters {
    items: Vec<StoredFilter>,
}

impl Model for StoredFilters {
    ghost use Rattle.std.specs.Prelude.{List};
    ghost use Rattle.block_codec.specs.declared.filter.StoredFilter.{StoredFilter};

    ghost Value = { List StoredFilter };

    ghost view = { λ f. f.items.items };
}

impl StoredFilters {
    /// The list of these items.
    pub fn from_vec(items: Vec<StoredFilter>) -> Self
        ensures { result ≡ items.items }
    {
        StoredFilters { items }
    }

    /// The items, in order.
    pub fn as_slice(&self) -> &[StoredFilter]
        ensures { result.now ≡ self.now }
    {
        &self.items
    }
}
