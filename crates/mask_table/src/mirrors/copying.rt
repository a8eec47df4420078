//! A filter copied, and the filter that is kept for a block.
ghost use Rattle.std.specs.Prelude.{◌≡◌, slice_index_or, Some, None};
ghost use Rattle.mask_table.specs.OfMirrors.Kept.{HasFilter};

use crate::mirrors::mirror::Mirror;
use block_codec::StoredFilter;
use visit_room::Hit;

/// The same filter once more.
pub fn copy_of(filter: &StoredFilter) -> StoredFilter
    ensures { result ≡ filter.now }
{
    let mut actions = Hit::new();
    for action in filter.actions.actions() {
        actions.push(*action);
    }
    StoredFilter {
        handle: filter.handle,
        key: filter.key,
        actions,
    }
}

/// The filter that is kept for a block, once more.
pub fn kept_filter(mirror: &Mirror, block: u32) -> StoredFilter
    requires { HasFilter mirror.now.filters.items block }
    ensures { slice_index_or mirror.now.filters.items block None ≡ Some result }
{
    match &mirror.filters[block as usize] {
        Some(filter) => copy_of(filter),
        None => unreachable!(),
    }
}
