//! A table at its place.
ghost use Rattle.std.specs.Prelude.{◌≡◌, ◌<◌, length, map, Some};
ghost use Rattle.filter_tables.specs.Places.{item_at};
ghost use Rattle.filter_tables.specs.Seen.{plain_table};

use filter_lists::FilterTable;

/// The table at that place.
pub(crate) fn table_at(tables: &[FilterTable], place: usize) -> &FilterTable
    requires { place < length tables.now }
    ensures { item_at (map plain_table tables.now) place ≡ Some (plain_table result.now) }
{
    &tables[place]
}
