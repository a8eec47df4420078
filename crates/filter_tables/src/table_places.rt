//! The places of tables, found by halving.
ghost use Rattle.std.specs.Prelude.{◌≡◌, ◌==◌, map, find, option_map};
ghost use Rattle.filter_tables.specs.Places.{place_where};
ghost use Rattle.filter_tables.specs.Room.{AreRising};
ghost use Rattle.filter_tables.specs.Changes.{is_table};
ghost use Rattle.filter_tables.specs.Seen.{plain_table};
ghost use Rattle.filter_tables.specs.TablePlaces.{IsTablePlace};

use crate::filter_table::FilterTable;

/// How many tables stand before that chain and pref: the place of the table that has them, or the place where
/// it is to stand.
pub(crate) fn place_for(tables: &[FilterTable], chain: u32, pref: u32) -> usize
    requires { AreRising (map plain_table tables.now) }
    ensures { IsTablePlace chain pref tables.now result }
{
    tables.partition_point(|table| {
        table.chain < chain || (table.chain == chain && table.pref < pref)
    })
}

/// The place of the table with that chain and pref.
pub(crate) fn place_of(tables: &[FilterTable], chain: u32, pref: u32) -> Option<usize>
    requires { AreRising (map plain_table tables.now) }
    ensures { result ≡ place_where (is_table chain pref) (map plain_table tables.now) }
{
    let at = place_for(tables, chain, pref);
    match tables.get(at) {
        Some(table) if table.chain == chain && table.pref == pref => Some(at),
        _ => None,
    }
}

/// The pref of the first table of that chain, which is its lowest.
pub(crate) fn first_pref(tables: &[FilterTable], chain: u32) -> Option<u32>
    requires { AreRising (map plain_table tables.now) }
    ensures { result ≡ option_map (λ t. t.pref) (find (λ t. t.chain == chain) (map plain_table tables.now)) }
{
    match tables.get(place_for(tables, chain, 0)) {
        Some(table) if table.chain == chain => Some(table.pref),
        _ => None,
    }
}
