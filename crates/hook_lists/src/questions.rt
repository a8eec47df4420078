//! Why an edit of filters is refused: each check gives the refusal that the state's own condition gives. A
//! table is found once, and its place handed on.
ghost use Rattle.filter_state.specs.declared.limits.TheConstants.{MASKS_MAX};
ghost use Rattle.std.specs.Prelude.{◌≡◌, ◌<◌, ◌&&◌, not, nat_le, length, find, is_some, Some};
ghost use Rattle.filter_state.specs.Refusals.{no_hook, protocol_clash, protocol_clash_if, exists_but};
ghost use Rattle.filter_state.specs.Refusals.{masks_full};
ghost use Rattle.filter_index.specs.Listed.{has_key};
ghost use Rattle.filter_state.specs.Tables.{protocol_eq};
ghost use Rattle.filter_tables.specs.Places.{item_at, place_where};
ghost use Rattle.filter_tables.specs.Seen.{plain_table};
ghost use Rattle.filter_tables.specs.SeenMask.{plain_mask};
ghost use Rattle.filter_tables.specs.Changes.{has_words};
ghost use Rattle.filter_tables.specs.Rows.{tables_on};
ghost use Rattle.row_laws.specs.OfLookups.Asked.{unless_left_out};
ghost use Rattle.hook_lists.specs.States.{both_of, room_on, state_of, AreKept, place_on};
ghost use Rattle.hook_lists.specs.Steps.{refusal_of};

use crate::kept::Kept;
use filter_index::Filters;
use filter_state::{MASKS_MAX, Refusal};
use filter_tables::{FilterTable, FilterTables, MaskList, MaskLists};
use flow_fields::Key;
use tc_base::{Hook, Proto};

/// The tables of a hook.
pub fn tables_of(kept: &Kept, hook: Hook) -> &FilterTables
    ensures { result.now ≡ room_on hook kept.now }
{
    match hook {
        Hook::Ingress => &kept.ingress,
        Hook::Egress => &kept.egress,
    }
}

/// Where the table of that chain and pref stands.
pub fn find_table(kept: &Kept, hook: Hook, chain: u32, pref: u32) -> Option<usize>
    ensures { result ≡ place_on hook chain pref kept.now }
{
    tables_of(kept, hook).find(chain, pref)
}

/// `NoHook`: the qdisc isn't there.
pub fn check_hook(kept: &Kept) -> Result<(), Refusal>
    ensures { refusal_of result ≡ no_hook (state_of kept.now) }
{
    if kept.hooked {
        return Ok(());
    }
    Err(Refusal::NoHook)
}

/// `ProtocolClash`: the table of that chain and pref, which stands at the place, has another protocol, which
/// the answer has.
pub fn check_protocol(
    kept: &Kept,
    hook: Hook,
    chain: u32,
    pref: u32,
    place: Option<usize>,
    protocol: Proto,
) -> Result<(), Refusal>
    requires kept { AreKept kept.now }
    requires place { place ≡ place_on hook chain pref kept.now }
    ensures { refusal_of result ≡ protocol_clash (state_of kept.now) hook chain pref protocol }
{
    let Some(place) = place else {
        return Ok(());
    };
    let table = table_at(kept, hook, place);
    if is_same(table.protocol, protocol) {
        return Ok(());
    }
    Err(Refusal::ProtocolClash {
        protocol: table.protocol,
    })
}

/// `ProtocolClash`, where a protocol is given.
pub fn check_protocol_if(
    kept: &Kept,
    hook: Hook,
    chain: u32,
    pref: u32,
    place: Option<usize>,
    protocol: Option<Proto>,
) -> Result<(), Refusal>
    requires kept { AreKept kept.now }
    requires place { place ≡ place_on hook chain pref kept.now }
    ensures { refusal_of result ≡ protocol_clash_if (state_of kept.now) hook chain pref protocol }
{
    match protocol {
        Some(protocol) => check_protocol(kept, hook, chain, pref, place, protocol),
        None => Ok(()),
    }
}

/// `Exists`: the table has a filter of that mask and key under another handle than the one to be left out;
/// the answer has it.
pub fn check_match(
    kept: &Kept,
    hook: Hook,
    chain: u32,
    pref: u32,
    place: Option<usize>,
    left: Option<u32>,
    mask: &Key<14>,
    key: &Key<14>,
) -> Result<(), Refusal>
    requires kept { AreKept kept.now }
    requires place { place ≡ place_on hook chain pref kept.now }
    ensures { refusal_of result
        ≡ exists_but (state_of kept.now) hook chain pref left mask.now.words key.now.words }
{
    let Some(place) = place else {
        return Ok(());
    };
    let masks = &table_at(kept, hook, place).masks;
    let Some(at) = masks.find_mask(mask) else {
        return Ok(());
    };
    match other_with_key(mask_at(masks, at).filters(), left, key) {
        Some(handle) => Err(Refusal::Exists { handle }),
        None => Ok(()),
    }
}

/// `MasksFull`: the table has no such mask, and 16 others.
pub fn check_masks(
    kept: &Kept,
    hook: Hook,
    chain: u32,
    pref: u32,
    place: Option<usize>,
    mask: &Key<14>,
) -> Result<(), Refusal>
    requires kept { AreKept kept.now }
    requires place { place ≡ place_on hook chain pref kept.now }
    ensures { refusal_of result ≡ masks_full (state_of kept.now) hook chain pref mask.now.words }
{
    let Some(place) = place else {
        return Ok(());
    };
    let masks = &table_at(kept, hook, place).masks;
    if has_no_room(masks, mask) {
        return Err(Refusal::MasksFull);
    }
    Ok(())
}

/// The table at that place.
pub fn table_at(kept: &Kept, hook: Hook, place: usize) -> &FilterTable
    requires { place < length (tables_on hook (both_of kept.now)) }
    ensures { item_at (tables_on hook (both_of kept.now)) place ≡ Some (plain_table result.now) }
{
    &tables_of(kept, hook).as_slice()[place]
}

/// The mask at that place.
pub fn mask_at(masks: &MaskLists, place: usize) -> &MaskList
    requires { place < length masks.now.masks }
    ensures { item_at masks.now.masks place ≡ Some (plain_mask result.now) }
{
    &masks.as_slice()[place]
}

// The handle of the filter of that key, unless it is the one to be left out.
fn other_with_key(filters: &Filters, left: Option<u32>, key: &Key<14>) -> Option<u32>
    ensures { result ≡ unless_left_out left (find (has_key key.now.words) filters.now.filters) }
{
    let handle = filters.with_key(key)?.handle;
    if left == Some(handle) {
        return None;
    }
    Some(handle)
}

// Whether that mask would be one too many.
fn has_no_room(masks: &MaskLists, mask: &Key<14>) -> bool
    ensures { result ≡ (not (is_some (place_where (has_words mask.now.words) masks.now.masks))
        && nat_le MASKS_MAX (length masks.now.masks)) }
{
    masks.find_mask(mask).is_none() && masks.as_slice().len() >= MASKS_MAX
}

// Whether two protocols are one.
fn is_same(its: Proto, protocol: Proto) -> bool
    ensures { result ≡ protocol_eq its protocol }
{
    its == protocol
}
