//! The filters of a mask, as they are stored.
ghost use Rattle.std.specs.Prelude.{◌≡◌, ◌<◌, ◌≤◌, ◌^◌, ℕ, List, [], length, map, vec_capacity, All};
ghost use Rattle.std.specs.List.{AllByRecursion};
ghost use Rattle.store_history.specs.declared.history.Commit.{Commit};
ghost use Rattle.filter_state.specs.declared.edit.Edit.{Edit};
ghost use Rattle.filter_state.specs.States.{State};
ghost use Rattle.filter_tables.specs.SeenMask.{plain_mask};
ghost use Rattle.miniq_pair.specs.Heads.{hook_number};
ghost use Rattle.mask_order.specs.Fitting.{FitsBlock};
ghost use Rattle.hook_store_law.specs.Stated.{tables_at, filters_at};
ghost use Rattle.hook_store_law.specs.Told.{with_slots};
ghost use Rattle.desk_heads.specs.OfHeadCommits.Listed.{HasSerial};
ghost use Rattle.shared_hook.specs.OfDeskEdits.OfMoves.Tells.{stored_at, CanBeTold, IsAnsweredMask, CanTell};

use crate::desk_edits::moves::listing::list_of;
use block_codec::StoredFilter;
use desk_actions::ActionPlaces;
use desk_parts::filter_names::names_of;
use filter_lists::{Done, Filter, FilterLine, Lists, MaskList};
use flow_fields::Key;
use mask_table::mirrors::StoredFilters;

// A filter of the lists, with its actions at the slots where they are.
fn told(places: &ActionPlaces, filter: &Filter) -> StoredFilter
    requires { CanBeTold filter.now }
    ensures { result ≡ stored_at places.now filter.now }
{
    StoredFilter {
        handle: filter.handle,
        key: filter.key,
        actions: names_of(places, filter.actions.as_slice()),
    }
}

// The filters of a mask of the lists, in order, put into an empty list that has room for them.
fn tell_all(list: &MaskList, places: &ActionPlaces, mut into: Vec<StoredFilter>) -> StoredFilters
    requires empty { into.items ≡ [] }
    requires capacity { length (plain_mask list.now).filters ≤ vec_capacity into }
    requires can { AllByRecursion CanBeTold (plain_mask list.now).filters }
    ensures { result ≡ map (stored_at places.now) (plain_mask list.now).filters }
{
    let slots = list.filters().slots();
    for slot in slots {
        if let Some(filter) = slot {
            into.push_reserved(told(places, filter));
        }
    }
    StoredFilters::from_vec(into)
}

/// The serial of the mask with those words, in the table of the line's chain that has the pref which was
/// answered, and its filters as they are stored.
pub(crate) fn tell_mask(
    lists: &Lists,
    places: &ActionPlaces,
    line: &FilterLine,
    done: &Done,
    words: &Key<14>,
    into: Vec<StoredFilter>,
) -> (u32, StoredFilters)
    requires there { (h : List (Commit Edit)) × (s : State) × (serial : ℕ)
        × CanTell lists.now places.now h s × IsAnsweredMask s line.now done.now words.now.words serial
        × (length (filters_at s serial) ≤ vec_capacity into) }
    requires empty { into.items ≡ [] }
    ensures serial { (s : State) (serial : ℕ) (h : List (Commit Edit)) → CanTell lists.now places.now h s
        → IsAnsweredMask s line.now done.now words.now.words serial → result.0 ≡ serial }
    ensures filters { (s : State) (serial : ℕ) (h : List (Commit Edit)) → CanTell lists.now places.now h s
        → IsAnsweredMask s line.now done.now words.now.words serial
        → map (with_slots h) (filters_at s serial) ≡ result.1 }
    ensures fit { All FitsBlock result.1 }
    ensures here { (s : State) (serial : ℕ) (h : List (Commit Edit)) → CanTell lists.now places.now h s
        → IsAnsweredMask s line.now done.now words.now.words serial
        → HasSerial (tables_at s (hook_number line.now.hook)) serial }
    ensures small { result.0 < 2 ^ 32 }
{
    let list = list_of(lists, line, done, words);
    (list.serial(), tell_all(list, places, into))
}
