//! A filter is made of a line and of what the lists answered.
ghost use Rattle.std.specs.Prelude.{◌≡◌, ◌≤◌, ℕ, List, length, All};
ghost use Rattle.store_history.specs.declared.history.Commit.{Commit};
ghost use Rattle.act_registry.specs.declared.limits.TheConstants.{MADE_MAX};
ghost use Rattle.filter_state.specs.declared.edit.Edit.{Edit};
ghost use Rattle.filter_state.specs.declared.refusal.Done.TheVariants as dones;
ghost use Rattle.filter_state.specs.States.{State};
ghost use Rattle.visit_room.specs.declared.limits.TheConstants.{HIT_ACTIONS};
ghost use Rattle.hook_store_law.specs.OfEdits.Premises.{filter_of_line};
ghost use Rattle.desk_masks.specs.OfFilterCommits.Edits.{IsOfLine};
ghost use Rattle.desk_parts.specs.OfFilterNames.Named.{named, CanBeNamed};

use block_codec::StoredFilter;
use desk_actions::ActionPlaces;
use filter_state::{Done, FilterLine};
use flow_fields::Key;
use visit_room::{ActionName, Hit};

/// The names of actions, at the slots where they are.
pub fn names_of(places: &ActionPlaces, serials: &[u32]) -> Hit
    requires few { length serials.now ≤ HIT_ACTIONS }
    requires made { All (λ serial. serial ≤ MADE_MAX) serials.now }
    ensures { result ≡ named places.now serials.now }
{
    let mut names = Hit::new();
    for at in 0..serials.len() {
        let serial = serials[at];
        names.push(ActionName {
            serial,
            slot: places.slot(serial),
        });
    }
    names
}

// The words of a key: there are fourteen.
fn words_of(key: &Key<14>) -> &[u64]
    ensures words { result.now ≡ key.now.words }
    ensures count { length result.now ≡ 14 }
{
    &key.words
}

/// The filter of a line, with the handle and the actions that the lists answered.
pub fn stored_filter(places: &ActionPlaces, line: &FilterLine, done: &Done) -> StoredFilter
    requires stands { (h : List (Commit Edit)) × (s : State) × (pref : ℕ) × (handle : ℕ)
        × (serials : List ℕ) × (done.now ≡ dones.Filter pref handle serials)
        × CanBeNamed h s places.now (filter_of_line line.now handle serials) }
    ensures stored { (h : List (Commit Edit)) (s : State) (pref handle : ℕ) (serials : List ℕ)
        → done.now ≡ dones.Filter pref handle serials
        → CanBeNamed h s places.now (filter_of_line line.now handle serials)
        → IsOfLine h line.now handle serials result }
{
    match done {
        Done::Filter {
            handle,
            serials,
            ..
        } => {
            // Called for its second clause: a key that is stored has fourteen words.
            let _words = words_of(&line.key);
            StoredFilter {
                handle: *handle,
                key: line.key,
                actions: names_of(places, serials.as_slice()),
            }
        }
        _ => unreachable!(),
    }
}
