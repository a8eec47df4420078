//! A filter that was found before.
ghost use Rattle.std.specs.Prelude.{◌≡◌, true, false, List, Option, Some, slice_set};
ghost use Rattle.kept_records.specs.OfThings.Places.{place_of, kept_as, kept_at};
ghost use Rattle.kept_records.specs.declared.known_filter.KnownFilter.{KnownFilter as Known};

use crate::things::KeptThings;
use flow_fields::Key;
use tc_base::Point;
use visit_room::Hit;

/// The key of a filter that a search of its bucket found, and its actions.
#[derive(Drop)]
pub struct KnownFilter {
    pub key: Key<14>,
    pub actions: Hit,
}

// The same actions, in place of those that were there.
fn copy_actions(from: &Hit, into: &mut Hit)
    ensures { into.new ≡ from.now }
{
    into.clear();
    for action in from.actions() {
        into.push(*action);
    }
}

// A filter with that key and these actions.
fn known(key: &Key<14>, actions: &Hit) -> KnownFilter
    ensures { result ≡ record { key = key.now; actions = actions.now } }
{
    let mut copied = Hit::new();
    copy_actions(actions, &mut copied);
    KnownFilter {
        key: *key,
        actions: copied,
    }
}

/// Whether the filter that is kept of a bucket, with that stamp, has the key, and its actions.
pub(crate) fn tell_known(
    filters: &KeptThings<KnownFilter>,
    root: u32,
    stamp: Point,
    key: &Key<14>,
    into: &mut Hit,
) -> bool
    ensures { result ≡ true → (it : Known) × (kept_at filters.now root stamp ≡ Some it)
        × (it.key.words ≡ key.now.words) × (into.new ≡ it.actions) }
{
    match filters.at(root, stamp) {
        Some(filter) if filter.key == *key => {
            copy_actions(&filter.actions, into);
            true
        }
        _ => false,
    }
}

/// Keeps the filter that was found in a bucket, where one was.
pub(crate) fn keep_known(
    filters: &mut KeptThings<KnownFilter>,
    root: u32,
    stamp: Point,
    found: bool,
    key: &Key<14>,
    actions: &Hit,
)
    ensures found { found ≡ true → filters.new ≡ slice_set filters.old (place_of root)
        (kept_as root stamp (Some (record { key = key.now; actions = actions.now }))) }
    ensures none { found ≡ false → filters.new ≡ filters.old }
{
    if found {
        filters.keep(root, stamp, Some(known(key, actions)));
    }
}
