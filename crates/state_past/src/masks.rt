//! The words of the masks that stood.
ghost use Rattle.std.specs.Prelude.{◌≡◌, ℕ, ◌∷◌, [], List, true, OnOk};
ghost use Rattle.filter_state.specs.States.{State};
ghost use Rattle.filter_lists.specs.Spells.{Spells};
ghost use Rattle.slot_pasts.specs.Serials.{past_at};
ghost use Rattle.state_past.specs.Brought.{Brought, AllUpTo};
ghost use Rattle.state_past.specs.Told.{words_told, words_or_none, masks_of, AreLeft, coming_masks};
ghost use Rattle.state_past.specs.Told.{coming_words, words_left};
ghost use Rattle.std.specs.Option.{option_copied};

use crate::coming::Coming;
use crate::gone_filters::{GoingFilter, mask_serial};
use filter_lists::Lists;
use flow_fields::Key;
use slot_pasts::SerialPasts;
use tc_base::{NoMemory, Point};

/// From that point on the masks of these filters have what the lists have of them.
pub(crate) fn note_masks(
    masks: &mut SerialPasts<Key<14>>,
    lists: &Lists,
    from: Point,
    going: &[GoingFilter],
) -> Result<(), NoMemory>
    requires { AllUpTo from (past_at masks.old) }
    ensures up_to { OnOk result (AllUpTo from (past_at masks.new)) }
    ensures brought { (words : ℕ → List ℕ) (s : State) → Spells lists.now s → AreLeft s going.now words
        → OnOk result (Brought from words_told words (masks_of going.now) (past_at masks.old)
        (past_at masks.new)) }
{
    for filter in going {
        note_mask(masks, lists, from, filter)?;
    }
    Ok(())
}

// From that point on the mask of a filter that went has its words, or is gone with it.
fn note_mask(
    masks: &mut SerialPasts<Key<14>>,
    lists: &Lists,
    from: Point,
    filter: &GoingFilter,
) -> Result<(), NoMemory>
    requires { AllUpTo from (past_at masks.old) }
    ensures { (s : State) → Spells lists.now s → OnOk result (Brought from words_told
        (λ mask. words_left s filter.now) (filter.now.mask ∷ []) (past_at masks.old) (past_at masks.new)) }
{
    match mask_serial(lists, filter.hook, filter.chain, filter.pref, &filter.words) {
        Some(_) => put_words(masks, filter.mask, from, &filter.words),
        None => take_words(masks, filter.mask, from),
    }
}

/// From that point on the mask of the filter that was put has its words.
pub(crate) fn put_mask(
    masks: &mut SerialPasts<Key<14>>,
    from: Point,
    coming: &Option<Coming<'_>>,
) -> Result<(), NoMemory>
    requires { AllUpTo from (past_at masks.old) }
    ensures { OnOk result (Brought from words_told (λ mask. coming_words coming.now)
        (coming_masks coming.now) (past_at masks.old) (past_at masks.new)) }
{
    match coming {
        Some(coming) => put_words(masks, coming.mask, from, &coming.line.mask),
        None => Ok(()),
    }
}

// From that point on a mask has these words.
fn put_words(
    masks: &mut SerialPasts<Key<14>>,
    mask: u32,
    from: Point,
    words: &Key<14>,
) -> Result<(), NoMemory>
    requires { AllUpTo from (past_at masks.old) }
    ensures { OnOk result (Brought from words_told (λ mask. words.now.words) (mask ∷ []) (past_at masks.old)
        (past_at masks.new)) }
{
    if has_words(masks.at(mask, from), words) {
        return Ok(());
    }
    masks.put(mask, from, Some(*words))
}

// From that point on a mask doesn't stand.
fn take_words(masks: &mut SerialPasts<Key<14>>, mask: u32, from: Point) -> Result<(), NoMemory>
    requires { AllUpTo from (past_at masks.old) }
    ensures { OnOk result (Brought from words_told (λ mask. []) (mask ∷ []) (past_at masks.old)
        (past_at masks.new)) }
{
    if masks.at(mask, from).is_none() {
        return Ok(());
    }
    masks.put(mask, from, None)
}

// Whether these are the words.
fn has_words(known: Option<&Key<14>>, words: &Key<14>) -> bool
    ensures { result ≡ true → words_or_none (option_copied known.entry) ≡ words.now.words }
{
    match known {
        Some(known) => known.words == words.words,
        None => false,
    }
}
