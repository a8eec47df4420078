//! Where the words of a mask and the parameters of an action are others.
ghost use Rattle.std.specs.Prelude.{◌≡◌};
ghost use Rattle.std.specs.Bool.{Decides};
ghost use Rattle.std.specs.Option.{option_copied};
ghost use Rattle.slot_pasts.specs.Pasts.{value_at, stood};
ghost use Rattle.slot_pasts.specs.Serials.{past_at};
ghost use Rattle.state_past.specs.Told.{words_told, words_or_none};
ghost use Rattle.state_past.specs.NextChange.{IsNextChange};

use crate::alike::are_alike;
use crate::names::key_words;
use act_kinds::Params;
use flow_fields::Key;
use slot_pasts::SerialPasts;
use tc_base::Point;

/// The first point behind that one at which a mask had other words, or none.
pub(crate) fn other_words_after(
    masks: &SerialPasts<Key<14>>,
    point: Point,
    serial: u32,
) -> Option<Point>
    ensures { IsNextChange (λ at. words_told (value_at at (past_at masks.now serial))) point result }
{
    let mut next = masks.after(serial, point)?;
    while are_same_words(masks.at(serial, next), masks.at(serial, point)) {
        next = masks.after(serial, next)?;
    }
    Some(next)
}

// Whether these are the same words, or none both.
fn are_same_words(one: Option<&Key<14>>, other: Option<&Key<14>>) -> bool
    ensures { Decides result
        (words_or_none (option_copied one.entry) ≡ words_or_none (option_copied other.entry)) }
{
    match (one, other) {
        (Some(one), Some(other)) => one.words == other.words,
        (Some(key), None) | (None, Some(key)) => key_words(key).is_empty(),
        (None, None) => true,
    }
}

/// The first point behind that one at which an action had other parameters, or none.
pub(crate) fn other_params_after(
    actions: &SerialPasts<Params>,
    point: Point,
    serial: u32,
) -> Option<Point>
    ensures { IsNextChange (λ at. stood (value_at at (past_at actions.now serial))) point result }
{
    let mut next = actions.after(serial, point)?;
    while are_same_params(actions.at(serial, next), actions.at(serial, point)) {
        next = actions.after(serial, next)?;
    }
    Some(next)
}

// Whether these are the same parameters, or none both.
fn are_same_params(one: Option<&Params>, other: Option<&Params>) -> bool
    ensures { Decides result (option_copied one.entry ≡ option_copied other.entry) }
{
    match (one, other) {
        (Some(one), Some(other)) => are_alike(*one, *other),
        (None, None) => true,
        _ => false,
    }
}
