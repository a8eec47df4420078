//! What is told of a look-up.
ghost use Rattle.std.specs.Prelude.{◌≡◌, ◌∷◌, fold, codes, OnOk};
ghost use Rattle.flow_fields.specs.Values.{values_of};
ghost use Rattle.tc_print.specs.Texts.{onto};
ghost use Rattle.trace_lines.specs.Fields.{sought_words};
ghost use Rattle.trace_lines.specs.Lines.{miss_words, match_words, match_origin};

use crate::keys::key_under;
use crate::naming::Naming;
use crate::words::{push_origin, push_word};
use edit_lines::Origin;
use flow_fields::Key;
use std::alloc::AllocError;
use tc_base::Point;
use tc_print::push_fields;

// The mask of a serial, or one without fields where it isn't known.
fn known_mask<N: Naming>(names: &N, point: Point, mask: u32) -> Key<14>
    ensures { values_of result.words ≡ values_of ((N.names names.now).words point mask) }
{
    match names.mask(point, mask) {
        Some(words) => *words,
        None => Key::new(),
    }
}

/// The filter of a mask that a frame meets: its handle, and the edit that brought it.
pub(crate) fn met_origin<N: Naming>(
    names: &N,
    point: Point,
    mask: u32,
    frame: &Key<14>,
) -> Option<Origin>
    ensures { result ≡ match_origin (N.names names.now) point mask (values_of frame.now.words) }
{
    names.filter(
        point,
        mask,
        &key_under(frame, &known_mask(names, point, mask)),
    )
}

// What is looked for under a mask, field by field.
#[tactic(auto, unfolding(crate::specs::Fields::sought_words))]
fn push_sought(line: &mut Vec<u8>, frame: &Key<14>, mask: &Key<14>) -> Result<(), AllocError>
    ensures { OnOk result (line.new.items
        ≡ fold onto line.old.items (sought_words (values_of frame.now.words) mask.now.words)) }
{
    push_fields(line, &key_under(frame, mask), mask)
}

/// No filter of the mask is met.
pub(crate) fn push_miss<N: Naming>(
    line: &mut Vec<u8>,
    names: &N,
    point: Point,
    mask: u32,
    frame: &Key<14>,
) -> Result<(), AllocError>
    ensures { OnOk result (line.new.items ≡ fold onto line.old.items
        (miss_words (N.names names.now) point mask (values_of frame.now.words))) }
{
    push_word(line, "miss")?;
    push_sought(line, frame, &known_mask(names, point, mask))
}

/// A filter of the mask is met.
pub(crate) fn push_match<N: Naming>(
    line: &mut Vec<u8>,
    names: &N,
    point: Point,
    mask: u32,
    frame: &Key<14>,
    origin: Option<Origin>,
) -> Result<(), AllocError>
    requires { origin ≡ match_origin (N.names names.now) point mask (values_of frame.now.words) }
    ensures { OnOk result (line.new.items ≡ fold onto line.old.items
        (match_words (N.names names.now) point mask (values_of frame.now.words))) }
{
    push_word(line, "match")?;
    push_sought(line, frame, &known_mask(names, point, mask))?;
    push_origin(line, origin)
}
