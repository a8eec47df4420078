//! What a scan of the readers found.
ghost use Rattle.std.specs.Prelude.{◌^◌, ◌<◌, ℕ, length, slice_index_or};
ghost use Rattle.pin_store.specs.declared.note.Note.TheVariants.{Unknown};
ghost use Rattle.pin_store.specs.Notes.{IsTaken};

use crate::note::Note;

/// What a scan found.
#[derive(Clone, Copy, Debug, PartialEq, Eq)]
pub enum Scan {
    /// No reader is inside that entered before the present epoch began.
    Quiet,
    /// The least reader that may have been inside since before the present epoch, with the odd pin that this
    /// scan loaded.
    Pinned { reader: u32, pin: u64 },
}

impl Scan {
    ghost use Rattle.pin_store.specs.Found.{FoundIn};

    // What these notes say, each of which was taken from a pin.
    pub(crate) fn of_notes(notes: &[Note]) -> Scan
        requires taken { (i : ℕ) → i < length notes.now → IsTaken (slice_index_or notes.now i Unknown) }
        requires few { length notes.now < 2 ^ 31 }
        ensures { FoundIn notes.now result }
    {
        for i in 0..notes.len() {
            match notes[i] {
                Note::Clear => {}
                Note::Seen(pin, _) => {
                    return Scan::Pinned {
                        reader: i as u32 + 1,
                        pin,
                    };
                }
                Note::Unknown => unreachable!(),
            }
        }
        Scan::Quiet
    }
}
