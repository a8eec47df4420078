//! What the writer knows of a reader's pin.
ghost use Rattle.std.specs.Prelude.{◌≡◌};
ghost use Rattle.pin_store.specs.Notes.{is_clear, noted};

/// What the loads of a reader's pin since the present epoch began say of the reader.
#[derive(Clone, Copy)]
pub enum Note {
    /// The pin was not loaded yet.
    Unknown,
    /// Each load found this odd pin. The second number counts the loads, and stands still at its type's end.
    Seen(u64, u64),
    /// The reader has left since the epoch began, or was outside: it holds nothing from before.
    Clear,
}

impl Note {
    pub(crate) fn is_clear(self) -> bool
        ensures { result ≡ is_clear self }
    {
        matches!(self, Note::Clear)
    }

    // The note after one more load, which found this pin.
    pub(crate) fn after_load(self, pin: u64) -> Note
        ensures { result ≡ noted self pin }
    {
        match self {
            _ if pin % 2 == 0 => Note::Clear,
            Note::Unknown => Note::Seen(pin, 1),
            Note::Seen(seen, times) if seen == pin => Note::Seen(seen, times.saturating_add(1)),
            Note::Seen(..) | Note::Clear => Note::Clear,
        }
    }
}
