//! How far a control has come in its batch.

/// Where a control stands in its batch's file.
#[derive(Clone, Copy, Debug, PartialEq, Eq)]
pub struct Place {
    /// The byte at which its next line begins.
    pub at: usize,
    /// How many lines stand before that byte.
    pub line: u64,
    /// Whether the batch stopped at a line that wasn't accepted. What is behind it is never met.
    pub over: bool,
}

impl Place {
    ghost use Rattle.std.specs.Prelude.{◌≡◌, false};

    /// Before the first line.
    pub fn start() -> Place
        ensures { result ≡ record { at = 0; line = 0; over = false } }
    {
        Place {
            at: 0,
            line: 0,
            over: false,
        }
    }
}
