//! A text that grows line by line.
ghost use Rattle.std.specs.Prelude.{◌≡◌, [], ◌∷◌, ◌++◌, OnOk};

use std::alloc::{AllocError, Global};

/// Lines that are done, and one that grows word by word. Each line grows in the one buffer, where its first
/// word stands at the start, so that no space goes before it.
#[derive(Drop)]
pub(crate) struct Sheet {
    pub(crate) text: Vec<u8>,
    pub(crate) line: Vec<u8>,
}

impl Sheet {
    /// No lines.
    pub(crate) fn new(alloc: Global) -> Self
        ensures text { result.text.items ≡ [] }
        ensures line { result.line.items ≡ [] }
    {
        Sheet {
            text: Vec::new(alloc),
            line: Vec::new(alloc),
        }
    }

    /// The line is done, and an empty one begins.
    pub(crate) fn end_line(&mut self) -> Result<(), AllocError>
        ensures text { OnOk result (self.new.text.items ≡ self.old.text.items
            ++ (self.old.line.items ++ (10 ∷ []))) }
        ensures line { OnOk result (self.new.line.items ≡ []) }
    {
        self.text.extend_from_slice(&self.line)?;
        self.text.push(b'\n')?;
        self.line.clear();
        Ok(())
    }
}
