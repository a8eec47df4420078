//! A text that grows line by line.
ghost use Rattle.std.specs.Prelude.{◌≡◌, [], ◌∷◌, ◌++◌, take, codes, decimal, fold, OnOk};
ghost use Rattle.tc_print.specs.Texts.{onto};

use crate::kept_frames::KeptFrame;
use crate::told::Told;
use crate::words::push_named;
use std::alloc::{AllocError, Global};
use std::marker::Model;
use tc_base::NoMemory;

/// The text of some packets' lines, room for one more line, and the words of frames that were told lately. In
/// a clause a page is its text.
#[derive(Drop)]
pub struct Page {
    pub(crate) line: Vec<u8>,
    pub(crate) text: Vec<u8>,
    pub(crate) kept: Vec<KeptFrame>,
}

impl Model for Page {
    ghost use Rattle.std.specs.Prelude.{List, ℕ};

    ghost Value = { List ℕ };

    ghost view = { λ p. p.text.items };
}

impl Page {
    /// No text. It takes no memory yet.
    pub fn new(alloc: Global) -> Page
        ensures { result ≡ [] }
    {
        Page {
            line: Vec::new(alloc),
            text: Vec::new(alloc),
            kept: Vec::new(alloc),
        }
    }

    /// No text, in the room that was taken.
    pub fn clear(&mut self)
        ensures { self.new ≡ [] }
    {
        self.text.clear();
    }

    /// The first bytes of the text alone.
    pub fn truncate(&mut self, length: usize)
        ensures { self.new ≡ take length self.old }
    {
        self.text.truncate(length);
    }

    /// Puts a text behind the page's.
    ///
    /// `NoMemory`: memory was refused.
    pub fn push_text(&mut self, text: &[u8]) -> Result<(), NoMemory>
        ensures { OnOk result (self.new ≡ self.old ++ text.now) }
    {
        self.text.extend_from_slice(text)?;
        Ok(())
    }

    /// The text.
    pub fn text(&self) -> &[u8]
        ensures { result.now ≡ self.now }
    {
        self.text.as_slice()
    }
}

/// Begins a line of a packet: `at N`.
pub(crate) fn begin_line(line: &mut Vec<u8>, told: Told) -> Result<(), AllocError>
    ensures { OnOk result (line.new.items ≡ fold onto [] (codes "at" ∷ decimal told.packet ∷ [])) }
{
    line.clear();
    push_named(line, "at", told.packet)
}

/// Puts a line and a line feed behind a text.
pub(crate) fn put_line(text: &mut Vec<u8>, line: &[u8]) -> Result<(), AllocError>
    ensures { OnOk result (text.new.items ≡ text.old.items ++ (line.now ++ (10 ∷ []))) }
{
    text.extend_from_slice(line)?;
    text.push(b'\n')?;
    Ok(())
}
