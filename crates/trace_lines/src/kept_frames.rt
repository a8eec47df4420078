//! The words of frames' fields, kept for the frames that come again.
ghost use Rattle.std.specs.Prelude.{◌≡◌, ◌<◌, ◌≤◌, length, fold, IfSome, OnOk};
ghost use Rattle.flow_fields.specs.Values.{values_of};
ghost use Rattle.tc_print.specs.Texts.{onto};
ghost use Rattle.trace_lines.specs.Parts.{frame_words_of, words_behind};

use crate::frames::push_frame;
use flow_fields::Key;
use flow_mask::hash;
use std::alloc::{AllocError, Global};
use std::marker::Model;

/// How many frames' words are kept at most.
const PLACES: u64 = 4096;

/// The words that told the fields of a frame, each with a space before it; none at first. Frames of one flow
/// have the same fields, and telling these takes longer than all else of a packet. In a clause it is the
/// words' text.
#[derive(Drop)]
pub(crate) struct KeptFrame {
    ether: u16,
    key: Key<14>,
    words: Vec<u8>,
}

impl Model for KeptFrame {
    ghost use Rattle.std.specs.Prelude.{List, ℕ};
    ghost use Rattle.flow_fields.specs.Values.{values_of};
    ghost use Rattle.trace_lines.specs.Parts.{frame_words_of, IsKept};

    ghost Value = { List ℕ };

    ghost view = { λ k. k.words.items };

    ghost invariant = { λ k. IsKept k.words.items (frame_words_of k.ether (values_of k.key.words)) };
}

impl KeptFrame {
    ghost use Rattle.std.specs.Prelude.{◌≡◌, IfSome};
    ghost use Rattle.flow_fields.specs.Values.{values_of};
    ghost use Rattle.trace_lines.specs.Parts.{frame_words_of, words_behind};

    // No words. It takes no memory yet.
    fn new(alloc: Global) -> KeptFrame {
        KeptFrame {
            ether: 0,
            key: Key::new(),
            words: Vec::new(alloc),
        }
    }

    // The words, where they are those of a frame with that EtherType and these fields.
    fn words(&self, ether: u16, key: &Key<14>) -> Option<&[u8]>
        ensures { IfSome result (λ words. words.now
            ≡ words_behind (frame_words_of ether (values_of key.now.words))) }
    {
        if self.words.is_empty() || self.ether != ether || self.key != *key {
            return None;
        }
        Some(&self.words)
    }

    // Keeps the words of a frame in place of those that were here. Refused, there are none.
    fn keep(&mut self, ether: u16, key: &Key<14>, words: &[u8]) -> Result<(), AllocError>
        requires { words.now ≡ words_behind (frame_words_of ether (values_of key.now.words)) }
    {
        self.words.clear();
        self.ether = ether;
        self.key = *key;
        self.words.extend_from_slice(words)
    }
}

// Makes all places, if they aren't there.
fn make_places(kept: &mut Vec<KeptFrame>) -> Result<(), AllocError>
    ensures { OnOk result (PLACES ≤ length kept.new.items) }
{
    if kept.len() as u64 >= PLACES {
        return Ok(());
    }
    let alloc = *kept.allocator();
    for _ in 0..PLACES {
        kept.push(KeptFrame::new(alloc))?;
    }
    Ok(())
}

// The place of a frame with these fields.
fn place_of(key: &Key<14>) -> usize
    ensures { result < PLACES }
{
    (hash(key) % PLACES) as usize
}

// Puts the words of a frame behind a line, and keeps them.
fn push_and_keep(
    line: &mut Vec<u8>,
    kept: &mut KeptFrame,
    ether: u16,
    key: &Key<14>,
) -> Result<(), AllocError>
    requires { 0 < length line.old.items }
    ensures { OnOk result (line.new.items
        ≡ fold onto line.old.items (frame_words_of ether (values_of key.now.words))) }
{
    let start = line.len();
    push_frame(line, ether, key)?;
    let (_, words) = line.split_at(start);
    kept.keep(ether, key, words)
}

// Puts the words of a frame behind a line, by those that stand in its place where they are its own.
fn push_by_place(
    line: &mut Vec<u8>,
    kept: &mut KeptFrame,
    ether: u16,
    key: &Key<14>,
) -> Result<(), AllocError>
    ensures { OnOk result (line.new.items
        ≡ fold onto line.old.items (frame_words_of ether (values_of key.now.words))) }
{
    if line.is_empty() {
        return push_frame(line, ether, key);
    }
    match kept.words(ether, key) {
        Some(words) => line.extend_from_slice(words),
        None => push_and_keep(line, kept, ether, key),
    }
}

/// Puts the words that tell a frame's fields behind a line, each with a space before it unless that is empty.
/// Those of a frame that was told lately are not made again.
pub(crate) fn push_kept_frame(
    line: &mut Vec<u8>,
    kept: &mut Vec<KeptFrame>,
    ether: u16,
    key: &Key<14>,
) -> Result<(), AllocError>
    ensures { OnOk result (line.new.items
        ≡ fold onto line.old.items (frame_words_of ether (values_of key.now.words))) }
{
    make_places(kept)?;
    push_by_place(line, &mut kept[place_of(key)], ether, key)
}
