//! The ends of packets, one after the other.
ghost use Rattle.std.specs.Prelude.{◌≡◌};
ghost use Rattle.std.specs.Iterator.{YieldsFirstBy, item_count};
ghost use Rattle.capture_walk.specs.EndWords.{is_noted, noted_meta, notes_left, ends_in};

use crate::end_list::Ends;
use crate::end_words::{end_of, has_note};
use crate::ends::PacketEnd;
use frame_edit::Meta;
use std::marker::Model;

/// Gives the ends of packets in order, from `Ends::iter`. Contracts see those that are left.
#[derive(Drop)]
pub struct EndIter<'a> {
    words: &'a [u32],
    notes: &'a [Meta],
}

impl<'a> Model for EndIter<'a> {
    ghost use Rattle.std.specs.Prelude.{List};
    ghost use Rattle.capture_walk.specs.declared.ends.PacketEnd.{PacketEnd};
    ghost use Rattle.capture_walk.specs.EndWords.{ends_in};

    ghost Value = { List PacketEnd };

    ghost view = { λ i. ends_in i.words.now i.notes.now };
}

impl<'a> EndIter<'a> {
    pub(crate) fn over(words: &'a [u32], notes: &'a [Meta]) -> Self
        ensures { result ≡ ends_in words.now notes.now }
    {
        EndIter { words, notes }
    }
}

impl<'a> Iterator for EndIter<'a> {
    type Item = PacketEnd;

    ghost next_gives = { YieldsFirstBy (λ end. end) (λ i. i) };

    ghost remaining = { item_count (λ i. i) };

    #[inline]
    fn next(&mut self) -> Option<PacketEnd> {
        let (word, words) = self.words.split_first()?;
        let (meta, notes) = meta_of(*word, self.notes);
        self.words = words;
        self.notes = notes;
        Some(end_of(*word, meta))
    }
}

impl<'a> IntoIterator for &'a Ends {
    type Item = PacketEnd;

    type IntoIter = EndIter<'a>;

    ghost into_iter_gives = { λ ends it. it ≡ ends.now };

    fn into_iter(self) -> EndIter<'a> {
        self.iter()
    }
}

// The metadata of a packet with this word, and the notes for those behind it.
#[inline]
fn meta_of(word: u32, notes: &[Meta]) -> (Meta, &[Meta])
    ensures meta { result.0 ≡ noted_meta (is_noted word) notes.now }
    ensures left { result.1.now ≡ notes_left (is_noted word) notes.now }
{
    if !has_note(word) {
        return (Meta::default(), notes);
    }
    match notes.split_first() {
        Some((meta, left)) => (*meta, left),
        None => (Meta::default(), notes),
    }
}
