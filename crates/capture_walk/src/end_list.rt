//! How the walks of many packets ended.
ghost use Rattle.std.specs.Prelude.{◌≡◌, ◌++◌, [], ◌∷◌, IfOk, OnErr, if◌then◌else◌};
ghost use Rattle.capture_walk.specs.EndWords.{noted_meta};

use crate::end_iter::EndIter;
use crate::end_words::word_of;
use crate::ends::PacketEnd;
use frame_edit::Meta;
use std::alloc::Global;
use std::marker::Model;
use tc_base::NoMemory;

/// How the walks of packets ended, in order. A packet takes 4 bytes, and 12 more where its metadata isn't 0.
#[derive(Drop)]
pub struct Ends {
    words: Vec<u32>,
    notes: Vec<Meta>,
}

impl Model for Ends {
    ghost use Rattle.std.specs.Prelude.{List};
    ghost use Rattle.capture_walk.specs.declared.ends.PacketEnd.{PacketEnd};
    ghost use Rattle.capture_walk.specs.EndWords.{ends_in, AreNoted};

    ghost Value = { List PacketEnd };

    ghost view = { λ e. ends_in e.words.items e.notes.items };

    ghost invariant = { λ e. AreNoted e.words.items e.notes.items };
}

impl Ends {
    ghost use Rattle.frame_edit.specs.declared.limits.TheConstants.{FRAME_MAX};
    ghost use Rattle.std.specs.Prelude.{◌≡◌, ◌==◌, ◌<◌, ◌^◌, ◌≤◌, ◌++◌, [], ◌∷◌, length, IfOk, OnOk, OnErr};

    /// No end yet, with room for so many.
    pub fn with_room(alloc: Global, packets: usize) -> Result<Self, NoMemory>
        ensures { IfOk result (λ ends. ends ≡ []) }
    {
        let words = Vec::with_capacity(alloc, packets)?;
        Ok(Ends {
            words,
            notes: Vec::new(alloc),
        })
    }

    /// Puts how one more packet ended at the end. Refused, the list stays as it was.
    pub fn push(&mut self, end: PacketEnd) -> Result<(), NoMemory>
        requires { end.length ≤ FRAME_MAX }
        ensures ok { OnOk result (self.new ≡ self.old ++ end ∷ []) }
        ensures err { OnErr result (self.new ≡ self.old) }
    {
        // Room for the word comes first: then nothing can fail once its note is there.
        self.words.reserve(1)?;
        let noted = note(&mut self.notes, end.meta)?;
        self.words.push(word_of(end, noted))?;
        Ok(())
    }

    /// How many packets there are.
    pub fn len(&self) -> usize
        ensures { result ≡ length self.now }
    {
        self.words.len()
    }

    /// Whether there is no packet.
    pub fn is_empty(&self) -> bool
        ensures { result ≡ (length self.now == 0) }
    {
        self.len() == 0
    }

    /// The ends in order.
    pub fn iter(&self) -> EndIter<'_>
        ensures ends { result ≡ self.now }
        // What `count` asks of a chain over the ends.
        ensures fits { length result < 2 ^ 64 }
    {
        // For the proof of `fits`: the number of ends is a `usize`.
        let _count = self.len();
        EndIter::over(&self.words, &self.notes)
    }
}

// Notes the metadata, unless it is 0. Answers whether it did.
fn note(notes: &mut Vec<Meta>, meta: Meta) -> Result<bool, NoMemory>
    ensures noted { IfOk result (λ noted. notes.new.items
        ≡ notes.old.items ++ (if noted then meta ∷ [] else [])) }
    ensures meta { IfOk result (λ noted. noted_meta noted (if noted then meta ∷ [] else []) ≡ meta) }
    ensures err { OnErr result (notes.new.items ≡ notes.old.items) }
{
    if meta == Meta::default() {
        return Ok(false);
    }
    notes.push(meta)?;
    Ok(true)
}
