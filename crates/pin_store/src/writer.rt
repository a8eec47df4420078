//! The writer, which alone changes blocks and roots.
ghost use Rattle.std.specs.Prelude.{◌≡◌, length, true};
ghost use Rattle.pin_store.specs.Sheets.{IsSoundSheet};

use crate::note::Note;
use crate::plays::{Bump, Chosen, Fill, LoadPin, Make, Meet, Remember, Told};
use crate::reader::Reader;
use crate::receipt::Receipt;
use crate::root_word::word_naming;
use crate::scan::Scan;
use crate::store::Store;
use crate::table::Place;
use std::marker::Brand;
use store_history::{EditName, Law};
use tc_base::Point;

/// The writer of a store. There is one; it may be sent to any thread, and is used by one at a time.
///
/// Contracts see its seat: it has seen all commits, and knows the words of all blocks, the epochs with their
/// starts, and a note for each reader.
#[derive(Drop)]
pub struct Writer<L: Law> {
    pub place: Place<L>,
    epoch: u64,
    notes: Vec<Note>,
    pub ghost writes: { place.me.0.writes ≡ true },
    pub ghost present: { place.me.0.sheet.epoch ≡ epoch },
    pub ghost noted: { place.me.0.sheet.notes ≡ notes.items },
    pub ghost sound: { IsSoundSheet place.me.0.shape place.me.0.sheet (length place.me.0.seen) },
}

impl<L: Law> Writer<L> {
    ghost use Rattle.std.specs.Prelude.{◌≢◌, ℕ, ◌+◌, ◌*◌, ◌^◌, ◌<◌, ◌≤◌, [], ◌∷◌, ◌++◌, slice_set};
    ghost use Rattle.std.specs.Prelude.{slice_index, All};
    ghost use mathlib.Core.List.{IsPrefix};
    ghost use Rattle.store_history.specs.History.{IsLinked};
    ghost use Rattle.pin_store.specs.Layout.{block_words, links_of, commit_of};
    ghost use Rattle.pin_store.specs.Notes.{NotedFrom};
    ghost use Rattle.pin_store.specs.Sheets.{base_of, note_at, scanned, bumped, IsSameButCells};
    ghost use Rattle.pin_store.specs.Sheets.{IsSameButNotes, QuietAfter};
    ghost use Rattle.pin_store.specs.Calls.{seen_by, sheet_of, IsSeatOf, IsUnnamed};
    ghost use Rattle.pin_store.specs.Found.{FoundIn};

    // The writer of a new store.
    pub(crate) fn new(place: Place<L>, notes: Vec<Note>) -> Writer<L>
        requires writes { place.me.0.writes ≡ true }
        requires first { (sheet_of place).epoch ≡ 0 }
        requires noted { (sheet_of place).notes ≡ notes.items }
        requires sound { IsSoundSheet place.me.0.shape (sheet_of place) (length (seen_by place)) }
        ensures { result.place ≡ place }
    {
        Writer {
            place,
            epoch: 0,
            notes,
        }
    }

    /// How many epochs began since the store was made.
    pub fn epoch(&self) -> u64
        ensures { result ≡ (sheet_of self.now.place).epoch }
    {
        self.epoch
    }

    // Writes one word of a block.
    fn fill_word(&mut self, store: &Store<L>, block: u32, at: u32, word: u64)
        requires store { IsSeatOf store.now self.old.place }
        requires within { (block < store.now.shape.blocks) × (at < store.now.shape.words) }
        requires unread { IsUnnamed (base_of (sheet_of self.old.place)) (seen_by self.old.place) block }
        ensures store { IsSeatOf store.now self.new.place }
        ensures seen { seen_by self.new.place ≡ seen_by self.old.place }
        ensures sheet { IsSameButCells (sheet_of self.old.place) (sheet_of self.new.place) }
        ensures cells { (sheet_of self.new.place).cells
            ≡ slice_set (sheet_of self.old.place).cells (block * store.now.shape.words + at) word }
    {
        let cell = store.shape.word_at(block, at);
        store
            .words
            .shared
            .store::<Fill>(&mut self.place, cell, word);
    }

    /// Gives a block these words. No chain may have the block that was named since the base, so no reader
    /// inside can read it.
    pub fn fill(&mut self, store: &Store<L>, block: u32, words: &[u64])
        requires store { IsSeatOf store.now self.old.place }
        requires within { block < store.now.shape.blocks }
        requires words { length words.now ≡ store.now.shape.words }
        requires free { IsUnnamed (base_of (sheet_of self.old.place)) (seen_by self.old.place) block }
        ensures store { IsSeatOf store.now self.new.place }
        ensures seen { seen_by self.new.place ≡ seen_by self.old.place }
        ensures sheet { IsSameButCells (sheet_of self.old.place) (sheet_of self.new.place) }
        ensures block { block_words store.now.shape (sheet_of self.new.place).cells block ≡ words.now }
        ensures others { (other : ℕ) → other ≢ block → other < store.now.shape.blocks
            → block_words store.now.shape (sheet_of self.new.place).cells other
            ≡ block_words store.now.shape (sheet_of self.old.place).cells other }
    {
        for at in 0..store.shape.words {
            self.fill_word(store, block, at, words[at as usize]);
        }
    }

    // Makes the commit that the type names.
    fn put<C: Chosen<L::Entry>>(
        &mut self,
        store: &Store<L>,
        root: u32,
        chain: &[u32],
        stamp: Point,
        edit: Option<Point>,
    )
        requires store { IsSeatOf store.now self.old.place }
        requires root { root < store.now.shape.roots }
        requires within { All (λ b. b < store.now.shape.blocks) chain.now }
        requires own { C.commit.root ≡ root }
        requires named { C.commit.named
            ≡ record {
              chain = links_of store.now.shape (sheet_of self.old.place).cells chain.now;
              stamp = stamp;
            } }
        requires linked { IsLinked store.now.shape.words C.commit.named.chain }
        requires lawful { L.keeps (seen_by self.old.place ++ C.commit ∷ [])
            (base_of (sheet_of self.old.place)) }
        ensures store { IsSeatOf store.now self.new.place }
        ensures seen { seen_by self.new.place ≡ seen_by self.old.place ++ C.commit ∷ [] }
        ensures sheet { sheet_of self.new.place ≡ sheet_of self.old.place }
    {
        let at = store.shape.roots_at() + root as usize;
        let word = word_naming(chain, stamp);
        store
            .words
            .shared
            .store::<Make<C>>(&mut self.place, at, word);
    }

    /// Makes one commit: the root names the chain of these blocks, with the words that they have, and the
    /// stamp. With a number in `edit`, the commit carries the edit that `E` names, under this number.
    ///
    /// The last word of each block must link to the next one, and the law must hold of all commits with this
    /// one.
    pub fn commit<E: EditName<L::Entry>>(
        &mut self,
        store: &Store<L>,
        root: u32,
        chain: &[u32],
        stamp: Point,
        edit: Option<Point>,
    )
        requires store { IsSeatOf store.now self.old.place }
        requires root { root < store.now.shape.roots }
        requires within { All (λ b. b < store.now.shape.blocks) chain.now }
        requires linked { IsLinked store.now.shape.words
            (links_of store.now.shape (sheet_of self.old.place).cells chain.now) }
        requires lawful { L.keeps
            (seen_by self.old.place
            ++ commit_of store.now.shape (sheet_of self.old.place).cells root chain.now stamp edit E.edit
            ∷ [])
            (base_of (sheet_of self.old.place)) }
        ensures store { IsSeatOf store.now self.new.place }
        ensures seen { seen_by self.new.place
            ≡ seen_by self.old.place
            ++ commit_of store.now.shape (sheet_of self.old.place).cells root chain.now stamp edit E.edit
            ∷ [] }
        ensures sheet { sheet_of self.new.place ≡ sheet_of self.old.place }
    {
        self.put::<Brand>(store, root, chain, stamp, edit);
    }

    /// Begins a new epoch, and answers its number. No note is known any more. At most 2^62 epochs can begin.
    pub fn bump(&mut self, store: &Store<L>) -> u64
        requires store { IsSeatOf store.now self.old.place }
        requires few { (sheet_of self.old.place).epoch < 2 ^ 62 }
        ensures store { IsSeatOf store.now self.new.place }
        ensures seen { seen_by self.new.place ≡ seen_by self.old.place }
        ensures sheet { sheet_of self.new.place
            ≡ bumped (sheet_of self.old.place) (length (seen_by self.old.place)) }
        ensures epoch { result ≡ (sheet_of self.new.place).epoch }
        ensures base { base_of (sheet_of self.new.place) ≡ base_of (sheet_of self.old.place) }
    {
        let epoch_at = store.shape.epoch_at();
        let Writer {
            place,
            epoch,
            notes,
        } = self;
        let next = *epoch + 1;
        store.words.shared.store::<Bump>(place, epoch_at, next);
        *epoch = next;
        notes.fill(Note::Unknown);
        next
    }

    // Loads the pin of the reader with the number i + 1, and notes it.
    fn note_pin(&mut self, store: &Store<L>, i: usize)
        requires store { IsSeatOf store.now self.old.place }
        requires within { i < store.now.shape.readers }
        ensures store { IsSeatOf store.now self.new.place }
        ensures seen { seen_by self.new.place ≡ seen_by self.old.place }
        ensures sheet { (pin : ℕ) × (sheet_of self.new.place ≡ scanned (sheet_of self.old.place) i pin) }
    {
        let at = store.shape.pin_at(i);
        let Writer { place, notes, .. } = self;
        let pin = store.words.shared.load::<LoadPin>(place, at);
        notes[i] = notes[i].after_load(pin);
    }

    /// Loads the pin of each reader whose note isn't clear, once each, and notes it.
    ///
    /// Quiet comes exactly where all notes are clear after this call. Then the present epoch is the quiet
    /// one, and the base is its start.
    pub fn scan(&mut self, store: &Store<L>) -> Scan
        requires store { IsSeatOf store.now self.old.place }
        ensures store { IsSeatOf store.now self.new.place }
        ensures seen { seen_by self.new.place ≡ seen_by self.old.place }
        ensures same { IsSameButNotes (sheet_of self.old.place) (sheet_of self.new.place) }
        ensures notes { (i : ℕ) → i < store.now.shape.readers
            → NotedFrom (note_at (sheet_of self.old.place) i) (note_at (sheet_of self.new.place) i) }
        ensures quiet { QuietAfter (sheet_of self.old.place) (sheet_of self.new.place) }
        ensures risen { base_of (sheet_of self.old.place) ≤ base_of (sheet_of self.new.place) }
        ensures found { FoundIn (sheet_of self.new.place).notes result }
    {
        for i in 0..self.notes.len() {
            if !self.notes[i].is_clear() {
                self.note_pin(store, i);
            }
        }
        Scan::of_notes(self.notes.as_slice())
    }

    /// A receipt that has seen all commits so far.
    pub fn receipt(&mut self, store: &Store<L>) -> Receipt<L>
        requires store { IsSeatOf store.now self.old.place }
        ensures store { IsSeatOf store.now self.new.place }
        ensures same { self.new.place.me ≡ self.old.place.me }
        ensures receipt { IsSeatOf store.now result.place }
        ensures seen { seen_by result.place ≡ seen_by self.old.place }
    {
        Receipt {
            place: store.words.shared.split_seat::<Told>(&mut self.place),
        }
    }

    /// Tells the writer that what the reader has seen is a beginning of all commits, and leaves both as they
    /// are.
    pub fn meet(&mut self, store: &Store<L>, reader: &mut Reader<L>)
        requires store { IsSeatOf store.now self.old.place }
        requires reader { IsSeatOf store.now reader.old.place }
        ensures store { IsSeatOf store.now self.new.place }
        ensures same { (seen_by self.new.place ≡ seen_by self.old.place)
            × (sheet_of self.new.place ≡ sheet_of self.old.place) }
        ensures reader { IsSeatOf store.now reader.new.place × (reader.new.place.me ≡ reader.old.place.me) }
        ensures met { IsPrefix (seen_by reader.old.place) (seen_by self.old.place) }
    {
        let shared = &store.words.shared;
        let told = shared.split_seat::<Told>(&mut reader.place);
        shared.join_seat::<Remember>(&mut self.place, told);
        shared.load::<Meet>(&mut self.place, store.shape.roots_at());
    }
}
