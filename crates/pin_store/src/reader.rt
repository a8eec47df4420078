//! A reader, which walks the chains of a store without waiting for anyone.
ghost use Rattle.std.specs.Prelude.{◌≡◌, ◌%◌, ◌^◌, ◌<◌, ◌≤◌, IsSome, false};

use crate::plays::{LoadEpoch, LoadRoot, LoadWord, Meet, Raise, Remember};
use crate::receipt::Receipt;
use crate::root_word::RootWord;
use crate::steps::Steps;
use crate::store::Store;
use crate::table::Place;
use std::sync::ledger::Ledger;
use store_history::Law;

/// One of a store's readers. It may be sent to any thread, and is used by one at a time.
///
/// Contracts see its seat: what it has seen, its number, its pin, how many words of roots and of blocks it
/// has loaded, and its floor, which it has exactly while it is inside.
#[derive(Drop)]
pub struct Reader<L: Law> {
    pub place: Place<L>,
    number: u32,
    pin: u64,
    pub ghost numbered: { (place.me.0.number ≡ number) × (0 < number) × (number ≤ place.me.0.shape.readers) },
    pub ghost pinned: { (place.me.0.pin ≡ pin) × (pin ≤ 2 ^ 63) },
    pub ghost floored: { pin % 2 ≡ 1 → IsSome place.me.0.floor },
    pub ghost plain: { place.me.0.writes ≡ false },
}

impl<L: Law> Reader<L> {
    ghost use Rattle.std.specs.Prelude.{ℕ, ◌+◌, ◌*◌, length, slice_index, None};
    ghost use mathlib.Core.List.{IsPrefix};
    ghost use Rattle.store_history.specs.declared.history.Link.{Link};
    ghost use Rattle.store_history.specs.History.{root_of, first_block, IsNamed, IsLinked};
    ghost use Rattle.pin_store.specs.Layout.{IsInShape};
    ghost use Rattle.pin_store.specs.Calls.{seen_by, number_of, pin_of, floor_of, floor_start, loads_of};
    ghost use Rattle.pin_store.specs.Calls.{IsOutside, IsInside, IsSeatOf, IsSameReader, IsSameButLoads};

    // A reader that was never inside.
    pub(crate) fn new(place: Place<L>, number: u32) -> Reader<L>
        requires number { (number_of place ≡ number) × (0 < number) × (number ≤ place.me.0.shape.readers) }
        requires outside { pin_of place ≡ 0 }
        requires plain { place.me.0.writes ≡ false }
        ensures { result.place ≡ place }
    {
        Reader {
            place,
            number,
            pin: 0,
        }
    }

    /// The reader's number, from 1.
    pub fn number(&self) -> u32
        ensures { result ≡ number_of self.now.place }
    {
        self.number
    }

    /// Goes inside. What roots name from now on stands until `leave`. The reader has then seen every commit
    /// that there was as its epoch began.
    ///
    /// These are two steps, the pin's and the load of the epoch. A reader that entered 2^62 times can't enter
    /// again.
    pub fn enter(&mut self, store: &Store<L>)
        requires store { IsSeatOf store.now self.old.place }
        requires outside { IsOutside self.old.place }
        requires few { pin_of self.old.place < 2 ^ 63 }
        ensures store { IsSeatOf store.now self.new.place }
        ensures inside { IsInside self.new.place }
        ensures pin { (number_of self.new.place ≡ number_of self.old.place)
            × (pin_of self.new.place ≡ pin_of self.old.place + 1) }
        ensures longer { IsPrefix (seen_by self.old.place) (seen_by self.new.place) }
        ensures recent { floor_start self.new.place ≤ length (seen_by self.new.place) }
        ensures loads { loads_of self.new.place ≡ loads_of self.old.place }
    {
        let pin_at = store.shape.pin_at(self.number as usize - 1);
        let epoch_at = store.shape.epoch_at();
        let Reader { place, pin, .. } = self;
        let raised = *pin + 1;
        store.words.shared.store::<Raise>(place, pin_at, raised);
        *pin = raised;
        store.words.shared.load::<LoadEpoch>(place, epoch_at);
    }

    /// Goes outside. The reader holds no chain any more, and blocks that it could have read may be filled
    /// again.
    pub fn leave(&mut self, store: &Store<L>)
        requires store { IsSeatOf store.now self.old.place }
        requires inside { IsInside self.old.place }
        ensures store { IsSeatOf store.now self.new.place }
        ensures outside { IsOutside self.new.place }
        ensures pin { (number_of self.new.place ≡ number_of self.old.place)
            × (pin_of self.new.place ≡ pin_of self.old.place + 1) }
        ensures seen { seen_by self.new.place ≡ seen_by self.old.place }
        ensures floor { floor_of self.new.place ≡ None }
        ensures loads { loads_of self.new.place ≡ loads_of self.old.place }
    {
        let pin_at = store.shape.pin_at(self.number as usize - 1);
        let Reader { place, pin, .. } = self;
        let raised = *pin + 1;
        store.words.shared.store::<Raise>(place, pin_at, raised);
        *pin = raised;
    }

    /// What the root names at the end of what the reader has then seen. The law holds of these commits, with
    /// the start of the reader's floor as its base. Counts one load.
    pub fn load_root<M: Ledger>(
        &mut self,
        store: &Store<L>,
        root: u32,
        steps: &mut Steps<M>,
    ) -> RootWord
        requires store { IsSeatOf store.now self.old.place }
        requires root { root < store.now.shape.roots }
        requires inside { IsInside self.old.place }
        ensures store { IsSeatOf store.now self.new.place }
        ensures same { IsSameReader self.old.place self.new.place }
        ensures longer { IsPrefix (seen_by self.old.place) (seen_by self.new.place) }
        ensures recent { floor_start self.new.place ≤ length (seen_by self.new.place) }
        ensures lawful { L.keeps (seen_by self.new.place) (floor_start self.new.place) }
        ensures first { result.first ≡ first_block (root_of (seen_by self.new.place) root).chain }
        ensures stamp { result.stamp ≡ (root_of (seen_by self.new.place) root).stamp }
        ensures linked { IsLinked store.now.shape.words (root_of (seen_by self.new.place) root).chain }
        ensures sized { (l : Link) → IsNamed (floor_start self.new.place) (seen_by self.new.place) l
            → IsInShape store.now.shape l }
        ensures loads { loads_of self.new.place ≡ loads_of self.old.place + 1 }
        ensures steps { steps.new ≡ steps.old + 1 }
    {
        steps.tick();
        let at = store.shape.roots_at() + root as usize;
        let word = store.words.shared.load::<LoadRoot<L>>(&mut self.place, at);
        RootWord::of_word(word)
    }

    /// A word of a block that is in some chain which was named since the reader's floor, as far as the reader
    /// has seen. It is the word of that chain, and of every such chain that has the block. Counts one load.
    pub fn load_word<M: Ledger>(
        &mut self,
        store: &Store<L>,
        block: u32,
        word: u32,
        steps: &mut Steps<M>,
    ) -> u64
        requires store { IsSeatOf store.now self.old.place }
        requires within { (block < store.now.shape.blocks) × (word < store.now.shape.words) }
        requires inside { IsInside self.old.place }
        requires told { (l : Link) × IsNamed (floor_start self.old.place) (seen_by self.old.place) l
            × (l.block ≡ block) }
        ensures store { IsSeatOf store.now self.new.place }
        ensures same { IsSameButLoads self.old.place self.new.place }
        ensures word { (l : Link) → IsNamed (floor_start self.old.place) (seen_by self.old.place) l
            → l.block ≡ block
            → result ≡ slice_index l.words word }
        ensures loads { loads_of self.new.place ≡ loads_of self.old.place + 1 }
        ensures steps { steps.new ≡ steps.old + 1 }
    {
        steps.tick();
        let at = store.shape.word_at(block, word);
        store.words.shared.load::<LoadWord>(&mut self.place, at)
    }

    /// The reader has then seen all that the receipt has seen, and loses nothing of what it had seen. It may
    /// be inside or outside.
    pub fn learn(&mut self, store: &Store<L>, receipt: Receipt<L>)
        requires store { IsSeatOf store.now self.old.place }
        requires receipt { IsSeatOf store.now receipt.place }
        ensures store { IsSeatOf store.now self.new.place }
        ensures same { IsSameReader self.old.place self.new.place }
        ensures longer { IsPrefix (seen_by self.old.place) (seen_by self.new.place) }
        ensures learnt { IsPrefix (seen_by receipt.place) (seen_by self.new.place) }
        ensures loads { loads_of self.new.place ≡ loads_of self.old.place }
    {
        let Receipt { place } = receipt;
        let shared = &store.words.shared;
        shared.join_seat::<Remember>(&mut self.place, place);
        shared.load::<Meet>(&mut self.place, store.shape.roots_at());
    }
}
