//! How large a store is, and where its words stand.
ghost use Rattle.std.specs.Prelude.{◌≡◌, ◌+◌, ◌*◌, ◌^◌, ◌<◌};
ghost use Rattle.pin_store.specs.Layout.{cell_count, epoch_at, pin_at, word_count};

/// The numbers of a store's parts. Blocks, words and roots are numbered from 0, readers from 1.
///
/// The store is a row of `blocks * words + roots + 1 + readers` words of 64 bits: the blocks, one behind the
/// other, then the roots, the epoch, and a pin for each reader.
#[derive(Clone, Copy, Debug, PartialEq, Eq)]
pub struct Shape {
    pub blocks: u32,
    /// The words of each block. The last is the link to the next block of a chain.
    pub words: u32,
    pub roots: u32,
    pub readers: u32,
}

impl Shape {
    // The place of the first root, which is the number of words of all blocks.
    pub(crate) fn roots_at(self) -> usize
        requires { word_count self < 2 ^ 31 }
        ensures { result ≡ cell_count self }
    {
        self.blocks as usize * self.words as usize
    }

    pub(crate) fn epoch_at(self) -> usize
        requires { word_count self < 2 ^ 31 }
        ensures { result ≡ epoch_at self }
    {
        self.roots_at() + self.roots as usize
    }

    // The place of the pin of the reader with the number i + 1.
    pub(crate) fn pin_at(self, i: usize) -> usize
        requires small { word_count self < 2 ^ 31 }
        requires inside { i < self.readers }
        ensures { result ≡ pin_at self i }
    {
        self.epoch_at() + 1 + i
    }

    pub(crate) fn word_at(self, block: u32, word: u32) -> usize
        requires small { word_count self < 2 ^ 31 }
        requires inside { (block < self.blocks) × (word < self.words) }
        ensures { result ≡ block * self.words + word }
    {
        block as usize * self.words as usize + word as usize
    }
}
