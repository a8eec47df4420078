//! How a store comes to be.
ghost use Rattle.std.specs.Prelude.{◌≡◌, ◌^◌, ◌<◌, [], map, All, IfOk};
ghost use Rattle.pin_store.specs.Layout.{word_count, numbers_to};
ghost use Rattle.pin_store.specs.Sheets.{opening_sheet};
ghost use Rattle.pin_store.specs.Calls.{seen_by, sheet_of, number_of, IsSeatOf, IsNewReader};

use crate::note::Note;
use crate::plays::Spread;
use crate::reader::Reader;
use crate::readers::Readers;
use crate::shape::Shape;
use crate::store::Store;
use crate::table::Words;
use crate::writer::Writer;
use std::alloc::Global;
use std::collections::VecDeque;
use store_history::Law;
use tc_base::NoMemory;

/// A new store with its writer and its readers. All words are 0, and there are no commits.
///
/// It has at least one root, one reader and one word a block, and fewer than 2^31 words in all. No other call
/// takes memory.
pub fn make_store<L: Law>(
    alloc: Global,
    shape: Shape,
) -> Result<(Store<L>, Writer<L>, Readers<L>), NoMemory>
    requires small { word_count shape < 2 ^ 31 }
    requires some { (0 < shape.words) × (0 < shape.roots) × (0 < shape.readers) }
    ensures shape { IfOk result (λ made. made.0.shape ≡ shape) }
    ensures writer { IfOk result (λ made. IsSeatOf made.0 made.1.place × (seen_by made.1.place ≡ [])) }
    ensures sheet { IfOk result (λ made. sheet_of made.1.place
        ≡ record (opening_sheet shape) { made = shape.readers }) }
    ensures readers { IfOk result (λ made. All (λ r. IsNewReader made.0 r.place) made.2.left.items) }
    ensures numbers { IfOk result (λ made. map (λ r. number_of r.place) made.2.left.items
        ≡ numbers_to shape.readers) }
{
    let count = shape.epoch_at() + 1 + shape.readers as usize;
    let zeros = vec![in alloc; 0u64; count]?;
    let notes = vec![in alloc; Note::Unknown; shape.readers as usize]?;
    let (words, mut place) = Words::<L>::of_words(alloc, zeros.as_slice(), &shape)?;
    let mut left = VecDeque::with_capacity(alloc, shape.readers as usize)?;
    for made in 0..shape.readers {
        let seat = words.shared.split_seat::<Spread>(&mut place);
        left.push_back(Reader::new(seat, made + 1))?;
    }
    let writer = Writer::new(place, notes);
    Ok((Store { words, shape }, writer, Readers { left }))
}
