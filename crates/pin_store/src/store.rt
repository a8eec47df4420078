//! The store that the writer and the readers share.
ghost use Rattle.std.specs.Prelude.{◌≡◌, ◌^◌, ◌<◌};
ghost use Rattle.pin_store.specs.Layout.{word_count};

use crate::shape::Shape;
use crate::table::Words;
use store_history::Law;

/// The words of a store. All threads share it by `&`; it is changed through the writer and the readers alone.
#[derive(Drop)]
pub struct Store<L: Law> {
    pub(crate) words: Words<L>,
    pub shape: Shape,
    pub ghost about: { words.shared.key ≡ shape },
    pub ghost wide: { words.shared.table_id.words ≡ word_count shape },
    pub ghost small: { word_count shape < 2 ^ 31 },
    pub ghost parts: { (0 < shape.words) × (0 < shape.roots) × (0 < shape.readers) },
}
