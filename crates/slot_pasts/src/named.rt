//! A name, and what stood under it.

use crate::past::Past;

/// The past of one filter: the serial of its mask and the words of its key, and what stood there over time,
/// or that it was gone.
#[derive(Drop)]
pub struct NamedPast<V> {
    pub(crate) name: [u64; 15],
    pub(crate) past: Past<Option<V>>,
}
