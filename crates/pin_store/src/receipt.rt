//! What one thread hands to another so that it has seen as much.

use crate::table::Place;
use store_history::Law;

/// A proof that all commits were seen which there were as the writer gave it. It takes no bytes, and a reader
/// that learns it has then seen these commits.
#[derive(Drop)]
pub struct Receipt<L: Law> {
    pub place: Place<L>,
}
