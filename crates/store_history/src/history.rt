//! Commits, and what they are made of. No value of these types is made.

use std::collections::LinkedList;

/// A block of a chain, by its number from 0, with all its words.
pub struct Link {
    pub block: u64,
    pub words: LinkedList<u64>,
}

/// What a root names: a chain of blocks, the first in front, and a stamp, the least point of the journal from
/// which on this chain stands there.
pub struct Named {
    pub chain: LinkedList<Link>,
    pub stamp: u64,
}

/// One change of what a root names. A numbered commit carries its number and an entry, the edit that it
/// makes.
pub struct Commit<E> {
    pub root: u64,
    pub named: Named,
    pub edit: Option<(u64, E)>,
}
