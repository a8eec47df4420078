//! The lists of a desk and the commits of its store, kept together.
//!
//! A desk keeps the plain lists of a hook and the writer of a store that walks read. Each edit that the lists
//! accept is one numbered commit. `IsLedger` (`specs/OfLedgers/Ledger.antt`) is what stays true between two
//! edits: the commits keep the store's law, each mask has the number of buckets for its filters, and the
//! lists spell the state to which the edits of the commits lead. So what the lists refuse the journal's state
//! refuses, and what they answer is its answer.
//!
//! `Ledger::mark` is the first kind of edit: those that no walk can see. The qdisc comes or goes, which
//! changes nothing that a walk asks for; and a deleted action is named by no filter. The commit is to a root
//! that nobody loads, and carries the edit and its number alone.
//!
//! The thread that has the store's writer calls. No call takes memory: an edit was made ready before
//! (`filter_lists::Lists::prepare`), so that nothing can fail once the lists have changed.
//!
//! Not promised: which blocks and slots are free; that is the pools' (`tidying` of `desk_pools`).

mod ledger;

pub use ledger::Ledger;
