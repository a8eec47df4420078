//! The law of a hook: what its commits keep, so that a reader may walk through it while one writer changes
//! it.
//!
//! A hook is stored in chains that roots name. The head of each hook names tables with their masks and the
//! masks' slots, the record at a mask's slot names rows, each bucket of a row names filters, and a filter
//! names actions with their slots. No lock spans them: an edit changes one root with the commit that carries
//! its number, and other roots with commits before and after it that carry none. A reader loads one root
//! after the other, and between two loads there may be any number of commits.
//!
//! The law is a condition on the list of commits, which `store_history` describes, and on a base, the number
//! of commits since which readers may hold what roots named. It says what each root stands for, that a
//! standing root tells that thing, and that since the base a root stands for one thing alone. All is said
//! over plain lists. What edits do and how blocks read comes from the client, by `Terms`, so the proofs know
//! neither of them.
//!
//! **A root tells a range of points.** Its stamp is the least point of the journal from which on its content
//! is right, and it is right in each state from there on, as long as what it tells of stands. So where a
//! look-up loads the root of a mask and then that of a bucket, both are right at the greatest of the two
//! stamps, and that is the point of its answer. No instant is needed at which both roots were loaded.
//!
//! **A region carries its record's stamp.** A look-up reads the mask's record first and the bucket later. In
//! between, the mask may have been given other rows, or have left. A bucket's root stands for a bucket of a
//! region, which is told by slot, mask, size and the stamp that the mask's root had. So if the root tells the
//! bucket of that region at some later time, then at that time the slot's root still had that stamp and size,
//! and what the record says is right up to that time's point too.
//!
//! **What left gets no commit.** A mask that a head stops naming is still walked by those who saw it. Its
//! roots must stay as they are until the base has passed them. This is said as: where something stood at the
//! root of a commit since the base, it stands there after that commit. So nobody has to decide whether a
//! thing has left, and what a reader is told of it follows upwards over the commits: its root holds what it
//! held at some time at which it stood. A root that stood for nothing since the base may be committed to
//! freely.
//!
//! There is one law for each kind of commit, with its premises as a record of `specs/`: `spare_commit`,
//! `spare_commits`, `emptied_roots`, `resize` for those without a number, `marker_commit`, `bucket_commit`,
//! `filter_added`, `filter_replaced`, `filter_removed`, `action_made`, `action_changed`, `head_changed` for
//! those with one. Each says too which things come to stand, so that whoever keeps unused roots in pools
//! knows that the others stay unused, and which masks are at rest afterwards. `roots_tell`, `heads_tell`,
//! `masks_tell`, `slots_tell` and `stamps_rise` are what a reader has of it. `small_hook` is one history
//! worked out.
//!
//! The functions have no code. A proof that calls one has its clauses, or it cites the lemma behind it. At
//! run time nothing is called and nothing is shared, so any thread may do so. Not promised: that an edit
//! meets the premises of its kind, which is to be shown of the client's steps; that slots and rows are within
//! their numbers, which the codec has to see to, since a slot or a row beyond them stands for nothing here;
//! and that the base ever rises.
#![tactic(auto)]

mod edit_laws;
mod law;
mod plain_laws;
mod reader_laws;
mod terms;

pub use edit_laws::{
    action_changed, action_made, bucket_commit, filter_added, filter_removed, filter_replaced,
    head_changed, marker_commit,
};
pub use law::{base_rises, law_opens, small_hook, unused_roots, what_left};
pub use plain_laws::{
    emptied_roots, own_roots, prepared_roots, resize, resize_end, spare_commit, spare_commits,
};
pub use reader_laws::{heads_tell, masks_tell, roots_tell, slots_tell, stamps_rise};
pub use terms::Terms;
