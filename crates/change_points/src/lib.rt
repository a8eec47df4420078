//! What the states of a change answer, at any of its points.
//!
//! Whoever searches for what a change can do to a packet asks again and again, and each way begins at the
//! point before the change. Masks and actions are answered by the past of the journal's states, at whatever
//! point is asked. The tables of a hook are told by lists, and lists stand at one point: to take them back
//! for each way would cost the change each time. So `HookHeads` keeps the tables of one hook, as they stood
//! at each point from that before the change on. The lists tell them while the change is followed, once an
//! edit, and a copy is kept where they are others than before: what stood at a point is found by halving.
//!
//! `ChangeAnswers` is who answers (`PointAnswers`), and tells where an answer is another next
//! (`PointChanges`). What it answers at a point is what the journal's state there answers; of the other hook,
//! and of tables before the change, it knows nothing (`answers_agree`). A search asks neither. So its ways
//! are those over the states (`ways_agree`).
//!
//! # Who may call what
//!
//! Plain data. One thread at a time notes; the answers are lent by `&`, and any thread may read them. Only
//! `begin` and `note` take memory: where an edit changes the hook's tables, a copy of all of them. Where it
//! is refused nothing changed.
//!
//! Not promised: that few edits change the tables. A copy has 256 tables at most, each of 16 masks, and each
//! edit may want one.
#![tactic(auto)]

mod answers;
mod heads;
mod kept_table;
mod kept_tables;
mod laws;

pub use answers::ChangeAnswers;
pub use heads::HookHeads;
pub use laws::{answers_agree, ways_agree};
