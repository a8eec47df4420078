//! What the states of a journal answer, at any of its points.
//!
//! Whoever judges a report walks each packet again, and each visit is answered by the state of its own point.
//! `JournalAnswers` is who answers (`PointAnswers` of `point_walks`): masks and actions by the past of the
//! journal's states (`StatePast`), at whatever point is asked; the tables of a hook by lists. A walk asks
//! for the tables once, at its first point. So lists that stand at that point are enough, and the caller sees
//! to it: what is told of the tables is theirs at every point (`answer_by`). Where they stand at a point,
//! they answer what the journal's state there answers (`lists_answer`).
//!
//! Where an answer is another next is told beside it (`PointChanges`). The tables are the lists' own, so they
//! stay as they are.
//!
//! The journal is lent to say of which states the past is. No call reads it.
//!
//! Plain data lent by `&`, which any thread may read. No call takes memory.

mod answers;
mod changes;
mod laws;

pub use answers::JournalAnswers;
pub use changes::PointChanges;
pub use laws::lists_answer;
