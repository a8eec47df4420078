//! What the workers of a round brought back becomes the outcomes of the round.
//!
//! # What each worker knows, and what the round has to say
//!
//! Behind a round each worker has a log, a seat of the claims at which it drew packets, and a reader that has
//! seen some beginning of the desk's commits. All that is known of these speaks of one worker: its walks are
//! over what its own reader had seen, and its numbers are those that it drew itself. A round's outcomes speak
//! of one journal, and of each packet once. No worker can tell what leads from the one to the other. That
//! takes three steps behind the join:
//!
//! - `meet_all`: the desk meets each reader, and so it is known that what the reader has seen begins what the
//!   desk has. Then each walk is one over the desk's journal.
//! - `settle` gives all seats of the claims back into one, and draws one number more. It is past the packets,
//!   as each worker's last number is. So the workers drew all packets, and each once. Nobody could test that:
//!   it is a fact about the claim word, seats have no bytes, and the draw is all that it costs.
//! - `settle` then gives each packet the outcome of the row with its number (`put_together` of `logs` of
//!   `worker_rounds`). The round's packets are walked (`AreWalked` of `lawful_runs`), where it is known of
//!   each worker what its reader had seen before the round (`AreBack` in
//!   `specs/OfOneRound/OfOutcomes/Met.antt`).
//!
//! A round without workers has no outcomes, and nothing is to be called for it.
//!
//! # Who may call what
//!
//! Whoever joined the workers calls `meet_all`, and then `settle`: desk, workers, seats and logs are its own
//! by then. Nothing here waits, and nothing is shared.
//!
//! Not promised: that memory suffices.
mod drawing;
mod meeting;
mod settling;

pub use meeting::meet_all;
pub use settling::settle;
