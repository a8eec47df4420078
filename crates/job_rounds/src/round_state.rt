//! What lies under the lock of a round, and a control's turn.
//!
//! # One round, many threads
//!
//! In a round of a job several controls apply the lines of their batches at one desk, each in a thread of its
//! own. A `RoundState` has all that they share: the desk, the events so far, how far each control has come,
//! the names of the actions that were made, and the ear that is told of each accepted edit. It stands under
//! one lock. `turn` meets one control's next line, from reading it to noting what became of it, so that each
//! line is met whole while the lock is held, and the events are in the order of the journal.
//!
//! # What a thread knows
//!
//! Nothing is known of what lies under a lock but what its type says. So the type says it all: the events are
//! an interleaving of the controls' lines, each with its result on the state before it, the journal is the
//! one before the round with the accepted edits behind it, and the ear has heard of just these
//! (`IsRoundOf` in `specs/`). Of which round, is said by a type, too: `N: RoundName` names job, number,
//! store, journal and ear as they were when the round began, and has nothing at run time. So whoever takes
//! the state out of the lock in the end knows that it is this round's, whatever the threads did.
//!
//! # A line that isn't met
//!
//! An edit may be held, since a reader is in the way, and memory may be refused. Both leave the round as it
//! was, the line is still the control's next, and it may be tried again: neither is an event. All room that
//! a turn needs besides the edit's is reserved before the edit, so that nothing can fail behind an edit that
//! was accepted.
//!
//! # What is passed on
//!
//! Whoever runs a round hands in a desk and gets it back. So `Desk`, and what contracts see of it (`Views`),
//! are passed on from `shared_hook`.
//!
//! # Who may call what
//!
//! One thread at a time, the one that has the lock. `new` and `turn` take memory; no call waits. That there
//! is room for an event, in the journal and in the ear, isn't asked of the caller: while a control has a line
//! left there are fewer events than the round's batches have commands.
//!
//! Not promised: that a held edit is ever accepted, and in which order controls take their turns.
mod meeting;
mod naming;
mod state;
mod turned;

pub use naming::RoundName;
pub use round_terms::Place;
pub use shared_hook::Desk;
pub use state::RoundState;
pub use turned::Turned;
