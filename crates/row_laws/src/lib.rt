//! Flat rows, and the tables that spell them.
//!
//! What an edit means is said of the flat rows of a state, and lists are kept by table and mask. `order` says
//! in what order tables and masks hold the rows, `lookups` answers what is asked of rows from one table and
//! one mask, and `changes` says what a change of the nested lists does to the rows. So whoever keeps tables
//! never looks through all rows, and still does what the rows say.
//!
//! Laws only: there is nothing here to call at run time, so any thread may do anything with it.
#![tactic(auto)]

pub mod changes;
pub mod lookups;
pub mod order;
