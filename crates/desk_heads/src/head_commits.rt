//! An edit that goes to the head of a hook keeps the law of the hook.
//!
//! Where an edit makes a mask or a table, takes one away, or moves a filter to another mask or key, the root
//! of the hook gets another chain of tables. Its commit carries the edit. What it names must be there before:
//! a mask that the edit makes, or makes anew, is put whole at another slot and in other rows, by commits
//! without a number that bear the number of the edit as their stamp (`specs/OfHeadCommits/Raised.antt`). As
//! long as no head names the slot nothing stands at these roots, so each first part of these commits keeps
//! the law, and afterwards the mask is prepared. Then the tables are given
//! (`specs/OfHeadCommits/Given.antt`): each mask that they name was prepared, or it had that slot and the
//! edit leaves it alone. All at once a walk finds the new tables and masks.
//!
//! Both are said over plain lists of commits, in the words of the states before and after the edit; who makes
//! the commits shows that they are these. That a mask has one slot is shown here of sound states, in which a
//! mask stands at one place of one table of one hook.
//!
//! Laws only: there is nothing here to call at run time, so any thread may do anything with it.
//!
//! Not promised: that blocks, rows and slots are there, which is the pools' matter; nor that actions of the
//! edit were put, which is asked for.

mod laws;

pub use laws::{given_tables, prepared_masks, raised_masks};
