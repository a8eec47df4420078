//! Edits that take filters out: one by its handle, or a whole table.
//!
//! An edit is looked at first, and done later. `plan_removal` finds what the edit takes out, or why it is
//! refused, exactly as the flat state's step does, and changes nothing. `remove` does what was planned, on
//! lists that are still as they were when it was planned (`IsReady` in `specs/OfRemoving/Removals.antt`): the
//! filter leaves its mask, a mask or table goes with its last filter, and each place lets its action go, in
//! order.
//!
//! Neither call takes memory. One thread changes the lists at a time, by `&mut`.
mod doing;
mod planning;
mod removal;

pub use doing::remove;
pub use planning::plan_removal;
pub use removal::Removal;
