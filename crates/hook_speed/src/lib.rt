//! Workloads whose instructions are counted: a live hook beside plain lists.
//!
//! Each test does one workload once, or some tens of times over. `.ci/hook-speed` runs the built tests under
//! callgrind, one at a time, and takes the difference of two tests that only differ in how often they work:
//! what making a hook and reading lines costs drops out. So these tests say little when they pass: that each
//! edit in them was accepted.
//!
//! `editing` adds filters of one mask and takes them out again, by `Lists::step` and by `Desk::try_apply`,
//! in a mask with few filters and in a full one. `walking` takes the frames of a small gateway through its
//! rules: over lists in one loop, over lists visit by visit, and by a reader of a live hook in which nothing
//! changes. `lines` reads lines of a batch for both, and `gateway` has the rules and the frames.
//!
//! One thread does all of it. It stands apart from the crates that it measures, as a test beside their proofs
//! would have them proved twice. There is nothing to call.
//!
//! Not promised: any figure. What the script prints is measured, not proved.
#![tactic(auto)]

#[cfg(test)]
mod editing;
#[cfg(test)]
mod gateway;
#[cfg(test)]
mod lines;
#[cfg(test)]
mod walking;
