//! Numbers that are given and come back: blocks, rows and slots of a store.
//!
//! A number that comes back may not be given at once, since somebody may still read what it names. So a
//! `Pool` has two lists: those that are free, and those that left. Whoever knows that nobody reads any more
//! calls `free_all`, and then what left is free. What a number names, and who may still read it, isn't the
//! pool's: contracts see two lists, and a caller says of their members what it needs.
//!
//! The room for all numbers is taken once, as a pool is made. No other call takes memory, and none waits. A
//! pool belongs to one thread.
//!
//! Not promised: that the numbers of the two lists are different, which is so where each that is left was
//! given before; and in which order numbers are given.

mod pool;

pub use pool::Pool;
