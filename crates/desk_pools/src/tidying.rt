//! Tidying the store of a hook: what left comes back to be given again.
//!
//! An edit gives blocks, rows and slots, and takes others out of what walks can come to. Those left, and may
//! not be given at once: a reader that was inside before may still read them. The pools keep both lists
//! (`Pools`), and what makes them right are facts over the commits and the base.
//!
//! `tidy` begins an epoch and looks at each reader, and where one is inside, at all of them again a moment
//! later: walks are short, and several readers that walk without a pause are hardly ever outside together.
//! Where all that were inside before have left, the base is the end of all commits: nobody reads any more
//! what had left by then. The roots of it still name chains, though, and so their blocks aren't free. So
//! `tidy` commits these roots empty, without a number; that changes nothing for any walk, since nothing
//! stands at them. Then it begins a second epoch and looks again. Where that is quiet too, no chain since the
//! base has these blocks, and all is free. Else it names the first reader that is in the way, with its pin:
//! that was loaded twice in the last epoch and was the same.
//!
//! `Pools` are kept by the thread that has the store's writer. No call takes memory, and none waits: where a
//! reader stays inside, `tidy` says so and leaves what it can't free.
//!
//! Not promised: that a reader that is named is still inside when the caller looks.

mod emptying;
mod settling;
mod tidying;

pub use settling::settle;
pub use tidying::tidy;
