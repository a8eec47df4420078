//! What `show` answers for a batch file.
//!
//! A batch has one outcome (`batch_run`), and an outcome one text: the refused line, if there is one, and
//! then the state that is left. `show_batch` makes that text from the file's lines, and `push_stop` the
//! refused line alone, with which other texts begin too. Reading the file, cutting it, the limit on its
//! commands, and the writing are the caller's.
//!
//! One thread calls this, and it keeps nothing between calls. Not promised: that memory suffices.

mod show;

pub use show::{Shown, push_stop, show_batch};
