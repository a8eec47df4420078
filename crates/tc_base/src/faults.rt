//! The counts of faults that shelves and sinks keep. Each stands still at `u64::MAX`.
ghost use Rattle.std.specs.Prelude.{◌≡◌, ◌≤◌};
ghost use Rattle.tc_base.specs.Counts.{one_more};

use crate::{Fetch, Put};

/// How often reads and writes failed, and the name of the last fetch that did.
#[derive(Drop)]
pub(crate) struct Faults {
    pub(crate) read: u64,
    pub(crate) failed: Option<String>,
    pub(crate) write: u64,
}

impl Faults {
    pub(crate) fn new() -> Self
        ensures read { result.read ≡ 0 }
        ensures failed { result.failed ≡ None }
        ensures write { result.write ≡ 0 }
    {
        Faults {
            read: 0,
            failed: None,
            write: 0,
        }
    }

    /// Counts a read that failed and keeps its name.
    pub(crate) fn fetch_failed(&mut self, name: String) -> Fetch
        ensures answer { result ≡ Fetch.Failed }
        ensures read { self.new.read ≡ one_more self.old.read }
        ensures later { self.old.read ≤ self.new.read }
        ensures failed { self.new.failed ≡ Some name }
        ensures write { self.new.write ≡ self.old.write }
    {
        self.read = self.read.saturating_add(1);
        self.failed = Some(name);
        Fetch::Failed
    }

    /// Counts a write that failed.
    pub(crate) fn put_failed(&mut self) -> Put
        ensures answer { result ≡ Put.Failed }
        ensures write { self.new.write ≡ one_more self.old.write }
        ensures later { self.old.write ≤ self.new.write }
        ensures read { self.new.read ≡ self.old.read }
        ensures failed { self.new.failed ≡ self.old.failed }
    {
        count_write_fault(&mut self.write)
    }
}

/// Counts a write that failed.
pub(crate) fn count_write_fault(count: &mut u64) -> Put
    ensures answer { result ≡ Put.Failed }
    ensures count { count.new ≡ one_more count.old }
    ensures later { count.old ≤ count.new }
{
    *count = count.saturating_add(1);
    Put::Failed
}
