ghost use Rattle.std.specs.Prelude.{◌≡◌, ◌↔◌, [], Some, IsErrOf, IsTrue, OnOk, OnErr};
ghost use Rattle.tc_base.specs.Counts.{one_more, count_after_put};
ghost use Rattle.tc_base.specs.Outside.{Appended, AppendsUpTo, PutCounts};
ghost use Rattle.tc_base.specs.MemSink.{written_of, calls_of, fails_of, faults_of, fails_next};

use crate::calls::Calls;
use crate::faults::count_write_fault;
use crate::{Numbers, Put, Sink};
use std::alloc::Global;

/// A sink in memory, which tells its bytes and fails where it is told to.
///
/// Calls of `write_all` are numbered from 1, each as soon as it is made, also where it then wants
/// memory. One whose number is listed is answered `Failed`, and writes nothing.
#[derive(Drop)]
pub struct MemSink {
    bytes: Vec<u8>,
    calls: Calls,
    faults: u64,
}

impl MemSink {
    /// A sink to which nothing is written. `fails` lists the numbers of the calls that are to fail.
    pub fn new(alloc: Global, fails: Numbers) -> Self
        ensures written { written_of result ≡ [] }
        ensures calls { calls_of result ≡ 0 }
        ensures fails { fails_of result ≡ fails }
        ensures faults { faults_of result ≡ 0 }
    {
        MemSink {
            bytes: Vec::new(alloc),
            calls: Calls::new(fails),
            faults: 0,
        }
    }

    /// All bytes written so far.
    pub fn bytes(&self) -> &[u8]
        ensures { result.now ≡ written_of self.now }
    {
        &self.bytes
    }
}

impl Sink for MemSink {
    ghost written = { λ s. Some (written_of s) };

    ghost faults = { faults_of };

    fn write_all(&mut self, bytes: &[u8]) -> Result<(), Put>
        ensures all { OnOk result
            (Appended (Some (written_of self.old)) (Some (written_of self.new)) bytes.now) }
        ensures up_to { AppendsUpTo (Some (written_of self.old)) (Some (written_of self.new)) bytes.now }
        ensures counts { PutCounts (faults_of self.old) (faults_of self.new) result }

        // When it fails, and what an error leaves.
        ensures failed { IsErrOf result Put.Failed ↔ IsTrue (fails_next self.old) }
        ensures err { OnErr result (written_of self.new ≡ written_of self.old) }
        ensures faults { faults_of self.new ≡ count_after_put (faults_of self.old) result }
        ensures calls { calls_of self.new ≡ one_more (calls_of self.old) }
        ensures fails { fails_of self.new ≡ fails_of self.old }
    {
        if self.calls.next_fails() {
            return Err(count_write_fault(&mut self.faults));
        }
        self.bytes.extend_from_slice(bytes)?;
        Ok(())
    }
}
