//! Each call outside that fails, in each command.
//!
//! The shelf fails at its first call, then at its second, and so on, up to the command that has no further
//! call and succeeds; and so does the sink.

use crate::same::same;
use crate::tests::fault_table::{CASES, Call, Case, Held, Written};
use crate::tests::{EMPTY, gateway, numbers, run, two_packets};
use std::alloc::{AllocError, Global};
use std::sync::Wait;
use std::test::Fail;
use std::thread::Threads;
use tc_base::{MemShelf, MemSink, NoMemory};

// What stands under the names of outputs before.
const OLD: &[u8] = b"old";

// What a command leaves.
#[derive(Drop)]
struct Left {
    status: String,
    shelf: MemShelf,
    out: MemSink,
}

// The number of the call at a place.
fn number_of(place: usize) -> u32 {
    u32::try_from(place).unwrap_or(u32::MAX).saturating_add(1)
}

// Whether bytes are the first of these parts, so many of them, one behind the other.
fn are_parts(bytes: &[u8], parts: &[&str], calls: usize) -> bool {
    let mut left = bytes;
    for part in parts.iter().take(calls) {
        if left.len() < part.len() || !left.starts_with(part.as_bytes()) {
            return false;
        }
        left = &left[part.len()..];
    }
    left.is_empty()
}

impl Written<'_> {
    // How many calls of the sink it takes.
    fn calls(self) -> usize {
        match self {
            Written::ByLines(text) => text.lines().count(),
            Written::ByParts(parts) => parts.len(),
            Written::Whole(_) | Written::AnyWhole => 1,
        }
    }

    // Whether these bytes are what the first calls write, so many of them.
    fn begins_with(self, bytes: &[u8], calls: usize) -> bool {
        match self {
            Written::ByLines(text) => {
                let lines = bytes.iter().filter(|byte| **byte == b'\n').count();
                let is_cut = bytes.last().is_some_and(|byte| *byte != b'\n');
                text.as_bytes().starts_with(bytes) && lines == calls && !is_cut
            }
            Written::ByParts(parts) => are_parts(bytes, parts, calls),
            Written::Whole(text) if calls > 0 => bytes == text.as_bytes(),
            Written::AnyWhole if calls > 0 => bytes.ends_with(b"\nend\n"),
            _ => bytes.is_empty(),
        }
    }
}

impl Case<'_> {
    // Puts the files of the case into a shelf, and old ones under the names of outputs.
    fn fill(&self, alloc: Global, shelf: &mut MemShelf) -> Result<(), NoMemory> {
        for (name, held) in self.files {
            match held {
                Held::Text(text) => shelf.insert(name, text.as_bytes())?,
                Held::NoPackets => shelf.insert(name, &EMPTY)?,
                Held::TwoPackets => shelf.insert(name, &two_packets(alloc, false)?)?,
                Held::Gateway => shelf.insert(name, &gateway::capture(alloc)?)?,
            }
        }
        for call in self.calls {
            if let Call::Put(name) = call {
                shelf.insert(name, OLD)?;
            }
        }
        Ok(())
    }

    fn shelf(&self, alloc: Global, fails: &[u32]) -> Result<MemShelf, NoMemory> {
        let mut shelf = MemShelf::new(alloc, numbers(alloc, fails)?);
        match self.fill(alloc, &mut shelf) {
            Ok(()) => Ok(shelf),
            Err(fault) => {
                drop(shelf);
                Err(fault)
            }
        }
    }

    // What the command leaves where these calls of the shelf and of the sink fail.
    fn left<R: AllocGlobal + Threads + Wait + Sync>(
        &self,
        rt: &R,
        shelf_fails: &[u32],
        sink_fails: &[u32],
    ) -> Result<Left, Fail> {
        let fails = numbers(rt.alloc(), sink_fails)?;
        let mut shelf = self.shelf(rt.alloc(), shelf_fails)?;
        let mut out = MemSink::new(rt.alloc(), fails);
        match run(rt, self.words, &mut shelf, &mut out) {
            Ok(status) => Ok(Left { status, shelf, out }),
            Err(fail) => {
                drop((shelf, out));
                Err(fail)
            }
        }
    }

    // What is told of the call of the shelf that fails.
    fn told(&self, alloc: Global, call: usize) -> Result<String, AllocError> {
        match self.calls.get(call) {
            Some(Call::Fetch(name)) => format!(in alloc; "4 cannot read {name}"),
            Some(Call::Put(_)) => String::from_str(alloc, "5 cannot write"),
            None => String::from_str(alloc, self.status),
        }
    }

    // Whether a file was put as a run without faults puts it, or at all where that depends on threads.
    fn is_put(&self, name: &str, left: &Left, whole: &Left) -> bool {
        match self.written {
            Written::AnyWhole => left.shelf.get(name) != Some(OLD),
            _ => left.shelf.get(name) == whole.shelf.get(name),
        }
    }

    // Whether the puts among the first calls were made, so many of them, and no other.
    fn are_put(&self, calls: usize, left: &Left, whole: &Left) -> bool {
        self.calls.iter().enumerate().all(|(place, call)| match call {
            Call::Fetch(_) => true,
            Call::Put(name) if place < calls => self.is_put(name, left, whole),
            Call::Put(name) => left.shelf.get(name) == Some(OLD),
        })
    }

    // What is wrong in what a command leaves, if anything, where that status is due, and the first calls of
    // the shelf and of the sink, so many of them.
    fn wrong_in(
        &self,
        left: &Left,
        whole: &Left,
        status: &str,
        calls: usize,
        writes: usize,
    ) -> Option<&'static str> {
        if left.status.as_str() != status {
            return Some("another status");
        }
        if !self.are_put(calls, left, whole) {
            return Some("another file");
        }
        if !self.written.begins_with(left.out.bytes(), writes) {
            return Some("another text");
        }
        None
    }

    // What is wrong where the shelf fails at the call of this place, or at none behind the last one.
    fn wrong_at_shelf<R: AllocGlobal + Threads + Wait + Sync>(
        &self,
        rt: &R,
        whole: &Left,
        call: usize,
    ) -> Result<Option<&'static str>, Fail> {
        let told = self.told(rt.alloc(), call)?;
        let left = self.left(rt, &[number_of(call)], &[])?;
        let writes = if call == self.calls.len() {
            self.written.calls()
        } else {
            0
        };
        let wrong = self.wrong_in(&left, whole, told.as_str(), call, writes);
        drop((left, told));
        Ok(wrong)
    }

    // The same of the sink. All files are put before.
    fn wrong_at_sink<R: AllocGlobal + Threads + Wait + Sync>(
        &self,
        rt: &R,
        whole: &Left,
        write: usize,
    ) -> Result<Option<&'static str>, Fail> {
        let told = if write == self.written.calls() {
            self.status
        } else {
            "5 cannot write"
        };
        let left = self.left(rt, &[], &[number_of(write)])?;
        let wrong = self.wrong_in(&left, whole, told, self.calls.len(), write);
        drop(left);
        Ok(wrong)
    }

    // The shelf fails at each call, and then at none. Tells how often it failed.
    fn fail_at_shelf<R: AllocGlobal + Threads + Wait + Sync>(
        &self,
        rt: &R,
        whole: &Left,
    ) -> Result<u32, Fail> {
        let mut failed = 0u32;
        for call in 0..=self.calls.len() {
            if let Some(wrong) = self.wrong_at_shelf(rt, whole, call)? {
                return Err(self.fail(rt.alloc(), call, wrong)?);
            }
            failed = failed.saturating_add(u32::from(call < self.calls.len()));
        }
        Ok(failed)
    }

    // So does the sink.
    fn fail_at_sink<R: AllocGlobal + Threads + Wait + Sync>(
        &self,
        rt: &R,
        whole: &Left,
    ) -> Result<u32, Fail> {
        let writes = self.written.calls();
        let mut failed = 0u32;
        for write in 0..=writes {
            if let Some(wrong) = self.wrong_at_sink(rt, whole, write)? {
                return Err(self.fail(rt.alloc(), write, wrong)?);
            }
            failed = failed.saturating_add(u32::from(write < writes));
        }
        Ok(failed)
    }

    fn fail_at_both<R: AllocGlobal + Threads + Wait + Sync>(
        &self,
        rt: &R,
        whole: &Left,
    ) -> Result<(u32, u32), Fail> {
        let at_shelf = self.fail_at_shelf(rt, whole)?;
        let at_sink = self.fail_at_sink(rt, whole)?;
        Ok((at_shelf, at_sink))
    }

    // Both fail, beside what the command leaves where nothing does.
    fn fail_at_each<R: AllocGlobal + Threads + Wait + Sync>(
        &self,
        rt: &R,
    ) -> Result<(u32, u32), Fail> {
        let whole = self.left(rt, &[], &[])?;
        let failed = self.fail_at_both(rt, &whole);
        drop(whole);
        failed
    }

    // Says which call of which command failed with what.
    fn fail(&self, alloc: Global, call: usize, wrong: &str) -> Result<Fail, AllocError> {
        let mut told = format!(in alloc; "{wrong} behind {call} calls of")?;
        for word in self.words {
            told.push_str(&format!(in alloc; " {word}")?)?;
        }
        Ok(Fail::from(told))
    }
}

// Of the shelf, by commands: 1 + 1 of show, 3 + 3 + 3 of walk, 7 + 5 of run, 6 + 6 of recheck, 6 of trace,
// 3 + 3 of foresee, and 4 of gen. Of the sink, by lines: 5 + 3 of show, 5 + 20 + 5 of walk, and 4 of gen; by
// parts: 3 + 3 of foresee. All others write by one call: two runs, two rechecks and a trace.
#[test]
fn each_call_outside_fails(rt: HostRuntime) -> Result<(), Fail> {
    let mut failed = (0u32, 0u32);
    for case in CASES {
        let (at_shelf, at_sink) = case.fail_at_each(&rt)?;
        failed.0 = failed.0.saturating_add(at_shelf);
        failed.1 = failed.1.saturating_add(at_sink);
    }
    same(&rt, failed, (51, 53));
    Ok(())
}
