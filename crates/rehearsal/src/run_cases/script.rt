//! A round whose threads meet in a given order.

use crate::run_cases::jobs::{capture_to, filled, no_files};
use crate::run_cases::order::{Order, Step, Turns};
use crate::run_cases::running::run_held;
use crate::run_cases::trouble::Trouble;
use std::alloc::Global;
use std::str;
use std::sync::Wait;
use std::thread::Threads;
use tc_base::{MemShelf, MemSink, NoMemory};

/// A job of two rounds, and the order in which the threads of the second one meet. In the first round control
/// 4 applies a batch. In the second one controls 1 and 2 apply one each, while packets to some hosts of
/// 10.0.0.0/24 come in.
#[derive(Clone, Copy)]
pub(crate) struct Script<'a> {
    pub(crate) about: &'a str,
    pub(crate) workers: u32,
    pub(crate) base: &'a str,
    pub(crate) first: &'a str,
    pub(crate) second: &'a str,
    pub(crate) hosts: &'a [u8],
    pub(crate) order: &'a [Step],
    /// What the report has to tell of the second round, up to the last counter. It may be any of these.
    pub(crate) told: &'a [&'a str],
}

// The report of a run whose threads take all these steps, in this order.
fn report_in<R: Threads + Wait + Sync>(
    rt: &R,
    alloc: Global,
    shelf: &mut MemShelf,
    steps: &[Step],
) -> Result<MemSink, Trouble> {
    let order = Order::new(steps);
    let mut turns = Turns { order: &order };
    let ran = run_held(rt, alloc, shelf, &order, &mut turns)?;
    if !order.is_done() {
        drop(ran);
        return Err(Trouble::Late);
    }
    Ok(ran.into_report())
}

// What a report tells of the second round, and its counters.
fn told_in(report: &[u8]) -> Option<&str> {
    let (_, round) = str::from_utf8(report).ok()?.split_once("round 2\n")?;
    let (told, _) = round.split_once("summary ")?;
    Some(told)
}

impl Script<'_> {
    fn fill(&self, shelf: &mut MemShelf, job: &str, capture: &[u8]) -> Result<(), NoMemory> {
        shelf.insert("job", job.as_bytes())?;
        shelf.insert("base", self.base.as_bytes())?;
        shelf.insert("first", self.first.as_bytes())?;
        shelf.insert("second", self.second.as_bytes())?;
        shelf.insert("in", capture)
    }

    // The files of the job.
    fn files(&self, alloc: Global) -> Result<MemShelf, Trouble> {
        let job = format!(in alloc;
            "clsact job 1\nworkers {}\ncontrols 4\nround\nbatch 4 base\nround\n\
            batch 1 first\nbatch 2 second\ncapture ingress in out\nend\n",
            self.workers
        )?;
        let capture = capture_to(alloc, self.hosts)?;
        let mut shelf = no_files(alloc);
        let all = self.fill(&mut shelf, &job, &capture);
        Ok(filled(shelf, all)?)
    }

    /// Runs the job, and says whether the report tells what it has to.
    pub(crate) fn fits<R: Threads + Wait + Sync>(
        &self,
        rt: &R,
        alloc: Global,
    ) -> Result<bool, Trouble> {
        let mut shelf = self.files(alloc)?;
        let report = report_in(rt, alloc, &mut shelf, self.order);
        drop(shelf);
        let report = report?;
        let fits = match told_in(report.bytes()) {
            Some(told) => self.told.contains(&told),
            None => false,
        };
        drop(report);
        Ok(fits)
    }
}
