//! Outcomes in buffers that all of them share.
ghost use Rattle.std.specs.Prelude.{◌≡◌, ◌+◌, ◌<◌, ◌≤◌, ◌++◌, ◌↔◌, length, slice_range, IsTrue};
ghost use Rattle.std.specs.Prelude.{vec_len, vec_capacity};
ghost use Rattle.run_report.specs.Kept.{first_ends, start_of};

use crate::outcomes::OutcomeView;
use frame_edit::Meta;
use std::alloc::Global;
use std::marker::Model;
use tc_base::{NoMemory, Point};
use walk_rules::Verdict;

// Where a packet's parts of the buffers end.
#[derive(Clone, Copy, Debug)]
struct Ends {
    bytes: usize,
    points: usize,
    executed: usize,
}

// The record of a packet, but for its lists: each of them begins where that of the packet before ends. There
// are as many as packets, so its numbers stand side by side, which makes it 40 bytes.
#[derive(Clone, Copy, Debug)]
struct Row {
    ends: Ends,
    worker: u32,
    priority: u32,
    mark: u32,
    queue: u16,
    verdict: Verdict,
}

/// Outcomes in the order in which they came. The frames of all of them lie in one buffer, and so do the
/// points and the executions: one packet more takes no memory of its own.
#[derive(Drop, Debug)]
pub struct OutcomeList {
    rows: Vec<Row>,
    bytes: Vec<u8>,
    points: Vec<Point>,
    executed: Vec<(u32, u32)>,
}

impl Model for OutcomeList {
    ghost use Rattle.std.specs.Prelude.{List};
    ghost use Rattle.run_report.specs.declared.outcomes.Outcome.{Outcome};
    ghost use Rattle.run_report.specs.Kept.{first_ends, ends_of, outcomes_in, AreRowsUpTo};

    ghost Value = { List Outcome };

    ghost view = { λ o. outcomes_in o.bytes.items o.points.items o.executed.items first_ends o.rows.items };

    ghost invariant = { λ o. AreRowsUpTo (ends_of o.bytes.items o.points.items o.executed.items) first_ends
        o.rows.items };
}

// Where the parts of the packet in a row begin.
fn start_of(rows: &[Row], row: usize) -> Ends
    requires { row < length rows.now }
    ensures { result ≡ start_of first_ends rows.now row }
{
    match row {
        0 => Ends {
            bytes: 0,
            points: 0,
            executed: 0,
        },
        _ => rows[row - 1].ends,
    }
}

// The part of a list from a place up to another.
fn part<T>(list: &[T], start: usize, end: usize) -> &[T]
    requires { (start ≤ end) × (end ≤ length list.now) }
    ensures { result.now ≡ slice_range list.now start end }
{
    &list[start..end]
}

// Puts more behind a list, which has room for it.
fn put<T: Copy>(list: &mut Vec<T>, more: &[T])
    requires { vec_len list.old + length more.now ≤ vec_capacity list.old }
    ensures { list.new.items ≡ list.old.items ++ more.now }
{
    match list.extend_from_slice(more) {
        Ok(()) => {}
        Err(_) => unreachable!(),
    }
}

impl OutcomeList {
    ghost use Rattle.std.specs.Prelude.{◌++◌, ◌∷◌, [], slice_get, Some, OnOk, OnErr};
    ghost use Rattle.run_report.specs.Kept.{outcome_seen};

    /// No outcomes yet.
    pub fn new(alloc: Global) -> OutcomeList
        ensures { result ≡ [] }
    {
        OutcomeList {
            rows: Vec::new(alloc),
            bytes: Vec::new(alloc),
            points: Vec::new(alloc),
            executed: Vec::new(alloc),
        }
    }

    /// Puts the outcome of the next packet behind those that are there. Its lists are copied.
    ///
    /// `NoMemory`: memory was refused, and the outcomes are as they were.
    pub fn push(&mut self, outcome: &OutcomeView<'_>) -> Result<(), NoMemory>
        ensures put { OnOk result (self.new ≡ self.old ++ outcome_seen outcome.now ∷ []) }
        ensures kept { OnErr result (self.new ≡ self.old) }
    {
        self.bytes.reserve(outcome.bytes.len())?;
        self.points.reserve(outcome.points.len())?;
        self.executed.reserve(outcome.executed.len())?;
        self.rows.reserve(1)?;
        put(&mut self.bytes, outcome.bytes);
        put(&mut self.points, outcome.points);
        put(&mut self.executed, outcome.executed);
        self.rows.push_reserved(Row {
            ends: Ends {
                bytes: self.bytes.len(),
                points: self.points.len(),
                executed: self.executed.len(),
            },
            worker: outcome.worker,
            priority: outcome.meta.priority,
            mark: outcome.meta.mark,
            queue: outcome.meta.queue,
            verdict: outcome.verdict,
        });
        Ok(())
    }

    /// How many there are.
    pub fn len(&self) -> usize
        ensures { result ≡ length self.now }
    {
        self.rows.len()
    }

    /// Whether there is none.
    pub fn is_empty(&self) -> bool
        ensures { IsTrue result ↔ (length self.now ≡ 0) }
    {
        self.rows.is_empty()
    }

    /// The outcome in a row, from 0.
    pub fn at(&self, row: usize) -> OutcomeView<'_>
        requires { row < length self.now }
        ensures { slice_get self.now row ≡ Some (outcome_seen result) }
    {
        let start = start_of(&self.rows, row);
        let row = &self.rows[row];
        OutcomeView {
            worker: row.worker,
            verdict: row.verdict,
            bytes: part(&self.bytes, start.bytes, row.ends.bytes),
            meta: Meta {
                priority: row.priority,
                mark: row.mark,
                queue: row.queue,
            },
            points: part(&self.points, start.points, row.ends.points),
            executed: part(&self.executed, start.executed, row.ends.executed),
        }
    }
}
