//! Lines at random places of two walks at the same time.

use crate::run_cases::dice::Dice;
use crate::run_cases::placed::Placed;
use crate::run_cases::placement_cases::{CASES, Case};
use crate::run_cases::schedule::Turn;
use crate::run_cases::trouble::Trouble;
use crate::same::same;
use std::alloc::{AllocError, Global};
use std::sync::Wait;
use std::test::Fail;
use std::thread::Threads;

// How many jobs a test runs.
const JOBS: u32 = 500;

// How many turns there still are of the first walk, of the second one, and of the control.
#[derive(Clone, Copy)]
struct Left {
    first: u32,
    second: u32,
    lines: u32,
}

impl Left {
    // The next turn, each that is left with the same chance. Turns of a kind come in order.
    fn turn(&mut self, dice: &mut Dice, whole: Left) -> Option<Turn> {
        let all = self
            .first
            .saturating_add(self.second)
            .saturating_add(self.lines);
        if all == 0 {
            return None;
        }
        let drawn = dice.below(all);
        if drawn < self.first {
            self.first = self.first.saturating_sub(1);
            return Some(Turn::Visit(1, whole.first.saturating_sub(self.first) as usize));
        }
        if drawn < self.first.saturating_add(self.second) {
            self.second = self.second.saturating_sub(1);
            return Some(Turn::Visit(2, whole.second.saturating_sub(self.second) as usize));
        }
        self.lines = self.lines.saturating_sub(1);
        Some(Turn::Line(whole.lines.saturating_sub(self.lines) as usize))
    }
}

// The turns of two walks of so many visits, and of so many lines, in a random order.
fn random_turns(
    alloc: Global,
    dice: &mut Dice,
    visits: u32,
    lines: u32,
) -> Result<Vec<Turn>, AllocError> {
    let whole = Left {
        first: visits,
        second: visits,
        lines,
    };
    let mut left = whole;
    let mut turns = Vec::new(alloc);
    for _ in 0..100 {
        if let Some(turn) = left.turn(dice, whole) {
            turns.push(turn)?;
        }
    }
    Ok(turns)
}

// So many lines of a case, in a random order. One may be there twice.
fn random_lines<'a>(
    alloc: Global,
    dice: &mut Dice,
    case: &Case<'a>,
    count: u32,
) -> Result<Vec<&'a str>, AllocError> {
    let mut lines = Vec::new(alloc);
    for _ in 0..count {
        lines.push(dice.one(&case.lines))?;
    }
    Ok(lines)
}

// Judges a job of a case, with one to three lines. Of the packets one may go to a host that few filters take.
fn judge<R: Threads + Wait + Sync>(
    rt: &R,
    alloc: Global,
    dice: &mut Dice,
    case: &Case<'_>,
) -> Result<(), Trouble> {
    let count = 1 + dice.below(3);
    let lines = random_lines(alloc, dice, case, count)?;
    let turns = random_turns(alloc, dice, case.visits, count)?;
    let placed = Placed {
        base: case.base,
        lines: &lines,
        hosts: &[1, 1 + dice.below(2) as u8],
        turns: &turns,
    };
    placed.judge(rt, alloc)
}

// The first job at which something is wrong, with what is.
fn judge_many<R: Threads + Wait + Sync>(
    rt: &R,
    alloc: Global,
    seed: u64,
) -> Result<Option<(u32, Trouble)>, Trouble> {
    let mut dice = Dice { seed };
    for (job, case) in (0..JOBS).zip(CASES.iter().cycle()) {
        if let Err(trouble) = judge(rt, alloc, &mut dice, case) {
            return Ok(Some((job, trouble)));
        }
    }
    Ok(None)
}

#[test]
fn lines_around_two_walks_first(rt: HostRuntime) -> Result<(), Fail> {
    same(&rt, judge_many(&rt, rt.alloc(), 1)?, None);
    Ok(())
}

#[test]
fn lines_around_two_walks_second(rt: HostRuntime) -> Result<(), Fail> {
    same(&rt, judge_many(&rt, rt.alloc(), 2)?, None);
    Ok(())
}

#[test]
fn lines_around_two_walks_third(rt: HostRuntime) -> Result<(), Fail> {
    same(&rt, judge_many(&rt, rt.alloc(), 3)?, None);
    Ok(())
}

#[test]
fn lines_around_two_walks_fourth(rt: HostRuntime) -> Result<(), Fail> {
    same(&rt, judge_many(&rt, rt.alloc(), 4)?, None);
    Ok(())
}
