//! Each placement of up to three lines before, between and behind the visits of one walk.
//!
//! Of a walk of v visits, a line has v + 1 places: before each visit, or behind the walk. So two lines in
//! order have (v + 2 over 2) placements, and three have (v + 3 over 3). Of the eight lines of a case each
//! is placed alone, each two are placed in order, which are 28, and eight times three of them.

use crate::run_cases::placed::Placed;
use crate::run_cases::placement_cases::{
    Case, FULL_MASK, ONE_FILTER, TWO_ACTIONS, TWO_CHAINS, TWO_MASKS, TWO_TABLES,
};
use crate::run_cases::trouble::Trouble;
use crate::same::same;
use std::alloc::{AllocError, Global};
use std::process::Abort;
use std::sync::Wait;
use std::test::Fail;
use std::thread::Threads;

// The placements of a case that were judged, and the first at which something was wrong.
#[derive(Drop)]
struct Trial<'a> {
    alloc: Global,
    case: Case<'a>,
    judged: u32,
    wrong: Option<String>,
}

impl<'a> Trial<'a> {
    fn new(alloc: Global, case: &Case<'a>) -> Trial<'a> {
        Trial {
            alloc,
            case: *case,
            judged: 0,
            wrong: None,
        }
    }

    // Judges lines before these visits.
    fn judge<R: Threads + Wait + Sync>(
        &mut self,
        rt: &R,
        lines: &[&str],
        slots: &[usize],
    ) -> Result<(), Trouble> {
        if self.wrong.is_some() {
            return Ok(());
        }
        let turns = self.case.turns(self.alloc, slots)?;
        let placed = Placed {
            base: self.case.base,
            lines,
            hosts: &[1],
            turns: &turns,
        };
        self.judged = self.judged.saturating_add(1);
        if let Err(trouble) = placed.judge(rt, self.alloc) {
            self.wrong = Some(told(self.alloc, lines, slots, trouble)?);
        }
        Ok(())
    }

    fn one<R: Threads + Wait + Sync>(&mut self, rt: &R, line: &str) -> Result<(), Trouble> {
        for slot in 1..=self.case.last_slot() {
            self.judge(rt, &[line], &[slot])?;
        }
        Ok(())
    }

    fn two<R: Threads + Wait + Sync>(&mut self, rt: &R, lines: &[&str; 2]) -> Result<(), Trouble> {
        let last = self.case.last_slot();
        for first in 1..=last {
            for second in first..=last {
                self.judge(rt, lines, &[first, second])?;
            }
        }
        Ok(())
    }

    fn three<R: Threads + Wait + Sync>(
        &mut self,
        rt: &R,
        lines: &[&str; 3],
    ) -> Result<(), Trouble> {
        let last = self.case.last_slot();
        for first in 1..=last {
            for second in first..=last {
                for third in second..=last {
                    self.judge(rt, lines, &[first, second, third])?;
                }
            }
        }
        Ok(())
    }

    // No line, each alone, and each two in order.
    fn few<R: Threads + Wait + Sync>(&mut self, rt: &R) -> Result<(), Trouble> {
        let lines = self.case.lines;
        self.judge(rt, &[], &[])?;
        for (place, line) in lines.iter().enumerate() {
            self.one(rt, line)?;
            for other in lines.iter().skip(place.saturating_add(1)) {
                self.two(rt, &[line, other])?;
            }
        }
        Ok(())
    }

    // Eight times three.
    fn many<R: Threads + Wait + Sync>(&mut self, rt: &R) -> Result<(), Trouble> {
        let lines = self.case.lines;
        for place in 0..8usize {
            let (second, third) = (lines[(place + 3) % 8], lines[(place + 5) % 8]);
            self.three(rt, &[lines[place], second, third])?;
        }
        Ok(())
    }
}

// What was placed where, and what was wrong.
fn told(
    alloc: Global,
    lines: &[&str],
    slots: &[usize],
    trouble: Trouble,
) -> Result<String, AllocError> {
    let mut text = format!(in alloc; "{trouble:?}")?;
    for (line, slot) in lines.iter().zip(slots.iter()) {
        text.push_str(&format!(in alloc; "; before visit {slot}: {line}")?)?;
    }
    Ok(text)
}

// How many placements of none, one or two lines were judged, where nothing was wrong, and else what was.
fn few<R: Threads + Wait + Sync>(
    rt: &R,
    alloc: Global,
    case: &Case<'_>,
) -> Result<(u32, Option<String>), Trouble> {
    let mut trial = Trial::new(alloc, case);
    trial.few(rt)?;
    Ok((trial.judged, trial.wrong))
}

// The same of three lines.
fn many<R: Threads + Wait + Sync>(
    rt: &R,
    alloc: Global,
    case: &Case<'_>,
) -> Result<(u32, Option<String>), Trouble> {
    let mut trial = Trial::new(alloc, case);
    trial.many(rt)?;
    Ok((trial.judged, trial.wrong))
}

// None, then 8 × 4 + 28 × 10; and 8 × 20.
// What was wrong stops the test, and so does another number than so many.
fn judged(rt: &impl Abort, judged: (u32, Option<String>), due: u32) -> Result<(), Fail> {
    let (judged, wrong) = judged;
    if let Some(wrong) = wrong {
        return Err(Fail::from(wrong));
    }
    same(rt, judged, due);
    Ok(())
}

// Judges so many placements of none, one or two lines.
fn judge_few<R: AllocGlobal + Threads + Wait + Sync + Abort>(
    rt: &R,
    case: &Case<'_>,
    due: u32,
) -> Result<(), Fail> {
    judged(rt, few(rt, rt.alloc(), case)?, due)
}

// And of three lines.
fn judge_many<R: AllocGlobal + Threads + Wait + Sync + Abort>(
    rt: &R,
    case: &Case<'_>,
    due: u32,
) -> Result<(), Fail> {
    judged(rt, many(rt, rt.alloc(), case)?, due)
}

#[test]
fn lines_around_three_visits(rt: HostRuntime) -> Result<(), Fail> {
    judge_few(&rt, &ONE_FILTER, 313)?;
    judge_many(&rt, &ONE_FILTER, 160)
}

// None, then 8 × 5 + 28 × 15; and 8 × 35.
#[test]
fn lines_around_four_visits(rt: HostRuntime) -> Result<(), Fail> {
    judge_few(&rt, &TWO_MASKS, 461)?;
    judge_many(&rt, &TWO_MASKS, 280)
}

// None, then 8 × 6 + 28 × 21; as in the other cases of five visits.
#[test]
fn few_lines_around_two_tables(rt: HostRuntime) -> Result<(), Fail> {
    judge_few(&rt, &TWO_TABLES, 637)
}

// 8 × 56.
#[test]
fn three_lines_around_two_tables(rt: HostRuntime) -> Result<(), Fail> {
    judge_many(&rt, &TWO_TABLES, 448)
}

#[test]
fn few_lines_around_two_chains(rt: HostRuntime) -> Result<(), Fail> {
    judge_few(&rt, &TWO_CHAINS, 637)
}

#[test]
fn three_lines_around_two_chains(rt: HostRuntime) -> Result<(), Fail> {
    judge_many(&rt, &TWO_CHAINS, 448)
}

#[test]
fn few_lines_around_a_full_mask(rt: HostRuntime) -> Result<(), Fail> {
    judge_few(&rt, &FULL_MASK, 637)
}

#[test]
fn three_lines_around_a_full_mask(rt: HostRuntime) -> Result<(), Fail> {
    judge_many(&rt, &FULL_MASK, 448)
}

// None, then 8 × 7 + 28 × 28.
#[test]
fn few_lines_around_two_actions(rt: HostRuntime) -> Result<(), Fail> {
    judge_few(&rt, &TWO_ACTIONS, 841)
}

// 8 × 84.
#[test]
fn three_lines_around_two_actions(rt: HostRuntime) -> Result<(), Fail> {
    judge_many(&rt, &TWO_ACTIONS, 672)
}
