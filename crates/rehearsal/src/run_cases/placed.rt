//! A job whose lines come at given places of walks, judged by a plain twin.

use crate::run_cases::jobs::{capture_to, filled, no_files};
use crate::run_cases::random::are_counted;
use crate::run_cases::running::{Ran, run_held};
use crate::run_cases::schedule::{Schedule, Turn, Watch};
use crate::run_cases::trouble::Trouble;
use crate::run_cases::twin_lines::whole_batch;
use crate::run_cases::twin_walk::{Met, Past, Sight, walk};
use std::alloc::Global;
use std::sync::Wait;
use std::thread::Threads;
use tc_base::{MemShelf, NoMemory, Point};
use tool_run::{EventKind, OutcomeView, RoundRecord};
use walk_rules::Verdict;

/// A job of two rounds. In the first one a base is applied. In the second one control 1 applies lines,
/// while as many workers as hosts walk a packet to each host, and then to each once more. The turns say in
/// which order the lines and the first packets' visits come.
#[derive(Clone, Copy)]
pub(crate) struct Placed<'a> {
    pub(crate) base: &'a [&'a str],
    pub(crate) lines: &'a [&'a str],
    pub(crate) hosts: &'a [u8],
    pub(crate) turns: &'a [Turn],
}

impl Placed<'_> {
    fn fill(&self, alloc: Global, shelf: &mut MemShelf, job: &str) -> Result<(), NoMemory> {
        let mut hosts = self.hosts.to_vec(alloc)?;
        hosts.extend_from_slice(self.hosts)?;
        shelf.insert("job", job.as_bytes())?;
        shelf.insert("base", whole_batch(alloc, self.base)?.as_bytes())?;
        shelf.insert("lines", whole_batch(alloc, self.lines)?.as_bytes())?;
        shelf.insert("in", &capture_to(alloc, &hosts)?)
    }

    // The files of the job.
    fn files(&self, alloc: Global) -> Result<MemShelf, Trouble> {
        let job = format!(in alloc;
            "clsact job 1\nworkers {}\ncontrols 2\nround\nbatch 2 base\nround\n\
            batch 1 lines force\ncapture ingress in out\nend\n",
            self.hosts.len()
        )?;
        let mut shelf = no_files(alloc);
        let all = self.fill(alloc, &mut shelf, &job);
        Ok(filled(shelf, all)?)
    }

    /// Runs the job, and judges what is reported.
    pub(crate) fn judge<R: Threads + Wait + Sync>(
        &self,
        rt: &R,
        alloc: Global,
    ) -> Result<(), Trouble> {
        let schedule = Schedule::new(alloc, self.hosts.len(), self.turns)?;
        let mut watch = Watch {
            schedule: &schedule,
            line: 0,
            turns: 0,
        };
        let mut shelf = self.files(alloc)?;
        let ran = run_held(rt, alloc, &mut shelf, &schedule, &mut watch);
        drop(shelf);
        let ran = ran?;
        let judged = self.judge_ran(alloc, &schedule, &ran);
        drop(ran);
        judged
    }

    fn judge_ran(&self, alloc: Global, schedule: &Schedule<'_>, ran: &Ran) -> Result<(), Trouble> {
        if !schedule.is_done() {
            return Err(Trouble::Late);
        }
        let past = Past::new(alloc, self.base, self.lines)?;
        let judged = self.judge_run(alloc, schedule, &past, ran);
        drop(past);
        judged
    }

    fn judge_run<'a>(
        &self,
        alloc: Global,
        schedule: &'a Schedule<'_>,
        past: &'a Past,
        ran: &Ran,
    ) -> Result<(), Trouble> {
        if !ran.is_lawful || !are_counted(&ran.run) {
            return Err(Trouble::Unlawful);
        }
        let Some(round) = ran.run.rounds.as_slice().get(1) else {
            return Err(Trouble::OtherLines);
        };
        if !are_met(past, round, self.lines.len()) {
            return Err(Trouble::OtherLines);
        }
        let hosts = self.hosts.iter().chain(self.hosts.iter());
        for (place, host) in hosts.enumerate() {
            let packet = Packet {
                alloc,
                schedule,
                past,
                number: place.saturating_add(1),
                host: u32::from(*host),
            };
            packet.judge(self, round)?;
        }
        Ok(())
    }

    // How many lines have their turn before a visit of the first packet.
    fn due_before(&self, visit: usize) -> usize {
        self.turns
            .iter()
            .take_while(|turn| **turn != Turn::Visit(1, visit))
            .filter(|turn| matches!(turn, Turn::Line(_)))
            .count()
    }

    // The line that is held, if it comes before the only walk is over, or else one more than there are. The
    // tables of a hook have two places. The first line that changes the tables leaves one of them, which the
    // walk may still read, so there is none for the second.
    fn held_line(&self, past: &Past) -> usize {
        let mut changes = 0u32;
        for place in 0..self.lines.len() {
            let line = place.saturating_add(1);
            if past.changes_tables(line) {
                changes = changes.saturating_add(1);
                if changes == 2 {
                    return line;
                }
            }
        }
        self.lines.len().saturating_add(1)
    }
}

// Whether each of so many lines was met once, and was accepted where the twin accepts it.
fn are_met(past: &Past, round: &RoundRecord, lines: usize) -> bool {
    let events = round.events.as_slice();
    events.len() == lines
        && events.iter().enumerate().all(|(place, event)| {
            let line = place.saturating_add(1);
            let is_accepted = matches!(event.kind, EventKind::Accepted(_));
            event.control == 1
                && event.line == line as u64
                && is_accepted == (past.point_behind(place) != past.point_behind(line))
        })
}

// A packet that is judged.
#[derive(Drop)]
struct Packet<'a, 'b> {
    alloc: Global,
    schedule: &'a Schedule<'b>,
    past: &'a Past,
    number: usize,
    host: u32,
}

impl Packet<'_, '_> {
    fn judge(&self, placed: &Placed<'_>, round: &RoundRecord) -> Result<(), Trouble> {
        let place = self.number.saturating_sub(1);
        if place >= round.outcomes.len() {
            return Err(Trouble::OtherWalk);
        }
        let outcome = round.outcomes.at(place);
        let met = walk(self.alloc, self.past, Sight::At(outcome.points), self.host)?;
        if !is_met(&met, &outcome) {
            return Err(Trouble::OtherWalk);
        }
        self.judge_points(outcome.points)?;
        if placed.hosts.len() == 1 && self.number == 1 {
            self.judge_sight(placed, &outcome)?;
        }
        Ok(())
    }

    // The points behind the lines that come before each visit of a walk alone, but for a line that it holds
    // and those behind that. The gate has to have met as many.
    fn seen_points(&self, placed: &Placed<'_>, visits: usize) -> Result<Vec<Point>, Trouble> {
        let track = self.schedule.track(1).ok_or(Trouble::OtherHolds)?;
        let held = placed.held_line(self.past);
        let mut points = Vec::new(self.alloc);
        for place in 0..visits {
            let visit = place.saturating_add(1);
            let seen = placed.due_before(visit).min(held.saturating_sub(1));
            let (met, _) = track.noted(visit).ok_or(Trouble::OtherHolds)?;
            if met != seen {
                return Err(Trouble::OtherHolds);
            }
            points.push(self.past.point_behind(seen))?;
        }
        Ok(points)
    }

    // A walk alone sees all lines up to those points. Without lines it has the visits that have a turn.
    fn judge_sight(&self, placed: &Placed<'_>, outcome: &OutcomeView<'_>) -> Result<(), Trouble> {
        let visits = outcome.points.len();
        if placed.lines.is_empty() && placed.turns.len() != visits {
            return Err(Trouble::OtherWalk);
        }
        let points = self.seen_points(placed, visits)?;
        match walk(self.alloc, self.past, Sight::UpTo(&points), self.host) {
            Ok(met) if is_met(&met, outcome) => Ok(()),
            Err(Trouble::NoMemory) => Err(Trouble::NoMemory),
            _ => Err(Trouble::Stale),
        }
    }

    // No visit knows of a line that was begun behind it.
    fn judge_points(&self, points: &[Point]) -> Result<(), Trouble> {
        let Some(track) = self.schedule.track(self.number) else {
            return Ok(());
        };
        for (place, point) in points.iter().enumerate() {
            let (_, begun) = track
                .noted(place.saturating_add(1))
                .ok_or(Trouble::TooEarly)?;
            if *point > self.past.point_behind(begun) {
                return Err(Trouble::TooEarly);
            }
        }
        Ok(())
    }
}

// Whether an outcome is what the twin met.
fn is_met(met: &Met, outcome: &OutcomeView<'_>) -> bool {
    let executed = outcome.executed;
    met.passes == (outcome.verdict == Verdict::Pass)
        && met.visits == outcome.points.len()
        && met.executed.len() == executed.len()
        && met
            .executed
            .iter()
            .zip(executed.iter())
            .all(|(serial, ran)| *ran == (*serial, 42))
}
