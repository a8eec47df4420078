//! What a packet meets while a plain device changes.

use crate::run_cases::trouble::Trouble;
use crate::run_cases::twin::{Plain, Stop};
use crate::run_cases::twin_lines::Control;
use std::alloc::Global;
use tc_base::Point;

/// The devices that there were behind a base: before any line more, and behind each that was accepted.
#[derive(Drop)]
pub(crate) struct Past {
    first: Point,
    states: Vec<Plain>,
    /// The point behind each line, also one that was refused.
    points: Vec<Point>,
}

impl Past {
    /// The devices behind a base, all of which is accepted, and behind lines that may be refused.
    pub(crate) fn new(alloc: Global, base: &[&str], lines: &[&str]) -> Result<Past, Trouble> {
        let mut point: Point = 0;
        for _ in base {
            point = point.saturating_add(1);
        }
        let states = vec![in alloc; Plain::behind(alloc, base, &[])?]?;
        let mut past = Past {
            first: point,
            states,
            points: Vec::new(alloc),
        };
        let followed = past.follow(alloc, base, lines);
        match followed {
            Ok(()) => Ok(past),
            Err(trouble) => {
                drop(past);
                Err(trouble)
            }
        }
    }

    // Does lines behind a base, of which some may be refused.
    fn follow(&mut self, alloc: Global, base: &[&str], lines: &[&str]) -> Result<(), Trouble> {
        let mut accepted = Vec::new(alloc);
        let mut point = self.first;
        for line in lines {
            if self.takes(Plain::behind(alloc, base, &accepted)?, line)? {
                accepted.push(*line)?;
                point = point.saturating_add(1);
            }
            self.points.push(point)?;
        }
        Ok(())
    }

    // Whether a device accepts a line. Then it is the next one.
    fn takes(&mut self, mut next: Plain, line: &str) -> Result<bool, Trouble> {
        let accepts = next.accepts(line);
        if let Ok(true) = accepts {
            self.states.push(next)?;
        } else {
            drop(next);
        }
        accepts
    }

    /// The point behind the first lines, so many of them.
    pub(crate) fn point_behind(&self, lines: usize) -> Point {
        match lines.checked_sub(1) {
            Some(last) => self.points.get(last).copied().unwrap_or(Point::MAX),
            None => self.first,
        }
    }

    /// The device at a point.
    fn at(&self, point: Point) -> Option<&Plain> {
        self.states.get(point.checked_sub(self.first)? as usize)
    }

    /// Whether a line, counted from 1, changes which tables and masks a walk is told of.
    pub(crate) fn changes_tables(&self, line: usize) -> bool {
        let before = self.at(self.point_behind(line.saturating_sub(1)));
        match (before, self.at(self.point_behind(line))) {
            (Some(before), Some(after)) => !before.has_tables_of(after),
            _ => false,
        }
    }
}

/// By which device a visit is answered.
#[derive(Clone, Copy)]
pub(crate) enum Sight<'a> {
    /// By that of its point.
    At(&'a [Point]),
    /// By the last one, up to its point, in which that stands which is visited.
    UpTo(&'a [Point]),
}

/// What a packet met.
#[derive(Drop)]
pub(crate) struct Met {
    pub(crate) passes: bool,
    /// The serials of the actions that ran.
    pub(crate) executed: Vec<u32>,
    pub(crate) visits: usize,
}

// What follows a list of actions, or a chain.
#[derive(Clone, Copy)]
enum Then {
    Ends { passes: bool },
    NextTable,
    Chain(u32),
}

// A walk on its way.
#[derive(Drop)]
struct Walker<'a> {
    past: &'a Past,
    sight: Sight<'a>,
    host: u32,
    // The point of its head.
    head: Point,
    met: Met,
}

/// The walk of a packet to a host of 10.0.0.0/24.
pub(crate) fn walk(
    alloc: Global,
    past: &Past,
    sight: Sight<'_>,
    host: u32,
) -> Result<Met, Trouble> {
    let mut walker = Walker {
        past,
        sight,
        host,
        head: 0,
        met: Met {
            passes: false,
            executed: Vec::new(alloc),
            visits: 0,
        },
    };
    match walker.run() {
        Ok(()) => Ok(walker.into_met()),
        Err(trouble) => {
            drop(walker);
            Err(trouble)
        }
    }
}

impl<'a> Walker<'a> {
    fn into_met(self) -> Met {
        let Walker { met, .. } = self;
        met
    }

    // Makes a visit, and tells its points: the least that may answer it, and the last.
    fn visit(&mut self) -> Result<(Point, Point), Trouble> {
        let visit = self.met.visits;
        self.met.visits = visit.saturating_add(1);
        match self.sight {
            Sight::At(points) => match points.get(visit) {
                Some(point) => Ok((*point, *point)),
                None => Err(Trouble::NoWalk),
            },
            Sight::UpTo(points) => match points.get(visit) {
                Some(point) => Ok((self.head, *point)),
                None => Err(Trouble::NoWalk),
            },
        }
    }

    // The head, and then chains: chain 0, and 16 restarts at most.
    fn run(&mut self) -> Result<(), Trouble> {
        let (_, point) = self.visit()?;
        self.head = point;
        let head = self.past.at(point).ok_or(Trouble::NoWalk)?;
        let mut chain = 0;
        for _ in 0..17 {
            match self.walk_chain(head, chain)? {
                Then::Ends { passes } => {
                    self.met.passes = passes;
                    return Ok(());
                }
                Then::Chain(next) => chain = next,
                Then::NextTable => return Err(Trouble::NoWalk),
            }
        }
        Ok(())
    }

    // The masks of a chain, as the head told them.
    fn walk_chain(&mut self, head: &Plain, chain: u32) -> Result<Then, Trouble> {
        let (mut pref, mut age) = (0, 0);
        for _ in 0..100 {
            let Some(stop) = head.stop_behind(chain, pref, age) else {
                return Ok(Then::Ends { passes: true });
            };
            (pref, age) = (stop.pref, stop.age);
            if let Some(list) = self.look_up(stop)? {
                match self.run_list(list)? {
                    Then::NextTable => age = u32::MAX,
                    then => return Ok(then),
                }
            }
        }
        Err(Trouble::NoWalk)
    }

    // The actions of the filter that is met in a mask, if one is.
    fn look_up(&mut self, stop: Stop) -> Result<Option<&'a [u32]>, Trouble> {
        let (least, last) = self.visit()?;
        let past: &'a Past = self.past;
        for point in (least..=last).rev() {
            let state = past.at(point).ok_or(Trouble::NoWalk)?;
            if state.has_mask(stop.laid) {
                return Ok(state.met(stop.laid, self.host));
            }
        }
        Err(Trouble::NoWalk)
    }

    // The actions of a list, from the first on. An end behind the last one passes.
    fn run_list(&mut self, list: &[u32]) -> Result<Then, Trouble> {
        for serial in list {
            let control = self.execute(*serial)?;
            match control {
                Control::Pipe => {}
                Control::Ok => return Ok(Then::Ends { passes: true }),
                Control::Drop => return Ok(Then::Ends { passes: false }),
                Control::Continue => return Ok(Then::NextTable),
                Control::Reclassify => return Ok(Then::Chain(0)),
                Control::Goto(chain) => return Ok(Then::Chain(chain)),
            }
        }
        Ok(Then::Ends { passes: true })
    }

    fn execute(&mut self, serial: u32) -> Result<Control, Trouble> {
        let (least, last) = self.visit()?;
        self.met.executed.push(serial)?;
        for point in (least..=last).rev() {
            let state = self.past.at(point).ok_or(Trouble::NoWalk)?;
            if let Some(control) = state.actions.control_of(serial) {
                return Ok(control);
            }
        }
        Err(Trouble::NoWalk)
    }
}
