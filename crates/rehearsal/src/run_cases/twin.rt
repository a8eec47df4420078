//! A plain device, kept apart from the program.
//!
//! It has one list of filters and one of actions, and does to them what a line says, by the rules of
//! `docs/DEFINITIONS.md` and no faster than one filter after the other. It shares nothing with the program,
//! not even how a line is read.

use crate::run_cases::trouble::Trouble;
use crate::run_cases::twin_actions::Actions;
use crate::run_cases::twin_lines::{Seat, number_behind, seat_in, table_in};
use std::alloc::Global;

/// A filter.
#[derive(Drop)]
struct Filter {
    seat: Seat,
    /// Of two masks of a table the one with the lower number is looked at first.
    age: u32,
    /// A mask is laid when it comes, and again when a replace moves a filter of it: who was told of a mask
    /// before then finds it as it was.
    laid: u32,
    /// Their serials.
    actions: Vec<u32>,
}

/// A mask of a table, as a walk is told of it.
#[derive(Clone, Copy)]
pub(crate) struct Stop {
    pub(crate) pref: u32,
    pub(crate) age: u32,
    pub(crate) laid: u32,
}

/// The device.
#[derive(Drop)]
pub(crate) struct Plain {
    pub(crate) actions: Actions,
    filters: Vec<Filter>,
    // How many masks came, and how often one was laid.
    ages: u32,
    layings: u32,
}

impl Plain {
    /// The device behind these lines, all of which it accepts.
    pub(crate) fn behind(alloc: Global, base: &[&str], lines: &[&str]) -> Result<Plain, Trouble> {
        let mut plain = Plain {
            actions: Actions::new(alloc),
            filters: Vec::new(alloc),
            ages: 0,
            layings: 0,
        };
        for line in base.iter().chain(lines.iter()) {
            if !plain.accepts(line)? {
                return Err(Trouble::NotRead);
            }
        }
        Ok(plain)
    }

    /// Does what a line says, and says whether it was accepted. Else nothing has changed.
    pub(crate) fn accepts(&mut self, line: &str) -> Result<bool, Trouble> {
        if line.starts_with("add ") {
            self.add(line)
        } else if line.starts_with("replace ") {
            self.replace(line)
        } else if line.starts_with("del ") {
            self.remove(line)
        } else if line.starts_with("actions ") {
            self.actions.give(line)
        } else {
            Ok(line.starts_with("qdisc add "))
        }
    }

    fn add(&mut self, line: &str) -> Result<bool, Trouble> {
        let seat = seat_in(line).ok_or(Trouble::NotRead)?;
        let is_taken = self.filters.iter().any(|own| {
            is_beside(own, seat)
                && (own.seat.handle == seat.handle || own.seat.fields == seat.fields)
        });
        if is_taken {
            return Ok(false);
        }
        let (age, laid) = self.mask_for(seat);
        let actions = self.actions.bind(line)?;
        self.put(Filter {
            seat,
            age,
            laid,
            actions,
        })
    }

    fn put(&mut self, filter: Filter) -> Result<bool, Trouble> {
        self.filters.push(filter)?;
        Ok(true)
    }

    // The age of the filter's mask, and when that was laid.
    fn mask_for(&mut self, seat: Seat) -> (u32, u32) {
        for own in self.filters.iter() {
            if is_beside(own, seat) && own.seat.fields.is_like(seat.fields) {
                return (own.age, own.laid);
            }
        }
        self.ages = self.ages.saturating_add(1);
        self.layings = self.layings.saturating_add(1);
        (self.ages, self.layings)
    }

    // A filter that isn't there is added.
    fn replace(&mut self, line: &str) -> Result<bool, Trouble> {
        let seat = seat_in(line).ok_or(Trouble::NotRead)?;
        let exists = self.filters.iter().any(|own| {
            is_beside(own, seat) && own.seat.handle != seat.handle && own.seat.fields == seat.fields
        });
        if exists {
            return Ok(false);
        }
        let Some(old) = self.take(seat.chain, seat.pref, Some(seat.handle)) else {
            return self.add(line);
        };
        let actions = self.actions.bind(line)?;
        self.actions.unbind(&old.actions);
        let (age, laid) = self.mask_after(&old, seat);
        self.put(Filter {
            seat,
            age,
            laid,
            actions,
        })
    }

    // The mask of a filter that takes the place of an old one, which was taken out.
    fn mask_after(&mut self, old: &Filter, seat: Seat) -> (u32, u32) {
        if old.seat.fields == seat.fields {
            return (old.age, old.laid);
        }
        self.lay_anew(old.seat);
        if old.seat.fields.is_like(seat.fields) {
            return (old.age, self.layings);
        }
        let (age, _) = self.mask_for(seat);
        self.lay_anew(seat);
        (age, self.layings)
    }

    fn lay_anew(&mut self, seat: Seat) {
        self.layings = self.layings.saturating_add(1);
        let laid = self.layings;
        for own in self.filters.as_mut_slice() {
            if is_beside(own, seat) && own.seat.fields.is_like(seat.fields) {
                own.laid = laid;
            }
        }
    }

    // Takes out the filter of a table with that handle, or any.
    fn take(&mut self, chain: u32, pref: u32, handle: Option<u32>) -> Option<Filter> {
        let place = self.filters.iter().position(|own| {
            own.seat.chain == chain
                && own.seat.pref == pref
                && (handle.is_none() || handle == Some(own.seat.handle))
        })?;
        if place >= self.filters.len() {
            return None;
        }
        Some(self.filters.remove(place))
    }

    fn remove(&mut self, line: &str) -> Result<bool, Trouble> {
        let (chain, pref) = table_in(line).ok_or(Trouble::NotRead)?;
        let handle = number_behind(line, " handle ");
        let mut any = false;
        for _ in 0..self.filters.len() {
            if let Some(old) = self.take(chain, pref, handle) {
                self.actions.unbind(&old.actions);
                any = true;
            }
        }
        Ok(any)
    }

    /// The next mask of a chain behind one of that pref and age.
    pub(crate) fn stop_behind(&self, chain: u32, pref: u32, age: u32) -> Option<Stop> {
        let mut next: Option<Stop> = None;
        for own in self.filters.iter() {
            let place = (own.seat.pref, own.age);
            let is_first = match next {
                Some(stop) => place < (stop.pref, stop.age),
                None => true,
            };
            if own.seat.chain == chain && place > (pref, age) && is_first {
                next = Some(Stop {
                    pref: own.seat.pref,
                    age: own.age,
                    laid: own.laid,
                });
            }
        }
        next
    }

    /// Whether a mask stands.
    pub(crate) fn has_mask(&self, laid: u32) -> bool {
        self.filters.iter().any(|own| own.laid == laid)
    }

    /// The actions of the filter that a packet to a host meets in a mask.
    pub(crate) fn met(&self, laid: u32, host: u32) -> Option<&[u32]> {
        let own = self
            .filters
            .iter()
            .find(|own| own.laid == laid && own.seat.fields.take(host))?;
        Some(own.actions.as_slice())
    }

    /// Whether both tell a walk of the same masks.
    pub(crate) fn has_tables_of(&self, other: &Plain) -> bool {
        self.filters.iter().all(|own| other.has_mask(own.laid))
            && other.filters.iter().all(|own| self.has_mask(own.laid))
    }
}

// Whether a filter stands in the table of that seat.
fn is_beside(own: &Filter, seat: Seat) -> bool {
    own.seat.chain == seat.chain && own.seat.pref == seat.pref
}
