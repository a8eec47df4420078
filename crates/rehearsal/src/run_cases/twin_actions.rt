//! The actions of a plain device.

use crate::run_cases::trouble::Trouble;
use crate::run_cases::twin_lines::{Control, control_in, number_behind};
use std::alloc::Global;

/// An action.
#[derive(Clone, Copy)]
struct Action {
    serial: u32,
    // 0 where no line names it.
    index: u32,
    control: Control,
    binds: u32,
    // Whether it was made by itself, and stays without a filter.
    is_apart: bool,
}

/// The actions that there are, and how many were made.
#[derive(Drop)]
pub(crate) struct Actions {
    alloc: Global,
    items: Vec<Action>,
    made: u32,
}

impl Actions {
    pub(crate) fn new(alloc: Global) -> Actions {
        Actions {
            alloc,
            items: Vec::new(alloc),
            made: 0,
        }
    }

    /// Does what a line says that makes or changes an action that stands by itself. It is always accepted.
    pub(crate) fn give(&mut self, line: &str) -> Result<bool, Trouble> {
        let (verb, rest) = line.split_once(" action ").ok_or(Trouble::NotRead)?;
        let (control, _) = rest.split_once(" index ").ok_or(Trouble::NotRead)?;
        let control = control_in(control).ok_or(Trouble::NotRead)?;
        let index = number_behind(line, " index ").ok_or(Trouble::NotRead)?;
        if verb == "actions add" {
            self.make(control, index)?;
            return Ok(true);
        }
        for own in self.items.as_mut_slice() {
            if own.index == index {
                own.control = control;
            }
        }
        Ok(true)
    }

    // Makes an action, and tells its serial.
    fn make(&mut self, control: Control, index: u32) -> Result<u32, Trouble> {
        self.made = self.made.saturating_add(1);
        self.items.push(Action {
            serial: self.made,
            index,
            control,
            binds: 0,
            is_apart: index > 0,
        })?;
        Ok(self.made)
    }

    /// Binds the actions of a filter's line, and makes those that are new. Tells the serials.
    pub(crate) fn bind(&mut self, line: &str) -> Result<Vec<u32>, Trouble> {
        let mut serials = Vec::new(self.alloc);
        for text in line.split(" action ").skip(1) {
            let serial = match number_behind(text, "gact index ") {
                Some(index) => self.serial_of(index).ok_or(Trouble::NotRead)?,
                None => self.make(control_in(text).ok_or(Trouble::NotRead)?, 0)?,
            };
            self.count(serial, true);
            serials.push(serial)?;
        }
        Ok(serials)
    }

    fn serial_of(&self, index: u32) -> Option<u32> {
        let own = self.items.iter().find(|own| own.index == index)?;
        Some(own.serial)
    }

    fn count(&mut self, serial: u32, is_more: bool) {
        for own in self.items.as_mut_slice() {
            if own.serial == serial && is_more {
                own.binds = own.binds.saturating_add(1);
            } else if own.serial == serial {
                own.binds = own.binds.saturating_sub(1);
            }
        }
    }

    /// Lets go of the actions of a filter. One that nothing holds any more is gone.
    pub(crate) fn unbind(&mut self, serials: &[u32]) {
        for serial in serials {
            self.count(*serial, false);
        }
        self.items.retain(|own| own.is_apart || own.binds > 0);
    }

    /// The control of an action, if it is there.
    pub(crate) fn control_of(&self, serial: u32) -> Option<Control> {
        let own = self.items.iter().find(|own| own.serial == serial)?;
        Some(own.control)
    }
}
