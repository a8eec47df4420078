//! What is known of a journal's lines.

use crate::brought::Brought;
use edit_lines::{Line, LinePlace, Origin};
use filter_lists::{Edit, Lists};
use flow_fields::Key;
use slot_pasts::{SerialPasts, SlotPasts};
use state_past::slot_name;
use std::alloc::Global;
use tc_base::{NoMemory, Point};

/// Which lines of a journal brought which filters and actions.
#[derive(Drop)]
pub struct Origins {
    pub(crate) alloc: Global,
    // of each slot the places in `brought` of the filters that were put there
    pub(crate) slots: SlotPasts<usize>,
    // of each action the lines that made or changed it
    pub(crate) actions: SerialPasts<Line>,
    pub(crate) brought: Vec<Brought>,
}

impl Origins {
    ghost use Rattle.std.specs.Prelude.{◌≡◌, ◌≤◌, ◌^◌, List, [], length, IfOk};
    ghost use Rattle.filter_state.specs.Journals.{IsLawful};
    ghost use Rattle.filter_origins.specs.Entries.{Entry, entries_of};
    ghost use Rattle.filter_origins.specs.Origins.{origin_at, maker_at, brought_of};
    ghost use Rattle.filter_origins.specs.Knows.{Knows};

    /// Goes over a lawful journal, each edit of which was read at its place.
    ///
    /// `NoMemory`: memory was refused.
    pub fn of(alloc: Global, journal: &[Edit], places: &[LinePlace]) -> Result<Origins, NoMemory>
        requires places { length places.now ≡ length journal.now }
        requires lawful { IsLawful journal.now }
        requires few { length journal.now ≤ 2 ^ 31 }
        ensures { IfOk result (λ origins. Knows origins (entries_of places.now journal.now)) }
    {
        let mut origins = Origins::none(alloc);
        let mut lists = Lists::new(alloc);
        let mut place = 0;
        while place < journal.len() {
            let LinePlace { control, line } = places[place];
            let edit = place as Point + 1;
            let by = Line {
                edit,
                control,
                line,
            };
            origins.follow(&mut lists, &journal[place], by)?;
            place += 1;
        }
        Ok(origins)
    }

    /// The handle of the filter that a mask and a key find at a point, and the line that brought it. Where no
    /// filter stands any more, the last that did is told.
    pub fn filter(&self, point: Point, mask: u32, key: &Key<14>) -> Option<Origin>
        requires { (entries : List Entry) × Knows self.now entries }
        ensures { (entries : List Entry) → Knows self.now entries
            → result ≡ origin_at entries point mask key.now.words }
    {
        let place = *self.slots.at(&slot_name(mask, key), point)?;
        let brought = self.brought.get(place)?;
        Some(Origin {
            handle: brought.handle,
            by: brought.by,
        })
    }

    /// The line that brought the action of a serial as it is at a point: that made it, or was the last to
    /// change it. Where the action is gone, that line still.
    pub fn action(&self, point: Point, serial: u32) -> Option<Line>
        requires { (entries : List Entry) × Knows self.now entries }
        ensures { (entries : List Entry) → Knows self.now entries → result ≡ maker_at entries point serial }
    {
        self.actions.at(serial, point).copied()
    }

    /// All filters that were brought, in the order of the edits that brought them.
    pub fn brought(&self) -> &[Brought]
        ensures { (entries : List Entry) → Knows self.now entries → result.now ≡ brought_of entries }
    {
        &self.brought
    }
}
