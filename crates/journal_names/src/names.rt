//! Who knows the names of a journal's states.

use batch_run::MadeAction;
use edit_lines::{Line, LinePlace, Origin};
use filter_lists::Edit;
use filter_origins::{Origins, StatePast};
use flow_fields::Key;
use std::marker::Model;
use tc_base::Point;
use trace_lines::Naming;

/// The states of accepted edits, with where each edit was read.
#[derive(Drop)]
pub struct JournalNames<'a> {
    // of which edits all is: said, and never read
    _places: &'a [LinePlace],
    _journal: &'a [Edit],
    past: &'a StatePast,
    origins: &'a Origins,
    made: &'a [MadeAction],
}

impl<'a> Model for JournalNames<'a> {
    ghost use Rattle.std.specs.Prelude.{List};
    ghost use Rattle.filter_origins.specs.Entries.{Entry, entries_of};
    ghost use Rattle.journal_names.specs.Known.{AreKnown};

    ghost Value = { List Entry };

    ghost view = { λ n. entries_of n._places.now n._journal.now };

    ghost invariant = { λ n. AreKnown (entries_of n._places.now n._journal.now) n.past.now n.origins.now
        n.made.now };
}

impl<'a> JournalNames<'a> {
    ghost use Rattle.std.specs.Prelude.{◌≡◌};
    ghost use Rattle.filter_origins.specs.Entries.{entries_of};
    ghost use Rattle.journal_names.specs.Known.{AreKnown};

    /// What is known by the past of these edits, by their origins, and by the names of the actions that they
    /// made, of which that with serial 1 is the first.
    pub fn new(
        places: &'a [LinePlace],
        journal: &'a [Edit],
        past: &'a StatePast,
        origins: &'a Origins,
        made: &'a [MadeAction],
    ) -> JournalNames<'a>
        requires { AreKnown (entries_of places.now journal.now) past.now origins.now made.now }
        ensures { result ≡ entries_of places.now journal.now }
    {
        JournalNames {
            _places: places,
            _journal: journal,
            past,
            origins,
            made,
        }
    }
}

impl Naming for JournalNames<'_> {
    ghost use Rattle.journal_names.specs.Known.{names_of};

    ghost names = { names_of };

    fn mask(&self, point: Point, mask: u32) -> Option<&Key<14>> {
        self.past.mask(point, mask)
    }

    fn filter(&self, point: Point, mask: u32, key: &Key<14>) -> Option<Origin> {
        self.origins.filter(point, mask, key)
    }

    fn action(&self, point: Point, serial: u32) -> Option<Line> {
        self.origins.action(point, serial)
    }

    fn index(&self, serial: u32) -> u32 {
        match self.made.get(serial.saturating_sub(1) as usize) {
            Some(action) => action.index,
            None => 0,
        }
    }
}
