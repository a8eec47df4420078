//! A reader of which all answers are written down.
ghost use Rattle.std.specs.Prelude.{◌≡◌, ◌≤◌};
ghost use Rattle.pin_store.specs.Calls.{pin_of, IsInside, IsOutside, IsSeatOf};
ghost use Rattle.desk_parts.specs.Desk.{hook_shape};

use crate::log::{Log, Told};
use act_kinds::Params;
use flow_fields::Key;
use hook_reader::{HookReader, Walking};
use hook_store_law::HookStore;
use tc_base::{Hook, Point};
use visit_room::{ActionName, HeadRoom, Hit, MaskName};
use walk_steps::Visits;

/// A reader outside.
#[derive(Drop)]
pub(crate) struct Recorder<'a> {
    pub(crate) store: &'a HookStore,
    pub(crate) reader: HookReader,
    pub(crate) log: Log,
    // At least its pin.
    pub(crate) pins: u64,
    pub(crate) ghost seat: { IsSeatOf store.now reader.place },
    pub(crate) ghost shape: { store.now.shape ≡ hook_shape },
    pub(crate) ghost outside: { IsOutside reader.place },
    pub(crate) ghost pinned: { pin_of reader.place ≤ pins },
}

/// A reader inside, which answers walks.
#[derive(Drop)]
pub(crate) struct Recording<'a> {
    pub(crate) store: &'a HookStore,
    pub(crate) reader: HookReader,
    pub(crate) log: Log,
    pub(crate) pins: u64,
    pub(crate) ghost seat: { IsSeatOf store.now reader.place },
    pub(crate) ghost shape: { store.now.shape ≡ hook_shape },
    pub(crate) ghost inside: { IsInside reader.place },
    pub(crate) ghost pinned: { pin_of reader.place ≤ pins },
}

// More than twice as often as a test goes inside.
const FEW_PINS: u64 = 1 << 62;

impl<'a> Recorder<'a> {
    /// What was written down.
    pub(crate) fn into_log(self) -> Log {
        let Recorder { reader, log, .. } = self;
        drop(reader);
        log
    }

    /// Goes inside, or not where the reader has been there too often.
    pub(crate) fn enter(self) -> Option<Recording<'a>> {
        if self.pins >= FEW_PINS {
            drop(self);
            return None;
        }
        let Recorder {
            store,
            mut reader,
            log,
            pins,
        } = self;
        reader.enter_walk(store);
        Some(Recording {
            store,
            reader,
            log,
            pins: pins + 1,
        })
    }
}

impl<'a> Recording<'a> {
    /// Goes outside.
    pub(crate) fn leave(self) -> Recorder<'a> {
        let Recording {
            store,
            mut reader,
            log,
            pins,
        } = self;
        reader.leave_walk(store);
        Recorder {
            store,
            reader,
            log,
            pins: pins.saturating_add(1),
        }
    }
}

impl Visits for Recording<'_> {
    ghost use Rattle.std.specs.Prelude.{ℕ};
    ghost use Rattle.walk_rules.specs.Questions.{Question, Answer};
    ghost use Rattle.hook_reader.specs.Known.{KnowsMask, KnowsAction};

    // What is written down is looked at as the test runs.
    ghost told = { λ old question answer point new. Unit {0} };

    ghost knows_mask = { λ v table mask. KnowsMask v.reader mask };

    ghost knows_action = { λ v action. KnowsAction v.reader action };

    fn head(&mut self, hook: Hook, into: &mut HeadRoom) -> Point {
        let mut walking = Walking {
            store: self.store,
            reader: &mut self.reader,
        };
        let point = walking.head(hook, into);
        let told = Told::head(self.log.alloc, hook, into.heads());
        self.log.write(point, told);
        point
    }

    fn lookup(
        &mut self,
        table: u32,
        mask: MaskName,
        key: &Key<14>,
        into: &mut Hit,
    ) -> (bool, Point) {
        let mut walking = Walking {
            store: self.store,
            reader: &mut self.reader,
        };
        let (found, point) = walking.lookup(table, mask, key, into);
        let told = Told::filter(self.log.alloc, mask.serial, key, found, into);
        self.log.write(point, told);
        (found, point)
    }

    fn params(&mut self, action: ActionName) -> (Params, Point) {
        let mut walking = Walking {
            store: self.store,
            reader: &mut self.reader,
        };
        let (params, point) = walking.params(action);
        let told = Told::Params {
            serial: action.serial,
            params,
        };
        self.log.write(point, Ok(told));
        (params, point)
    }
}
