//! Who answers a walk from the store.
ghost use Rattle.store_history.specs.declared.places.TheConstants.{ROOTS};
ghost use Rattle.std.specs.Prelude.{◌≡◌, ◌≤◌};
ghost use Rattle.pin_store.specs.Calls.{IsInside, IsSeatOf};
ghost use Rattle.block_chain.specs.Ways.{block_words};

use crate::reader::HookReader;
use act_kinds::Params;
use flow_fields::Key;
use hook_store_law::HookStore;
use tc_base::{Hook, Point};
use visit_room::{ActionName, HeadRoom, Hit, MaskName};
use walk_steps::Visits;

/// A store, and a reader of it that is inside a walk.
#[derive(Drop)]
pub struct Walking<'a> {
    pub store: &'a HookStore,
    pub reader: &'a mut HookReader,
    pub ghost seat: { IsSeatOf store.now reader.now.place },
    pub ghost shape: { (store.now.shape.words ≡ block_words) × (ROOTS ≤ store.now.shape.roots) },
    pub ghost inside: { IsInside reader.now.place },
}

impl Visits for Walking<'_> {
    ghost use Rattle.std.specs.Prelude.{◌≡◌};
    ghost use Rattle.hook_reader.specs.Known.{KnowsMask, KnowsAction};
    ghost use Rattle.hook_reader.specs.Told.{WalkTold};

    // And the reference to the reader is the same one.
    ghost told = { λ old question answer point new.
        WalkTold old.reader.now question answer point new.reader.now
        × (new.store ≡ old.store) × (new.reader.ghost_name ≡ old.reader.ghost_name) };

    ghost knows_mask = { λ v table mask. KnowsMask v.reader.now mask };

    ghost knows_action = { λ v action. KnowsAction v.reader.now action };

    fn head(&mut self, hook: Hook, into: &mut HeadRoom) -> Point {
        self.reader.visit_head(self.store, hook, into)
    }

    fn lookup(
        &mut self,
        _table: u32,
        mask: MaskName,
        key: &Key<14>,
        into: &mut Hit,
    ) -> (bool, Point) {
        self.reader.visit_mask(self.store, mask, key, into)
    }

    fn params(&mut self, action: ActionName) -> (Params, Point) {
        self.reader.visit_action(self.store, action)
    }
}
