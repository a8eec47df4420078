//! A reader that answers a walk, behind the gate of a run.
use crate::walks::packet_name::PacketName;
use act_kinds::Params;
use flow_fields::Key;
use hook_reader::Walking;
use tc_base::{Gate, Hook, Point};
use visit_room::{ActionName, HeadRoom, Hit, MaskName};
use walk_steps::Visits;

/// A reader inside a walk, and the gate that is asked before each of its visits.
#[derive(Drop)]
pub(crate) struct Gated<'a, G: Gate> {
    pub walking: Walking<'a>,
    pub gates: &'a G,
    pub name: PacketName,
    // How many visits were made.
    pub visit: u32,
}

impl<G: Gate> Visits for Gated<'_, G> {
    ghost use Rattle.std.specs.Prelude.{◌≡◌};
    ghost use Rattle.hook_reader.specs.Known.{KnowsMask, KnowsAction};
    ghost use Rattle.hook_reader.specs.Told.{WalkTold};

    // What the reader tells; and the reference to it is the same one.
    ghost told = { λ old question answer point new.
        WalkTold old.walking.reader.now question answer point new.walking.reader.now
        × (new.walking.store ≡ old.walking.store)
        × (new.walking.reader.ghost_name ≡ old.walking.reader.ghost_name) };

    ghost knows_mask = { λ v table mask. KnowsMask v.walking.reader.now mask };

    ghost knows_action = { λ v action. KnowsAction v.walking.reader.now action };

    fn head(&mut self, hook: Hook, into: &mut HeadRoom) -> Point {
        self.visit = self.visit.saturating_add(1);
        self.gates
            .before_visit(self.name.worker, self.name.packet, self.visit);
        self.walking.head(hook, into)
    }

    fn lookup(
        &mut self,
        table: u32,
        mask: MaskName,
        key: &Key<14>,
        into: &mut Hit,
    ) -> (bool, Point) {
        self.visit = self.visit.saturating_add(1);
        self.gates
            .before_visit(self.name.worker, self.name.packet, self.visit);
        self.walking.lookup(table, mask, key, into)
    }

    fn params(&mut self, action: ActionName) -> (Params, Point) {
        self.visit = self.visit.saturating_add(1);
        self.gates
            .before_visit(self.name.worker, self.name.packet, self.visit);
        self.walking.params(action)
    }
}
