//! A table of a hook, as it stood.
ghost use Rattle.visit_room.specs.declared.limits.TheConstants.{HEAD_MASKS};
ghost use Rattle.std.specs.Prelude.{◌≡◌, ◌≤◌, length, map, Some, []};
ghost use Rattle.std.specs.Bool.{Decides};
ghost use Rattle.filter_tables.specs.SeenMask.{plain_mask};
ghost use Rattle.visit_room.specs.Heads.{last_masks};
ghost use Rattle.classify_walk.specs.Heads.{with_masks_behind};
ghost use Rattle.walk_steps.specs.Told.{heads_told};
ghost use Rattle.head_laws.specs.Heads.{serials_of};

use arrayvec::ArrayVec;
use filter_lists::{FilterTable, MaskList};
use std::marker::Model;
use tc_base::Proto;
use visit_room::{HEAD_MASKS, HeadRoom, MaskName};

/// A table with the serials of its masks: all that a walk is told of it.
#[derive(Drop)]
pub struct KeptTable {
    serial: u32,
    chain: u32,
    pref: u32,
    protocol: Proto,
    masks: ArrayVec<u32, HEAD_MASKS>,
}

impl Model for KeptTable {
    ghost use Rattle.visit_room.specs.declared.limits.TheConstants.{HEAD_MASKS};
    ghost use Rattle.std.specs.Prelude.{◌≤◌, length};
    ghost use Rattle.walk_rules.specs.Questions.{Head};

    ghost Value = { Head };

    ghost view = { λ t. record {
      serial = t.serial;
      chain = t.chain;
      pref = t.pref;
      protocol = t.protocol;
      masks = t.masks.items;
    } };

    ghost invariant = { λ t. length t.masks.items ≤ HEAD_MASKS };
}

impl KeptTable {
    ghost use Rattle.visit_room.specs.declared.limits.TheConstants.{HEAD_MASKS, HEAD_TABLES};
    ghost use Rattle.std.specs.Prelude.{◌≡◌, ◌<◌, ◌≤◌, ◌++◌, ◌∷◌, [], length};
    ghost use Rattle.std.specs.Bool.{Decides};
    ghost use Rattle.filter_tables.specs.Seen.{plain_table};
    ghost use Rattle.walk_steps.specs.Told.{heads_told};
    ghost use Rattle.head_laws.specs.Heads.{head_of};

    /// The table as it stands.
    pub(crate) fn of(table: &FilterTable) -> KeptTable
        requires { length (plain_table table.now).masks ≤ HEAD_MASKS }
        ensures { result ≡ head_of (plain_table table.now) }
    {
        KeptTable {
            serial: table.serial,
            chain: table.chain,
            pref: table.pref,
            protocol: table.protocol,
            masks: mask_serials(table.masks.as_slice()),
        }
    }

    /// Whether a table stands so.
    pub(crate) fn is(&self, table: &FilterTable) -> bool
        ensures { Decides result (self.now ≡ head_of (plain_table table.now)) }
    {
        self.serial == table.serial
            && self.chain == table.chain
            && self.pref == table.pref
            && self.protocol == table.protocol
            && are_serials(self.masks.as_slice(), table.masks.as_slice())
    }

    /// Tells the table, behind those that were told.
    pub(crate) fn tell(&self, into: &mut HeadRoom)
        requires { length into.old.tables < HEAD_TABLES }
        ensures { heads_told into.new.tables ≡ heads_told into.old.tables ++ (self.now ∷ []) }
    {
        into.push(self.serial, self.chain, self.pref, self.protocol);
        tell_masks(self.masks.as_slice(), into);
    }
}

// The serials of some masks.
fn mask_serials(masks: &[MaskList]) -> ArrayVec<u32, HEAD_MASKS>
    requires { length masks.now ≤ HEAD_MASKS }
    ensures { result.items ≡ serials_of (map plain_mask masks.now) }
{
    let mut serials = ArrayVec::new();
    for mask in masks {
        serials.push(mask.serial());
    }
    serials
}

// Whether these are their serials.
fn are_serials(serials: &[u32], masks: &[MaskList]) -> bool
    ensures { Decides result (serials.now ≡ serials_of (map plain_mask masks.now)) }
{
    if serials.len() != masks.len() {
        return false;
    }
    for (place, mask) in masks.iter().enumerate() {
        if !is_serial(serials[place], mask) {
            return false;
        }
    }
    true
}

// Whether this is the mask's.
fn is_serial(serial: u32, mask: &MaskList) -> bool
    ensures { Decides result (serial ≡ (plain_mask mask.now).serial) }
{
    serial == mask.serial()
}

// Tells the masks of the table that was told last. They stand in no slots of a store.
fn tell_masks(serials: &[u32], into: &mut HeadRoom)
    requires few { length serials.now ≤ HEAD_MASKS }
    requires bare { last_masks into.old.tables ≡ Some [] }
    ensures { heads_told into.new.tables ≡ with_masks_behind serials.now (heads_told into.old.tables) }
{
    for serial in serials {
        into.push_mask(MaskName {
            serial: *serial,
            slot: 0,
        });
    }
}
