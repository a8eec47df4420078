//! The places of entries in the list.
ghost use Rattle.std.specs.Prelude.{◌≡◌, ◌<◌, IfSome};
ghost use Rattle.std.specs.List.{AllPairs};
ghost use Rattle.std.specs.Option.{IfNone};
ghost use Rattle.act_registry.specs.Entries.{AreRising, AreApart, has_serial, is_named};
ghost use Rattle.act_registry.specs.Names.{ComesBefore, AreNamesOf};
ghost use Rattle.act_registry.specs.OnePlace.{OnlyAt, NoPlace};

use crate::entry::{Entry, Kinded};
use crate::names::{Name, serial_of};

/// The place of the entry with that serial. Serials are given from 1 in order: until an action goes, each
/// stands one place before its number, so that place is looked at first.
pub(crate) fn place_of_serial<P>(entries: &[Entry<P>], serial: u32) -> Option<usize>
    requires { AreRising entries.now }
    ensures here { IfSome result (λ at. OnlyAt (has_serial serial) entries.now at) }
    ensures none { IfNone result (NoPlace (has_serial serial) entries.now) }
{
    let likely = (serial as usize).saturating_sub(1);
    match entries.get(likely) {
        Some(entry) if entry.serial == serial => Some(likely),
        _ => place_by_halving(entries, serial),
    }
}

fn place_by_halving<P>(entries: &[Entry<P>], serial: u32) -> Option<usize>
    requires { AreRising entries.now }
    ensures here { IfSome result (λ at. OnlyAt (has_serial serial) entries.now at) }
    ensures none { IfNone result (NoPlace (has_serial serial) entries.now) }
{
    let at = entries.partition_point(|entry| entry.serial < serial);
    match entries.get(at) {
        Some(entry) if entry.serial == serial => Some(at),
        _ => None,
    }
}

/// The place of the entry with that kind and index.
pub(crate) fn place_of<P: Kinded>(
    entries: &[Entry<P>],
    names: &[Name],
    kind: u32,
    index: u32,
) -> Option<usize>
    requires rising { AreRising entries.now }
    requires apart { AreApart P.kind_of entries.now }
    requires sorted { AllPairs ComesBefore names.now }
    requires same { AreNamesOf P.kind_of entries.now names.now }
    ensures here { IfSome result (λ at. OnlyAt (is_named P.kind_of kind index) entries.now at) }
    ensures none { IfNone result (NoPlace (is_named P.kind_of kind index) entries.now) }
{
    let serial = serial_of(names, kind, index)?;
    place_of_serial(entries, serial)
}
