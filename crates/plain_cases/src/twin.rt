//! A packet's walk, plain and slow.
ghost use Rattle.std.specs.Prelude.{◌<◌};

use crate::plain_frame::PlainFrame;
use act_kinds::Control;
use filter_index::Filter;
use filter_lists::{FilterTable, Lists, MaskList};
use flow_dissect::key_of;
use flow_fields::{Key, get, row};
use std::alloc::{AllocError, Global};
use tc_base::{Hook, Proto};

/// What a packet met.
#[derive(Drop)]
pub(crate) struct Met {
    pub(crate) dropped: bool,
    pub(crate) frame: PlainFrame,
    /// The serial of each action that ran, with the frame's length before it.
    pub(crate) executed: Vec<(u32, u32)>,
    // How many visits it may still make.
    left: u32,
}

// What follows a list, or a table without a filter for the frame.
#[derive(Clone, Copy)]
enum Then {
    Pass,
    Drop,
    NextTable,
    Chain(u32),
}

/// The walk of a frame through a hook of the lists. The head of the hook is its first visit.
pub(crate) fn walk(
    alloc: Global,
    lists: &Lists,
    hook: Hook,
    bytes: &[u8],
) -> Result<Met, AllocError> {
    let mut met = Met {
        dropped: false,
        frame: PlainFrame::new(alloc, bytes)?,
        executed: Vec::new(alloc),
        left: 65_535,
    };
    met.dropped = walk_chains(&mut met, lists, hook)?;
    Ok(met)
}

// Whether the packet is dropped: chain 0, and 16 restarts at most.
fn walk_chains(met: &mut Met, lists: &Lists, hook: Hook) -> Result<bool, AllocError> {
    let mut chain = 0;
    for _ in 0..17 {
        match walk_chain(met, lists, lists.tables(hook), chain)? {
            Then::Chain(next) => chain = next,
            Then::Drop => return Ok(true),
            _ => return Ok(false),
        }
    }
    Ok(true)
}

// The tables of a chain, by rising pref.
fn walk_chain(
    met: &mut Met,
    lists: &Lists,
    tables: &[FilterTable],
    chain: u32,
) -> Result<Then, AllocError> {
    let mut pref = 0;
    for _ in tables {
        pref = pref_after(tables, chain, pref);
        match walk_table_at(met, lists, tables, chain, pref)? {
            Then::NextTable => {}
            then => return Ok(then),
        }
    }
    Ok(Then::Pass)
}

// The least pref above that one among the tables of a chain, or `u32::MAX` where none is left.
fn pref_after(tables: &[FilterTable], chain: u32, pref: u32) -> u32 {
    let mut least = u32::MAX;
    for table in tables {
        if table.chain == chain && table.pref > pref && table.pref < least {
            least = table.pref;
        }
    }
    least
}

fn walk_table_at(
    met: &mut Met,
    lists: &Lists,
    tables: &[FilterTable],
    chain: u32,
    pref: u32,
) -> Result<Then, AllocError> {
    for table in tables {
        if table.chain == chain && table.pref == pref && takes(table.protocol, &met.frame) {
            return walk_table(met, lists, table.masks.as_slice());
        }
    }
    Ok(Then::NextTable)
}

fn takes(protocol: Proto, frame: &PlainFrame) -> bool {
    match protocol {
        Proto::All => true,
        Proto::Ether(taken) => taken == frame.ether_type(),
    }
}

// Of the filters that have the frame's fields, the one of the oldest mask decides.
fn walk_table(met: &mut Met, lists: &Lists, masks: &[MaskList]) -> Result<Then, AllocError> {
    let key = key_of(&met.frame.bytes);
    let oldest = oldest_with(masks, &key);
    if !look_at(met, masks, oldest) {
        return Ok(Then::Drop);
    }
    for mask in masks {
        if mask.serial() == oldest {
            if let Some(filter) = filter_for(mask, &key) {
                return run_list(met, lists, filter.actions.as_slice());
            }
        }
    }
    Ok(Then::NextTable)
}

// The least serial of a mask with a filter for the frame, or `u32::MAX` where none has one.
fn oldest_with(masks: &[MaskList], key: &Key<14>) -> u32 {
    let mut oldest = u32::MAX;
    for mask in masks {
        if mask.serial() < oldest && filter_for(mask, key).is_some() {
            oldest = mask.serial();
        }
    }
    oldest
}

// A visit for each mask up to that serial, if so many are left.
fn look_at(met: &mut Met, masks: &[MaskList], oldest: u32) -> bool {
    for mask in masks {
        if mask.serial() <= oldest {
            if met.left == 0 {
                return false;
            }
            met.left -= 1;
        }
    }
    true
}

fn filter_for<'a>(mask: &'a MaskList, key: &Key<14>) -> Option<&'a Filter> {
    for slot in mask.filters().slots() {
        if let Some(filter) = slot {
            if has_fields(key, mask.mask(), &filter.key) {
                return Some(filter);
            }
        }
    }
    None
}

fn has_fields(frame: &Key<14>, mask: &Key<14>, key: &Key<14>) -> bool {
    for field in 0..20 {
        if value(frame, field) & value(mask, field) != value(key, field) {
            return false;
        }
    }
    true
}

fn value(key: &Key<14>, field: u32) -> u64
    requires { field < 20 }
{
    // The row says that the field's word is one of fourteen.
    let _row = row(field);
    get(key, field)
}

// The actions of a list, from the first on. An end behind the last action passes, and so does the 32nd jump.
fn run_list(met: &mut Met, lists: &Lists, list: &[u32]) -> Result<Then, AllocError> {
    let mut at = 0_usize;
    let mut jumps = 31_u32;
    for _ in 0..65_536 {
        let Some(serial) = list.get(at) else {
            return Ok(Then::Pass);
        };
        match execute(met, lists, *serial)? {
            Control::Pipe => at = at.saturating_add(1),
            Control::Jump(to) => {
                if to == 0 || jumps == 0 {
                    return Ok(Then::Pass);
                }
                jumps -= 1;
                at = to as usize;
            }
            control => return Ok(after_list(control)),
        }
    }
    Ok(Then::Drop)
}

// What follows a list that ends with a control. Pipe and jump end none.
fn after_list(control: Control) -> Then {
    match control {
        Control::Shot => Then::Drop,
        Control::Unspec => Then::NextTable,
        Control::Reclassify => Then::Chain(0),
        Control::Goto(chain) => Then::Chain(chain),
        _ => Then::Pass,
    }
}

// Runs an action; without a visit for it the packet is dropped.
fn execute(met: &mut Met, lists: &Lists, serial: u32) -> Result<Control, AllocError> {
    let Some(entry) = lists.actions().of_serial(serial) else {
        return Ok(Control::Shot);
    };
    if met.left == 0 {
        return Ok(Control::Shot);
    }
    met.left -= 1;
    let length = (met.frame.bytes.len() & 0xf_ffff) as u32;
    met.executed.push((serial, length))?;
    met.frame.act(entry.params)
}
