//! What the visits of walks were told.

use act_kinds::Params;
use filter_lists::{FilterTable, Lists, MaskList};
use flow_fields::Key;
use plain_walk::PlainWalk;
use std::alloc::{AllocError, Global};
use tc_base::{Hook, Point, Proto};
use visit_room::{ActionName, Hit, TableHead};
use walk_rules::Verdict;

/// A table as a head told it, its masks by their serials.
#[derive(Drop)]
pub(crate) struct TableTold {
    serial: u32,
    chain: u32,
    pref: u32,
    protocol: Proto,
    masks: Vec<u32>,
}

/// A question with its answer.
#[derive(Drop)]
pub(crate) enum Told {
    Head {
        hook: Hook,
        tables: Vec<TableTold>,
    },
    Filter {
        mask: u32,
        key: Key<14>,
        actions: Option<Vec<u32>>,
    },
    Params {
        serial: u32,
        params: Params,
    },
    /// A whole walk, of which all visits had one point.
    Walk {
        hook: Hook,
        bytes: Vec<u8>,
        verdict: Verdict,
        executed: Vec<(u32, u32)>,
    },
}

/// What was told, and at which point.
#[derive(Drop)]
pub(crate) struct Entry {
    pub(crate) point: Point,
    pub(crate) told: Told,
}

impl TableTold {
    fn of(alloc: Global, head: &TableHead) -> Result<TableTold, AllocError> {
        let mut masks = Vec::new(alloc);
        for mask in head.masks.as_slice() {
            masks.push(mask.serial)?;
        }
        Ok(TableTold {
            serial: head.serial,
            chain: head.chain,
            pref: head.pref,
            protocol: head.protocol,
            masks,
        })
    }

    fn is(&self, table: &FilterTable) -> bool {
        self.serial == table.serial
            && self.chain == table.chain
            && self.pref == table.pref
            && self.protocol == table.protocol
            && have_serials(table.masks.as_slice(), self.masks.as_slice())
    }
}

fn have_serials(masks: &[MaskList], serials: &[u32]) -> bool {
    masks.len() == serials.len()
        && masks
            .iter()
            .zip(serials.iter())
            .all(|(mask, serial)| mask.serial() == *serial)
}

impl Told {
    /// The tables of a hook.
    pub(crate) fn head(alloc: Global, hook: Hook, heads: &[TableHead]) -> Result<Told, AllocError> {
        let mut tables = Vec::new(alloc);
        for head in heads {
            tables.push(TableTold::of(alloc, head)?)?;
        }
        Ok(Told::Head { hook, tables })
    }

    /// The filter of a mask.
    pub(crate) fn filter(
        alloc: Global,
        mask: u32,
        key: &Key<14>,
        found: bool,
        hit: &Hit,
    ) -> Result<Told, AllocError> {
        let actions = if found {
            Some(serials_of(alloc, hit.actions())?)
        } else {
            None
        };
        Ok(Told::Filter {
            mask,
            key: *key,
            actions,
        })
    }

    /// Whether lists answer the same.
    pub(crate) fn is_of(&self, lists: &Lists, plain: &mut PlainWalk) -> bool {
        match self {
            Told::Head { hook, tables } => are_tables(lists.tables(*hook), tables.as_slice()),
            Told::Filter { mask, key, actions } => {
                is_found(lists.tables(Hook::Ingress), *mask, key, actions)
                    || is_found(lists.tables(Hook::Egress), *mask, key, actions)
            }
            Told::Params { serial, params } => match lists.actions().of_serial(*serial) {
                Some(entry) => entry.params == *params,
                None => false,
            },
            Told::Walk {
                hook,
                bytes,
                verdict,
                executed,
            } => {
                walks(lists, plain, *hook, bytes)
                    && plain.verdict() == *verdict
                    && plain.executed() == executed.as_slice()
            }
        }
    }
}

// Takes a frame through a hook, if it isn't too long.
fn walks(lists: &Lists, plain: &mut PlainWalk, hook: Hook, bytes: &[u8]) -> bool {
    if bytes.len() > 262_144 {
        return false;
    }
    plain.run(lists, hook, bytes);
    true
}

fn serials_of(alloc: Global, actions: &[ActionName]) -> Result<Vec<u32>, AllocError> {
    let mut serials = Vec::new(alloc);
    for action in actions {
        serials.push(action.serial)?;
    }
    Ok(serials)
}

fn are_tables(tables: &[FilterTable], told: &[TableTold]) -> bool {
    tables.len() == told.len()
        && tables
            .iter()
            .zip(told.iter())
            .all(|(table, told)| told.is(table))
}

// Whether the mask is there, and its filter for a frame of that key has these actions.
fn is_found(tables: &[FilterTable], mask: u32, key: &Key<14>, actions: &Option<Vec<u32>>) -> bool {
    for table in tables {
        for list in table.masks.as_slice() {
            if list.serial() == mask {
                return match (list.met(key), actions) {
                    (Some(filter), Some(serials)) => {
                        filter.actions.as_slice() == serials.as_slice()
                    }
                    (None, None) => true,
                    _ => false,
                };
            }
        }
    }
    false
}

/// All that was told. Where memory was refused, it isn't whole.
#[derive(Drop)]
pub(crate) struct Log {
    pub(crate) alloc: Global,
    pub(crate) entries: Vec<Entry>,
    pub(crate) is_whole: bool,
}

impl Log {
    pub(crate) fn new(alloc: Global) -> Log {
        Log {
            alloc,
            entries: Vec::new(alloc),
            is_whole: true,
        }
    }

    /// Writes an entry down.
    pub(crate) fn write(&mut self, point: Point, told: Result<Told, AllocError>) {
        let written = match told {
            Ok(told) => self.entries.push(Entry { point, told }).is_ok(),
            Err(_) => false,
        };
        self.is_whole = self.is_whole && written;
    }
}
