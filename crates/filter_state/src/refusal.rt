//! What an edit is answered.
ghost use Rattle.std.specs.Prelude.{◌≡◌};
ghost use Rattle.filter_state.specs.declared.refusal.Refusal.TheVariants as refusals;

use act_kinds::Kind;
use tc_base::{NoMemory, Numbers, Proto};

/// What an edit did.
#[derive(Drop, Debug)]
pub enum Done {
    Hooked,
    Unhooked,
    /// A filter stands, with the serials of its actions in order.
    Filter {
        pref: u32,
        handle: u32,
        serials: Numbers,
    },
    FilterGone,
    TableGone,
    ActionMade {
        index: u32,
        serial: u32,
    },
    ActionChanged,
    ActionGone,
}

/// Why an edit was refused. A refused edit changes nothing.
#[derive(Clone, Copy, Debug, PartialEq, Eq)]
pub enum Refusal {
    /// The qdisc isn't there.
    NoHook,
    /// The qdisc is there.
    HookExists,
    /// A filter is on either hook.
    HookInUse,
    /// No pref is given, and the chain's lowest is 1.
    NoPref,
    /// The table of that hook, chain and pref is there with this protocol.
    ProtocolClash { protocol: Proto },
    NoSuchTable,
    NoSuchFilter,
    HandleTaken,
    /// The table has a filter with the same mask and key, under this handle.
    Exists { handle: u32 },
    /// The first action of the list that is named alone and isn't there at its place.
    NoSuchAction { kind: Kind, index: u32 },
    ActionExists,
    /// So many places of filters name the action.
    ActionBound { binds: u32 },
    /// A hook has 256 tables at most.
    TablesFull,
    /// A table has 16 masks at most.
    MasksFull,
    /// There are 4,096 filters at most, on both hooks together.
    FiltersFull,
    /// There are 1,024 live actions at most, counted before any is unbound.
    ActionsFull,
    /// 16,384 actions are made at most in a run.
    CountersFull,
    NoMemory(NoMemory),
}

impl From<NoMemory> for Refusal {
    ghost from_gives = { λ memory e. e ≡ refusals.NoMemory memory };

    fn from(memory: NoMemory) -> Self {
        Refusal::NoMemory(memory)
    }
}
