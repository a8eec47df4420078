//! Why the registry refuses.
ghost use Rattle.std.specs.Prelude.{◌≡◌};
ghost use Rattle.act_registry.specs.declared.fault.RegistryFault.TheVariants as faults;

use tc_base::NoMemory;

/// Why a call of the registry is refused.
#[derive(Clone, Copy, Debug, PartialEq, Eq)]
pub enum RegistryFault {
    /// No live action has the kind and index.
    NoSuchAction,
    /// A live action has the kind and index.
    ActionExists,
    /// Filters name the action, in so many places.
    ActionBound { binds: u32 },
    /// 1,024 actions are live.
    ActionsFull,
    /// 16,384 actions were made in this run.
    CountersFull,
    /// Memory was refused.
    NoMemory(NoMemory),
}

impl From<NoMemory> for RegistryFault {
    ghost from_gives = { λ memory e. e ≡ faults.NoMemory memory };

    fn from(memory: NoMemory) -> Self {
        RegistryFault::NoMemory(memory)
    }
}
