//! The names of the entries, sorted by kind and then by index: what a kind and index are found by.
ghost use Rattle.act_registry.specs.declared.limits.TheConstants.{ACTIONS_MAX};
ghost use Rattle.std.specs.Prelude.{◌≡◌, ◌<◌, ◌≤◌, ◌+◌, ℕ, length, IfSome, true, false};
ghost use Rattle.std.specs.List.{AllPairs, count_by};
ghost use Rattle.std.specs.Option.{IfNone};
ghost use Rattle.act_registry.specs.Names.{ComesBefore, IsPlaceFor, has_name, is_name};

/// The kind and index of an entry, with the entry's serial.
#[derive(Clone, Copy)]
pub(crate) struct Name {
    pub(crate) kind: u32,
    pub(crate) index: u32,
    pub(crate) serial: u32,
}

/// How many names come before that kind and index: the place of the name that has them, or the place where it
/// is to stand.
pub(crate) fn place_for(names: &[Name], kind: u32, index: u32) -> usize
    requires { AllPairs ComesBefore names.now }
    ensures { IsPlaceFor kind index names.now result }
{
    names.partition_point(|name| name.kind < kind || (name.kind == kind && name.index < index))
}

/// The serial of the entry with that kind and index.
pub(crate) fn serial_of(names: &[Name], kind: u32, index: u32) -> Option<u32>
    requires { AllPairs ComesBefore names.now }
    ensures found { IfSome result (λ serial. 0 < count_by (is_name kind index serial) names.now) }
    ensures none { IfNone result (count_by (has_name kind index) names.now ≡ 0) }
{
    match names.get(place_for(names, kind, index)) {
        Some(name) if name.kind == kind && name.index == index => Some(name.serial),
        _ => None,
    }
}

/// The lowest index from 1 that the kind doesn't use. It takes one step for each index of the kind below it.
pub(crate) fn lowest_free(names: &[Name], kind: u32) -> u32
    requires sorted { AllPairs ComesBefore names.now }
    requires few { length names.now ≤ ACTIONS_MAX }
    ensures within { (1 ≤ result) × (result ≤ length names.now + 1) }
    ensures free { count_by (has_name kind result) names.now ≡ 0 }
    ensures lowest { (lower : ℕ) → 1 ≤ lower → lower < result → 0 < count_by (has_name kind lower) names.now }
{
    let mut at = place_for(names, kind, 1);
    let mut free = 1;
    while at < names.len() && names[at].kind == kind && names[at].index == free {
        at += 1;
        free += 1;
    }
    free
}
