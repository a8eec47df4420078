//! One action and its counts.
ghost use Rattle.std.specs.Prelude.{◌≡◌, ◌<◌, ◌≤◌, ◌^◌, ◌+◌, ℕ};
ghost use Rattle.act_registry.specs.Entries.{new_entry, bound_more, bound_less};

/// Parameters that have a kind. Two actions of one kind differ in their index.
pub trait Kinded: Drop {
    /// The kind of a value, as a number.
    ghost kind_of: { Self → ℕ };

    fn kind(&self) -> u32
        ensures { result ≡ kind_of self.now };
}

/// A live action, as `struct tc_action` of the kernel (include/net/act_api.h) counts it.
#[derive(Drop)]
pub struct Entry<P> {
    /// Counted from 1 over a run, and never given twice.
    pub serial: u32,
    /// Tells the actions of one kind apart (tc-actions(8), INDEX).
    pub index: u32,
    pub params: P,
    /// How many hold the action (`tcfa_refcnt`).
    pub references: u32,
    /// How many places in filters name the action (`tcfa_bindcnt`).
    pub binds: u32,
}

impl<P> Entry<P> {
    /// An entry that one holder has: a place in a filter, or, where it isn't `bound`, whoever added it.
    pub(crate) fn new(serial: u32, index: u32, params: P, bound: bool) -> Self
        ensures { result ≡ new_entry serial index params bound }
    {
        Entry {
            serial,
            index,
            params,
            references: 1,
            binds: if bound { 1 } else { 0 },
        }
    }

    /// One place more names the action.
    pub(crate) fn bind(&mut self)
        requires room { self.old.references + 1 < 2 ^ 32 }
        requires fewer { self.old.binds ≤ self.old.references }
        ensures { self.new ≡ bound_more self.old }
    {
        self.references += 1;
        self.binds += 1;
    }

    /// One place fewer names the action.
    pub(crate) fn unbind(&mut self)
        requires held { 0 < self.old.references }
        requires bound { 0 < self.old.binds }
        ensures { self.new ≡ bound_less self.old }
    {
        self.references -= 1;
        self.binds -= 1;
    }
}
