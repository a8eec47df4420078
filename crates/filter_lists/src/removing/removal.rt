//! What is to be taken out.

use tc_base::Hook;

/// What is to be taken out, and where it stands.
#[derive(Clone, Copy)]
pub enum Removal {
    /// The filter of that handle, in the mask at that place of the table at that place of the hook.
    OneFilter {
        hook: Hook,
        chain: u32,
        pref: u32,
        handle: u32,
        table: usize,
        mask: usize,
    },
    /// The table at that place of the hook.
    WholeTable {
        hook: Hook,
        chain: u32,
        pref: u32,
        table: usize,
    },
}
