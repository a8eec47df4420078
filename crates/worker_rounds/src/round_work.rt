//! The work of a round.

use hook_store_law::HookStore;
use pcap_io::Packets;
use step_counts::Claims;
use tc_base::Hook;

/// What the workers of a round share: the hook's store, the claims from which packets are drawn, the gate
/// that is asked before each visit, and the packets with the hook at which they come.
#[derive(Drop)]
pub struct RoundWork<'a, G> {
    pub store: &'a HookStore,
    pub claims: &'a Claims,
    pub gates: &'a G,
    pub hook: Hook,
    pub packets: &'a Packets,
}
