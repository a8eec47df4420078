/// A place at which a run can be held, so that a rehearsal may choose who goes first.
///
/// A call may wait. It has no meaning in any contract, so nothing that is proved depends on it.
/// Workers, packets, controls and lines are named by their numbers in the run that calls.
pub trait Gate: Sync {
    /// The worker is about to make this visit of the packet's walk. Visits are counted from 1.
    fn before_visit(&self, worker: u32, packet: u32, visit: u32);

    /// The control is about to carry out this line.
    fn before_edit(&self, control: u32, line: u64);

    /// The control is done with this line, which was accepted or refused.
    fn after_edit(&self, control: u32, line: u64);
}

/// The gate that holds nobody.
#[derive(Clone, Copy, Debug, PartialEq, Eq)]
pub struct OpenGate;

impl Gate for OpenGate {
    fn before_visit(&self, _worker: u32, _packet: u32, _visit: u32) {}

    fn before_edit(&self, _control: u32, _line: u64) {}

    fn after_edit(&self, _control: u32, _line: u64) {}
}
