/// What becomes of a packet at a hook: it goes on, or is let go.
#[derive(Clone, Copy, Debug, PartialEq, Eq)]
pub enum Verdict {
    Pass,
    Drop,
}
