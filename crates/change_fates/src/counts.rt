//! How many packets are of each kind.

use fate_times::Kind;

/// Packets by their kind.
#[derive(Clone, Copy, Debug, PartialEq, Eq)]
pub struct KindCounts {
    pub steady: u32,
    pub moved: u32,
    pub between: u32,
    pub mixed: u32,
    pub left_open: u32,
}

impl KindCounts {
    ghost use Rattle.std.specs.Prelude.{◌≡◌, ◌+◌, ◌<◌, ◌^◌, [], ◌∷◌, ◌++◌, List};
    ghost use Rattle.walk_fate_laws.specs.declared.kinds.Kind.{Kind as AKind};
    ghost use Rattle.change_fates.specs.Told.{counts_of, shaken};

    /// No packets.
    pub(crate) fn none() -> KindCounts
        ensures { result ≡ counts_of [] }
    {
        KindCounts {
            steady: 0,
            moved: 0,
            between: 0,
            mixed: 0,
            left_open: 0,
        }
    }

    /// One packet more.
    pub(crate) fn add(&mut self, kind: Kind)
        requires { self.old.steady + self.old.moved + self.old.between + self.old.mixed + self.old.left_open
            + 1 < 2 ^ 32 }
        ensures { (kinds : List AKind) → self.old ≡ counts_of kinds
            → self.new ≡ counts_of (kinds ++ (kind ∷ [])) }
    {
        match kind {
            Kind::Steady => self.steady += 1,
            Kind::Moved => self.moved += 1,
            Kind::Between => self.between += 1,
            Kind::Mixed => self.mixed += 1,
            Kind::Open => self.left_open += 1,
        }
    }

    /// How many of them aren't hitless.
    pub(crate) fn shaken(self) -> u32
        requires { self.between + self.mixed + self.left_open < 2 ^ 32 }
        ensures { result ≡ shaken self }
    {
        self.between + self.mixed + self.left_open
    }
}
