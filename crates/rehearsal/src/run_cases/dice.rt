//! Dice that fall the same in each run.
ghost use Rattle.std.specs.Prelude.{◌≤◌, ◌<◌};

/// Numbers from a seed.
#[derive(Drop)]
pub(crate) struct Dice {
    pub(crate) seed: u64,
}

impl Dice {
    /// A number below `sides`, which is at least 1.
    pub(crate) fn below(&mut self, sides: u32) -> u32
        requires { 1 ≤ sides }
        ensures { result < sides }
    {
        // The multiplier and the addend of Knuth's MMIX.
        self.seed = self
            .seed
            .wrapping_mul(6_364_136_223_846_793_005)
            .wrapping_add(1_442_695_040_888_963_407);
        (self.seed >> 33) as u32 % sides
    }

    /// One of some texts, or none where there are none.
    pub(crate) fn one<'a>(&mut self, texts: &[&'a str]) -> &'a str {
        if texts.is_empty() || texts.len() > 100 {
            return "";
        }
        texts[self.below(texts.len() as u32) as usize]
    }
}
