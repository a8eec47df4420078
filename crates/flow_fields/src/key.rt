//! Keys.
ghost use Rattle.std.specs.Prelude.{◌≡◌};
ghost use Rattle.flow_fields.specs.Values.{values_of, zeros, IsTidy};

/// The values of the fields of one packet, or of one filter, packed into `N` words.
#[derive(Clone, Copy, Debug, PartialEq, Eq)]
pub struct Key<const N: usize> {
    /// The words. A field's value stands in the word, at the shift and in the width that its row says.
    pub words: [u64; N],
}

impl<const N: usize> Key<N> {
    /// The key in which each field is 0.
    #[inline]
    pub fn new() -> Self
        ensures values { values_of result.words ≡ zeros }
        ensures tidy { IsTidy result.words }
    {
        Key { words: [0; N] }
    }
}
