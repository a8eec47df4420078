ghost use Rattle.frame_edit.specs.Metadata.{IsUnset};

/// What is noted beside the bytes of a frame. All three numbers are 0 until they are set.
#[derive(Clone, Copy, Debug, PartialEq, Eq)]
pub struct Meta {
    pub priority: u32,
    pub mark: u32,
    /// The queue of the device that the frame is mapped to.
    pub queue: u16,
}

impl Default for Meta {
    ghost is_default = { IsUnset };

    /// All three are 0.
    fn default() -> Self {
        Meta {
            priority: 0,
            mark: 0,
            queue: 0,
        }
    }
}
