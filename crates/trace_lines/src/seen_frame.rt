//! What was told of a frame.
ghost use Rattle.std.specs.Prelude.{◌≡◌};
ghost use Rattle.std.specs.Str.{bytes_eq};
ghost use Rattle.flow_fields.specs.Values.{values_of};

use crate::keys::value;
use flow_fields::Key;
use std::marker::Model;

/// What was told of the frame of the look-up before: its EtherType and its fields. In a clause it is these
/// and the fields' values, or nothing.
#[derive(Drop)]
pub struct SeenFrame {
    seen: Option<(u16, Key<14>)>,
}

impl Model for SeenFrame {
    ghost use Rattle.trace_lines.specs.Lines.{Seen};
    ghost use Rattle.trace_lines.specs.Parts.{seen_of};

    ghost Value = { Seen };

    ghost view = { λ s. seen_of s.seen };
}

impl SeenFrame {
    ghost use Rattle.std.specs.Prelude.{◌≡◌, Some, None};
    ghost use Rattle.flow_fields.specs.Values.{values_of};
    ghost use Rattle.trace_lines.specs.Parts.{is_same};

    /// No look-up was made.
    pub fn new() -> SeenFrame
        ensures { result ≡ None }
    {
        SeenFrame { seen: None }
    }

    /// Whether the frame of the look-up before had that EtherType and these fields.
    pub(crate) fn is(&self, ether: u16, key: &Key<14>) -> bool
        ensures { result ≡ is_same self.now ether (values_of key.now.words) }
    {
        match self.seen {
            None => false,
            Some((seen_ether, seen_key)) => seen_ether == ether && has_values(&seen_key, key),
        }
    }

    /// A look-up is made of a frame with that EtherType and these fields.
    pub(crate) fn set(&mut self, ether: u16, key: &Key<14>)
        ensures { self.new ≡ Some (ether, values_of key.now.words) }
    {
        self.seen = Some((ether, *key));
    }
}

// Whether all fields of two keys have the same values.
fn has_values(key: &Key<14>, other: &Key<14>) -> bool
    ensures { result ≡ bytes_eq (values_of key.now.words) (values_of other.now.words) }
{
    for field in 0..20 {
        if value(key, field) != value(other, field) {
            return false;
        }
    }
    true
}
