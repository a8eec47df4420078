//! Classes of traffic.
ghost use Rattle.std.specs.Prelude.{◌≡◌, ◌<◌, IfSome};
ghost use Rattle.line_words.specs.Forms.{joined_class, class_of};

use tc_words::{cut_at, read_hex_digits};

fn join_class(major: Option<u64>, minor: Option<u64>) -> Option<u32>
    requires major { IfSome major (λ half. half < 65536) }
    requires minor { IfSome minor (λ half. half < 65536) }
    ensures { result ≡ joined_class major minor }
{
    let major = major?;
    let minor = minor?;
    Some((major * 65536 + minor) as u32)
}

/// The number of a class, `MAJOR:MINOR`, as one number of 32 bits with the major half highest (tc(8),
/// `classid`). Each half is 1 to 4 hexadecimal digits of either case, without `0x`. So `1:10` is 0x00010010.
///
/// `None` for any other word, one with an empty half or a second `:` too.
pub fn read_class(word: &[u8]) -> Option<u32>
    ensures { result ≡ class_of word.now }
{
    let (major, minor) = cut_at(word, b':')?;
    join_class(read_hex_digits(major, 4), read_hex_digits(minor, 4))
}
