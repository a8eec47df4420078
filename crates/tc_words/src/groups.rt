//! Groups of hexadecimal digits with colons between.
ghost use Rattle.std.specs.Prelude.{◌≡◌, ◌==◌, ◌≤◌, ◌<◌, ◌+◌, ◌*◌, ◌^◌, IfSome, Some};
ghost use Rattle.std.specs.List.{slice_split};
ghost use Rattle.tc_words.specs.Groups.{group_of, followed_by, groups_of};

use crate::cuts::cut_at;
use crate::hexadecimal::read_hex_digits;

fn read_group(text: &[u8], least: usize, most: u32) -> Option<u64>
    requires { most ≤ 16 }
    ensures value { result ≡ group_of least most text.now }
    ensures below { IfSome result (λ group. group < 16 ^ most) }
{
    if text.len() < least {
        return None;
    }
    read_hex_digits(text, most)
}

// The number with one group more behind it.
fn push_group(number: u128, text: &[u8], least: usize, most: u32) -> Option<u128>
    requires most { most ≤ 16 }
    requires room { number * 16 ^ most + 16 ^ most ≤ 2 ^ 128 }
    ensures value { result ≡ followed_by most (Some number) (group_of least most text.now) }
    ensures below { IfSome result (λ more. more < number * 16 ^ most + 16 ^ most) }
{
    let group = read_group(text, least, most)?;
    Some(number * 16u128.pow(most) + u128::from(group))
}

// How many groups there are, and the number that they make, the highest first. Each has `least` to `most`
// digits, and there are at most `greatest`.
pub(crate) fn read_groups(
    text: &[u8],
    least: usize,
    most: u32,
    greatest: u32,
) -> Option<(u32, u128)>
    requires most { most ≤ 16 }
    requires some { 0 < greatest }
    requires room { (16 ^ most) ^ greatest ≤ 2 ^ 128 }
    ensures value { result ≡ groups_of least most greatest (slice_split (λ b. b == 58) text.now) }
    ensures count { IfSome result (λ groups. groups.0 ≤ greatest) }
    ensures below { IfSome result (λ groups. groups.1 < (16 ^ most) ^ groups.0) }
{
    let mut rest = text;
    let mut number = 0;
    let mut count = 0;
    while let Some((group, more)) = cut_at(rest, b':') {
        if count + 1 == greatest {
            return None;
        }
        number = push_group(number, group, least, most)?;
        count += 1;
        rest = more;
    }
    let number = push_group(number, rest, least, most)?;
    Some((count + 1, number))
}
