//! The digest of a key.
ghost use Rattle.std.specs.Prelude.{◌≡◌, length};
ghost use Rattle.filter_index.specs.Digests.{digest_of};

/// An odd number for each word of a key, with bits all over, so that each bit of a word changes many of the
/// product (this project's own).
pub(crate) const FACTORS: [u64; 14] = [
    0x9E37_79B9_7F4A_7C15,
    0xC2B2_AE3D_27D4_EB4F,
    0x1656_67B1_9E37_79F9,
    0x85EB_CA77_C2B2_AE63,
    0x27D4_EB2F_1656_67C5,
    0xFF51_AFD7_ED55_8CCD,
    0xC4CE_B9FE_1A85_EC53,
    0x9FB2_1C65_1E98_DF25,
    0xA076_1D64_78BD_642F,
    0xE703_7ED1_A0B4_28DB,
    0x8EBC_6AF0_9C88_C6E3,
    0x5899_65CC_7537_4CC3,
    0x1D8E_4E27_C47D_124F,
    0xEB44_ACCA_B455_D165,
];

/// How many words of a mask a sieve looks at, at most (this project's own).
pub(crate) const SIEVE_WORDS: usize = 4;

/// The digest of a key's words: each times the factor of its place, added up below 2 ^ 64.
#[inline]
pub(crate) fn digest(words: &[u64]) -> u64
    requires { length words.now ≡ 14 }
    ensures { result ≡ digest_of words.now }
{
    let mut sum: u64 = 0;
    for k in 0..14 {
        sum = sum.wrapping_add(words[k].wrapping_mul(FACTORS[k]));
    }
    sum
}
