//! What holds of the texts. The functions do nothing: their contracts are the laws.
ghost use Rattle.std.specs.Prelude.{◌≡◌, ◌<◌, ◌≤◌, ◌+◌, ◌*◌, ◌/◌, ◌%◌, ◌^◌, ◌==◌, ◌⊎◌, ℕ, List, IsTrue};
ghost use Rattle.std.specs.Prelude.{IsFalse, Some, bit_and, decimal};
ghost use Rattle.std.specs.List.{list_all, list_any, join_with_byte};
ghost use Rattle.tc_base.specs.declared.hook.Proto.TheVariants.{All, Ether};
ghost use Rattle.tc_words.specs.Addresses.{prefix_mask, ipv4_of};
ghost use Rattle.tc_words.specs.Ipv6Addresses.{ipv6_mask, ipv6_of};
ghost use Rattle.tc_words.specs.Lines.{words_of};
ghost use Rattle.tc_words.specs.MacAddresses.{mac_of};
ghost use Rattle.tc_words.specs.Numbers.{decimal_of};
ghost use Rattle.line_words.specs.Forms.{number_between, tpid_of, ether_type_of, protocol_of, ip_protocol_of};
ghost use Rattle.line_words.specs.Forms.{class_of, masked_hex_of, masked_octet_of};
ghost use Rattle.line_texts.specs.CleanWords.{is_clean};
ghost use Rattle.line_texts.specs.Texts.{handle_text, ether_type_text, protocol_text, ip_protocol_text};
ghost use Rattle.line_texts.specs.Texts.{class_text, masked_hex_text, masked_octet_text, mac_text, ipv4_text};
ghost use Rattle.line_texts.specs.Texts.{ipv6_text, prefix_length_of, ipv6_length_of};

/// Clean words with one space between are the words of the line.
pub fn clean_words_are_words()
    ensures { (words : List (List ℕ)) → IsTrue (list_all is_clean words) → words_of (join_with_byte 32 words)
        ≡ words }
{}

/// A number and a handle are read back where they are in the range of their place.
pub fn numbers_are_read()
    ensures number { (least most n : ℕ) → n < 2 ^ 64 → least ≤ n → n ≤ most
        → number_between least most (decimal n) ≡ Some n }
    ensures decimal { (most n : ℕ) → n < 2 ^ 64 → n ≤ most → decimal_of (decimal n) most ≡ Some n }
    ensures handle { (least most n : ℕ) → n < 2 ^ 32 → least ≤ n → n ≤ most
        → number_between least most (handle_text n) ≡ Some n }
{}

/// Each protocol is read back, whether it has a name or not.
pub fn protocols_are_read()
    ensures ether_type { (n : ℕ) → n < 65536 → ether_type_of (ether_type_text n) ≡ Some n }
    ensures all { protocol_of (protocol_text All) ≡ Some All }
    ensures one { (n : ℕ) → n < 65536 → protocol_of (protocol_text (Ether n)) ≡ Some (Ether n) }
    ensures tpid { (n : ℕ) → (n ≡ 0x8100) ⊎ (n ≡ 0x88A8) → tpid_of (ether_type_text n) ≡ Some n }
    ensures ip_protocol { (n : ℕ) → n < 256 → ip_protocol_of (ip_protocol_text n) ≡ Some n }
{}

/// A class is read back, and so is a value with its mask where the value has no bit outside the mask.
pub fn pairs_are_read()
    ensures class { (n : ℕ) → n < 2 ^ 32 → class_of (class_text n) ≡ Some n }
    ensures masked_hex { (digits value mask : ℕ) → 0 < digits → digits ≤ 3 → value < 16 ^ digits
        → mask < 16 ^ digits →
        bit_and value mask ≡ value → masked_hex_of (masked_hex_text value mask) digits ≡ Some (value, mask) }
    ensures masked_octet { (value mask : ℕ) → value ≤ 255 → mask ≤ 255 →
        bit_and value mask ≡ value → masked_octet_of (masked_octet_text value mask) ≡ Some (value, mask) }
{}

/// An address is read back with its mask where it has no bit outside the mask.
pub fn addresses_are_read()
    ensures mac { (value mask : ℕ) → value < 2 ^ 48 → mask < 2 ^ 48 →
        bit_and value mask ≡ value → mac_of (mac_text value mask) ≡ Some (value, mask) }
    ensures ipv4 { (value length : ℕ) → value < 2 ^ 32 → length ≤ 32 →
        bit_and value (prefix_mask length) ≡ value → ipv4_of (ipv4_text value length)
        ≡ Some (value, prefix_mask length) }
    ensures ipv6 { (high low length : ℕ) → high < 2 ^ 64 → low < 2 ^ 64 → length ≤ 128 →
        bit_and (high * 2 ^ 64 + low) (ipv6_mask length) ≡ high * 2 ^ 64 + low →
        ipv6_of (ipv6_text high low length) ≡ Some (record { high = high; low = low; length = length }) }
{}

/// The length of a prefix is found in its mask.
pub fn lengths_are_found()
    ensures ipv4 { (length : ℕ) → length ≤ 32 → prefix_length_of (prefix_mask length) ≡ length }
    ensures ipv6 { (length : ℕ) → length ≤ 128
        → ipv6_length_of (ipv6_mask length / 2 ^ 64) (ipv6_mask length % 2 ^ 64) ≡ length }
{}

/// A colon tells the two kinds of addresses apart.
pub fn colons_tell()
    ensures ipv4 { (value length : ℕ) → value < 2 ^ 32 → length ≤ 32
        → IsFalse (list_any (λ b. b == 58) (ipv4_text value length)) }
    ensures ipv6 { (high low length : ℕ) → IsTrue (list_any (λ b. b == 58) (ipv6_text high low length)) }
{}

/// Each text is a clean word.
pub fn texts_are_clean()
    ensures number { (n : ℕ) → n < 2 ^ 64 → IsTrue (is_clean (decimal n)) }
    ensures handle { (n : ℕ) → n < 2 ^ 32 → IsTrue (is_clean (handle_text n)) }
    ensures ether_type { (n : ℕ) → n < 65536 → IsTrue (is_clean (ether_type_text n)) }
    ensures all { IsTrue (is_clean (protocol_text All)) }
    ensures ip_protocol { (n : ℕ) → n < 256 → IsTrue (is_clean (ip_protocol_text n)) }
    ensures class { (n : ℕ) → n < 2 ^ 32 → IsTrue (is_clean (class_text n)) }
    ensures masked_hex { (digits value mask : ℕ) → 0 < digits → digits ≤ 3 → value < 16 ^ digits
        → mask < 16 ^ digits → IsTrue (is_clean (masked_hex_text value mask)) }
    ensures masked_octet { (value mask : ℕ) → value ≤ 255 → mask ≤ 255
        → IsTrue (is_clean (masked_octet_text value mask)) }
    ensures mac { (value mask : ℕ) → value < 2 ^ 48 → mask < 2 ^ 48
        → IsTrue (is_clean (mac_text value mask)) }
    ensures ipv4 { (value length : ℕ) → value < 2 ^ 32 → length ≤ 32
        → IsTrue (is_clean (ipv4_text value length)) }
    ensures ipv6 { (high low length : ℕ) → high < 2 ^ 64 → low < 2 ^ 64 → length ≤ 128
        → IsTrue (is_clean (ipv6_text high low length)) }
{}
