//! What holds of the answers by the definitions alone: each is in its range. The functions do nothing: their
//! contracts are the laws.
ghost use Rattle.std.specs.Prelude.{◌≡◌, ◌⊎◌, ◌<◌, ◌≤◌, ◌+◌, ◌*◌, ◌^◌, ℕ, List, Some, bit_and};
ghost use Rattle.tc_base.specs.declared.hook.Proto.TheVariants.{Ether};
ghost use Rattle.tc_words.specs.Addresses.{prefix_mask, ipv4_of};
ghost use Rattle.tc_words.specs.Ipv6Addresses.{ipv6_mask, ipv6_of};
ghost use Rattle.tc_words.specs.MacAddresses.{mac_of};
ghost use Rattle.tc_words.specs.declared.ipv6_addresses.Ipv6Word.{Ipv6Word};
ghost use Rattle.line_words.specs.Forms.{number_between, tpid_of, ether_type_of, protocol_of, ip_protocol_of};
ghost use Rattle.line_words.specs.Forms.{class_of, masked_hex_of, masked_octet_of};

/// A number is in the range of its place, a tag has one of its two EtherTypes, an EtherType has 16 bits, a
/// protocol over IP 8, and a class 32.
pub fn numbers_in_range()
    ensures between { (least most : ℕ) (word : List ℕ) (n : ℕ) → number_between least most word ≡ Some n
        → (least ≤ n) × (n ≤ most) }
    ensures tpid { (word : List ℕ) (n : ℕ) → tpid_of word ≡ Some n → (n ≡ 0x8100) ⊎ (n ≡ 0x88A8) }
    ensures ether_type { (word : List ℕ) (n : ℕ) → ether_type_of word ≡ Some n → n < 65536 }
    ensures protocol { (word : List ℕ) (n : ℕ) → protocol_of word ≡ Some (Ether n) → n < 65536 }
    ensures ip_protocol { (word : List ℕ) (n : ℕ) → ip_protocol_of word ≡ Some n → n < 256 }
    ensures class { (word : List ℕ) (n : ℕ) → class_of word ≡ Some n → n < 2 ^ 32 }
{}

/// A value under a mask, and its mask, have no more bits than asked for, and the value has no bit that its
/// mask has not.
pub fn masked_in_range()
    ensures hex { (word : List ℕ) (digits v m : ℕ) → masked_hex_of word digits ≡ Some (v, m)
        → (v < 16 ^ digits) × (m < 16 ^ digits) × (bit_and v m ≡ v) }
    ensures octet { (word : List ℕ) (v m : ℕ) → masked_octet_of word ≡ Some (v, m) → (v < 256) × (m < 256)
        × (bit_and v m ≡ v) }
{}

/// An address, and its mask, have no more bits than their kind has, and the address has no bit that its mask
/// has not. The mask of an IPv4 address is that of a prefix.
pub fn addresses_in_range()
    ensures mac { (word : List ℕ) (v m : ℕ) → mac_of word ≡ Some (v, m) → (v < 2 ^ 48) × (m < 2 ^ 48)
        × (bit_and v m ≡ v) }
    ensures ipv4 { (word : List ℕ) (v m : ℕ) → ipv4_of word ≡ Some (v, m) → (v < 2 ^ 32) × (bit_and v m ≡ v)
        × ((n : ℕ) × (n ≤ 32) × (m ≡ prefix_mask n)) }
    ensures ipv6 { (word : List ℕ) (w : Ipv6Word) → ipv6_of word ≡ Some w
        → (w.length ≤ 128) × (w.high < 2 ^ 64) × (w.low < 2 ^ 64)
        × (bit_and (w.high * 2 ^ 64 + w.low) (ipv6_mask w.length) ≡ w.high * 2 ^ 64 + w.low) }
{}
