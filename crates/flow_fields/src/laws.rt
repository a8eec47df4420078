//! What holds of the table as a whole. The functions do nothing: their contracts are the laws.
ghost use Rattle.std.specs.Prelude.{◌≡◌, ◌<◌, ℕ, List, IsTrue, length, slice_index, Some};
ghost use Rattle.flow_fields.specs.Table.{field_at, field_named, has_bit, IsPlaced};
ghost use Rattle.flow_fields.specs.Values.{value_in, values_of, IsTidy};

/// Each field lies within one of fourteen words, a bit belongs to one field at most, and the name of each
/// field finds it, so no two fields have the same name.
pub fn one_field_a_bit()
    ensures placed { (i : ℕ) → i < 20 → IsPlaced (field_at i) }
    ensures apart { (i k word bit : ℕ) → i < 20 → k < 20 →
        IsTrue (has_bit word bit (field_at i)) → IsTrue (has_bit word bit (field_at k)) → i ≡ k }
    ensures named { (i : ℕ) → i < 20 → field_named (field_at i).name ≡ Some i }
{}

/// The list of a key's values has the value of each field at the field's number.
pub fn values_are_fields()
    ensures { (words : List ℕ) (i : ℕ) → i < 20 → slice_index (values_of words) i
        ≡ value_in (field_at i) words }
{}

/// Keys of one length with no stray bit are equal where their fields have equal values.
pub fn values_make_words()
    ensures { (key other : List ℕ) → length key ≡ length other → IsTidy key → IsTidy other
        → values_of key ≡ values_of other → key ≡ other }
{}
