//! Words read as the one thing whose words they are.
ghost use Rattle.std.specs.Prelude.{◌≡◌, ◌<◌, ◌^◌, ℕ, List, length, get_or};
ghost use Rattle.std.specs.Option.{option_map};
ghost use Rattle.block_codec.specs.declared.filter.StoredFilter.{StoredFilter};
ghost use Rattle.block_codec.specs.declared.mask.StoredMask.{StoredMask};
ghost use Rattle.block_codec.specs.declared.table.StoredTable.{StoredTable};
ghost use Rattle.block_codec.specs.declared.action.StoredAction.{StoredAction};
ghost use Rattle.block_codec.specs.Blocks.{IsTheOnly};
ghost use Rattle.block_codec.specs.Filters.{IsFilterBlock};
ghost use Rattle.block_codec.specs.Masks.{IsMaskBlock};
ghost use Rattle.block_codec.specs.Tables.{IsTableBlock};
ghost use Rattle.block_codec.specs.Actions.{IsActionBlock};
ghost use Rattle.block_codec.specs.OfReadings.Read.{link_in, filter_in, mask_of_words, table_in, action_of_words};

/// Forty words of 64 bits read as the filter, the mask or the table whose words they are, and as none where
/// they are those of none.
pub fn blocks_read_as_one()
    ensures filter { (words : List ℕ) → length words ≡ 40
        → IsTheOnly (IsFilterBlock words)
        (option_map (λ (it : StoredFilter). (it, link_in words)) (filter_in words)) }
    ensures mask { (words : List ℕ) → length words ≡ 40 → ((place : ℕ) → get_or words place 0 < 2 ^ 64)
        → IsTheOnly (IsMaskBlock words)
        (option_map (λ (it : StoredMask). (it, link_in words)) (mask_of_words words)) }
    ensures table { (words : List ℕ) → length words ≡ 40
        → IsTheOnly (IsTableBlock words)
        (option_map (λ (it : StoredTable). (it, link_in words)) (table_in words)) }
{}

/// And so they read as an action.
pub fn actions_read_as_one()
    ensures { (words : List ℕ) → length words ≡ 40 → ((place : ℕ) → get_or words place 0 < 2 ^ 64)
        → IsTheOnly (IsActionBlock words)
        (option_map (λ (it : StoredAction). (it, link_in words)) (action_of_words words)) }
{}
