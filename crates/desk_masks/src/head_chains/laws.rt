//! What the chain of a hook's tables reads as.
ghost use Rattle.std.specs.Prelude.{◌≡◌, ◌+◌, ◌<◌, ◌≤◌, ◌^◌, ℕ, List, length, map, All};
ghost use Rattle.tc_base.specs.declared.hook.Hook.{Hook};
ghost use Rattle.block_codec.specs.declared.places.TheConstants.{TABLES};
ghost use Rattle.block_codec.specs.declared.table.StoredTable.{StoredTable};
ghost use Rattle.filter_state.specs.States.{State};
ghost use Rattle.miniq_pair.specs.Heads.{hook_number};
ghost use Rattle.miniq_pair.specs.Pairs.{first_block_of, table_links};
ghost use Rattle.hook_law.specs.Standing.{Names};
ghost use Rattle.hook_law.specs.Telling.{ReadsHead};
ghost use Rattle.hook_store_law.specs.Stated.{hook_meaning, tables_at};
ghost use Rattle.hook_store_law.specs.Blocks.{hook_codec};
ghost use Rattle.desk_masks.specs.OfHeadChains.Chains.{stated_of, FitsTable, IsNamedIn};

/// The chain that a swap commits reads as its tables, where these are a state's, and it names no masks but
/// theirs, each with its slot.
pub fn head_chains_read()
    ensures reads { (hook : Hook) (place : ℕ) (tables : List StoredTable) (s : State) → place ≤ 1
        → All FitsTable tables → length tables ≤ TABLES
        → map stated_of tables ≡ tables_at s (hook_number hook)
        → ReadsHead hook_meaning hook_codec (hook_number hook)
        (table_links (first_block_of hook place) tables) s }
    ensures names { (first : ℕ) (tables : List StoredTable) (mask slot : ℕ) → All FitsTable tables
        → first + length tables < 2 ^ 32
        → Names hook_codec (table_links first tables) mask slot → IsNamedIn tables mask slot }
    ensures named { (first : ℕ) (tables : List StoredTable) (mask slot : ℕ) → All FitsTable tables
        → first + length tables < 2 ^ 32
        → IsNamedIn tables mask slot → Names hook_codec (table_links first tables) mask slot }
{}
