//! Whether two answers are one: slots are left out, since they are the names of who answers.
ghost use Rattle.std.specs.Prelude.{◌≡◌, nat_eq};
ghost use Rattle.std.specs.Cmp.Lexicographic.{pointwise};
ghost use Rattle.walk_fate_laws.specs.Walks.{same_head};
ghost use Rattle.walk_steps.specs.Told.{action_serials, mask_serials, head_told, heads_told};

use visit_room::{ActionName, MaskName, TableHead};

/// The same actions, in order.
pub(crate) fn are_same_actions(actions: &[ActionName], others: &[ActionName]) -> bool
    ensures { result ≡ pointwise nat_eq (action_serials actions.now) (action_serials others.now) }
{
    if actions.len() != others.len() {
        return false;
    }
    for place in 0..actions.len() {
        if actions[place].serial != others[place].serial {
            return false;
        }
    }
    true
}

fn are_same_masks(masks: &[MaskName], others: &[MaskName]) -> bool
    ensures { result ≡ pointwise nat_eq (mask_serials masks.now) (mask_serials others.now) }
{
    if masks.len() != others.len() {
        return false;
    }
    for place in 0..masks.len() {
        if masks[place].serial != others[place].serial {
            return false;
        }
    }
    true
}

fn is_same_table(table: &TableHead, other: &TableHead) -> bool
    ensures { result ≡ same_head (head_told table.now) (head_told other.now) }
{
    table.serial == other.serial
        && table.chain == other.chain
        && table.pref == other.pref
        && table.protocol == other.protocol
        && are_same_masks(table.masks.as_slice(), other.masks.as_slice())
}

/// The same tables, in order.
pub(crate) fn are_same_tables(tables: &[TableHead], others: &[TableHead]) -> bool
    ensures { result ≡ pointwise same_head (heads_told tables.now) (heads_told others.now) }
{
    if tables.len() != others.len() {
        return false;
    }
    for place in 0..tables.len() {
        if !is_same_table(&tables[place], &others[place]) {
            return false;
        }
    }
    true
}
