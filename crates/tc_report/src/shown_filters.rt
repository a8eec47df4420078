//! The filters, in the order of the lists.
ghost use Rattle.std.specs.Prelude.{◌≡◌, [], ◌++◌, fold, codes, OnOk};
ghost use Rattle.std.specs.List.{flat_map};
ghost use Rattle.action_plan.specs.Entries.{actions_of};
ghost use Rattle.filter_state.specs.Actions.{has_serial};
ghost use Rattle.filter_state.specs.Tables.{first_where};
ghost use Rattle.filter_tables.specs.Rows.{row_of, rows_of_mask, rows_of_table, rows_of, tables_on};
ghost use Rattle.filter_tables.specs.Seen.{plain_table};
ghost use Rattle.filter_tables.specs.SeenMask.{plain_mask};
ghost use Rattle.hook_lists.specs.States.{both_of};
ghost use Rattle.tc_print.specs.ActionWords.{list_words};
ghost use Rattle.tc_print.specs.EditWords.{filter_words};
ghost use Rattle.tc_print.specs.Texts.{onto};
ghost use Rattle.tc_report.specs.Show.{named, line_of, filter_shown};
ghost use Rattle.tc_report.specs.Steps.{naming, slot_shown};

use crate::sheet::Sheet;
use act_kinds::Params;
use act_registry::Registry;
use batch_run::Lists;
use filter_index::Filter;
use filter_state::ActionLine;
use filter_tables::{FilterTable, MaskList};
use std::alloc::AllocError;
use tc_base::Hook;
use tc_print::{push_action, push_fields, push_hook, push_options, push_word};

// An action by its kind and index.
fn push_bound(line: &mut Vec<u8>, actions: &Registry<Params>, serial: u32) -> Result<(), AllocError>
    ensures { OnOk result (line.new.items
        ≡ fold onto line.old.items
        (list_words (named (first_where (has_serial serial) (actions_of actions.now.entries))))) }
{
    match actions.of_serial(serial) {
        Some(entry) => push_action(
            line,
            ActionLine {
                kind: entry.params.kind(),
                index: Some(entry.index),
                params: None,
            },
        ),
        None => Ok(()),
    }
}

fn push_all_bound(
    line: &mut Vec<u8>,
    actions: &Registry<Params>,
    serials: &[u32],
) -> Result<(), AllocError>
    ensures { OnOk result (line.new.items
        ≡ fold onto line.old.items
        (list_words
        (flat_map (λ serial. named (first_where (has_serial serial) (actions_of actions.now.entries)))
        serials.now))) }
{
    for serial in serials {
        push_bound(line, actions, *serial)?;
    }
    Ok(())
}

fn push_words(
    line: &mut Vec<u8>,
    actions: &Registry<Params>,
    hook: Hook,
    table: &FilterTable,
    mask: &MaskList,
    filter: &Filter,
) -> Result<(), AllocError>
    ensures { OnOk result (line.new.items
        ≡ fold onto line.old.items
        (filter_words (codes "add")
        (line_of (naming actions.now.entries)
        (row_of hook (plain_table table.now) (plain_mask mask.now) filter.now)))) }
{
    push_hook(line, "add", hook)?;
    push_options(
        line,
        Some(table.protocol),
        Some(table.pref),
        table.chain,
        Some(filter.handle),
    )?;
    push_word(line, "flower")?;
    push_fields(line, &filter.key, mask.mask())?;
    push_all_bound(line, actions, filter.actions.as_slice())?;
    Ok(())
}

fn push_filter(
    sheet: &mut Sheet,
    actions: &Registry<Params>,
    hook: Hook,
    table: &FilterTable,
    mask: &MaskList,
    filter: &Filter,
) -> Result<(), AllocError>
    requires { sheet.old.line.items ≡ [] }
    ensures text { OnOk result (sheet.new.text.items ≡ sheet.old.text.items
        ++ filter_shown (naming actions.now.entries)
        (row_of hook (plain_table table.now) (plain_mask mask.now) filter.now)) }
    ensures line { OnOk result (sheet.new.line.items ≡ []) }
{
    push_words(&mut sheet.line, actions, hook, table, mask, filter)?;
    sheet.end_line()?;
    Ok(())
}

// An empty slot has no line.
fn push_slot(
    sheet: &mut Sheet,
    actions: &Registry<Params>,
    hook: Hook,
    table: &FilterTable,
    mask: &MaskList,
    slot: &Option<Filter>,
) -> Result<(), AllocError>
    requires { sheet.old.line.items ≡ [] }
    ensures text { OnOk result (sheet.new.text.items ≡ sheet.old.text.items
        ++ slot_shown
        (λ f. filter_shown (naming actions.now.entries)
        (row_of hook (plain_table table.now) (plain_mask mask.now) f)) slot.now) }
    ensures line { OnOk result (sheet.new.line.items ≡ []) }
{
    match slot {
        Some(filter) => push_filter(sheet, actions, hook, table, mask, filter),
        None => Ok(()),
    }
}

fn push_slots(
    sheet: &mut Sheet,
    actions: &Registry<Params>,
    hook: Hook,
    table: &FilterTable,
    mask: &MaskList,
) -> Result<(), AllocError>
    requires { sheet.old.line.items ≡ [] }
    ensures text { OnOk result (sheet.new.text.items ≡ sheet.old.text.items
        ++ flat_map (filter_shown (naming actions.now.entries))
        (rows_of_mask hook (plain_table table.now) (plain_mask mask.now))) }
    ensures line { OnOk result (sheet.new.line.items ≡ []) }
{
    let slots = mask.filters().slots();
    for slot in slots {
        push_slot(sheet, actions, hook, table, mask, slot)?;
    }
    Ok(())
}

fn push_masks(
    sheet: &mut Sheet,
    actions: &Registry<Params>,
    hook: Hook,
    table: &FilterTable,
) -> Result<(), AllocError>
    requires { sheet.old.line.items ≡ [] }
    ensures text { OnOk result (sheet.new.text.items ≡ sheet.old.text.items
        ++ flat_map (filter_shown (naming actions.now.entries))
        (rows_of_table hook (plain_table table.now))) }
    ensures line { OnOk result (sheet.new.line.items ≡ []) }
{
    let masks = table.masks.as_slice();
    for mask in masks {
        push_slots(sheet, actions, hook, table, mask)?;
    }
    Ok(())
}

/// Puts a line for each filter of a hook.
pub(crate) fn push_tables(sheet: &mut Sheet, lists: &Lists, hook: Hook) -> Result<(), AllocError>
    requires { sheet.old.line.items ≡ [] }
    ensures text { OnOk result (sheet.new.text.items ≡ sheet.old.text.items
        ++ flat_map (filter_shown (naming lists.now.actions.entries))
        (rows_of hook (tables_on hook (both_of lists.now)))) }
    ensures line { OnOk result (sheet.new.line.items ≡ []) }
{
    let tables = lists.tables(hook);
    for table in tables {
        push_masks(sheet, lists.actions(), hook, table)?;
    }
    Ok(())
}
