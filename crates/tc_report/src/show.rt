//! The text that shows lists.
ghost use Rattle.std.specs.Prelude.{◌≡◌, [], ◌∷◌, ◌++◌, codes, OnOk, IfOk, if◌then◌else◌};
ghost use Rattle.filter_state.specs.States.{State};
ghost use Rattle.batch_run.specs.Passed.{Spells};
ghost use Rattle.tc_print.specs.EditWords.{qdisc_words};
ghost use Rattle.tc_report.specs.Show.{text_line, show_of};

use crate::sheet::Sheet;
use crate::shown_actions::push_actions;
use crate::shown_filters::push_tables;
use batch_run::Lists;
use std::alloc::{AllocError, Global};
use tc_base::{Hook, NoMemory};
use tc_print::{push_qdisc, push_word};

// The qdisc, if it is there.
fn push_hooked(sheet: &mut Sheet, hooked: bool) -> Result<(), AllocError>
    requires { sheet.old.line.items ≡ [] }
    ensures text { OnOk result (sheet.new.text.items ≡ sheet.old.text.items
        ++ (if hooked then text_line (qdisc_words (codes "add")) else [])) }
    ensures line { OnOk result (sheet.new.line.items ≡ []) }
{
    if !hooked {
        return Ok(());
    }
    push_qdisc(&mut sheet.line, "add")?;
    sheet.end_line()
}

fn push_end(sheet: &mut Sheet) -> Result<(), AllocError>
    requires { sheet.old.line.items ≡ [] }
    ensures { OnOk result (sheet.new.text.items ≡ sheet.old.text.items ++ text_line (codes "end" ∷ [])) }
{
    push_word(&mut sheet.line, "end")?;
    sheet.end_line()
}

/// The text that shows the state of the lists: the qdisc, the actions with their counts, the filters, and
/// `end`.
///
/// `NoMemory`: memory was refused.
pub fn show_text(alloc: Global, lists: &Lists) -> Result<Vec<u8>, NoMemory>
    ensures { IfOk result (λ text. (s : State) → Spells lists.now s → text.items ≡ show_of s) }
{
    let mut sheet = Sheet::new(alloc);
    push_hooked(&mut sheet, lists.hooked())?;
    push_actions(&mut sheet, alloc, lists.actions().entries())?;
    push_tables(&mut sheet, lists, Hook::Ingress)?;
    push_tables(&mut sheet, lists, Hook::Egress)?;
    push_end(&mut sheet)?;
    let Sheet { text, .. } = sheet;
    Ok(text)
}
