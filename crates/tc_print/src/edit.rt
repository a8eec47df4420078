//! Whole edits.
ghost use Rattle.std.specs.Prelude.{◌≡◌, [], ◌∷◌, ◌++◌, Some, fold, codes, OnOk, IfOk};
ghost use Rattle.tc_words.specs.Lines.{words_of};
ghost use Rattle.filter_state.specs.declared.edit.Edit.{Edit};
ghost use Rattle.filter_state.specs.Lines.{IsLine};
ghost use Rattle.tc_batch.specs.Grammar.{Gives};
ghost use Rattle.tc_batch.specs.KindNames.{kind_text};
ghost use Rattle.tc_print.specs.ActionWords.{index_words, action_words, list_words};
ghost use Rattle.tc_print.specs.FieldWords.{fields_words};
ghost use Rattle.tc_print.specs.EditWords.{hook_words, option_words, body_words, filter_words, flower_words};
ghost use Rattle.tc_print.specs.EditWords.{removal_words, qdisc_words, edit_words, printed};
ghost use Rattle.tc_print.specs.Texts.{onto};

use crate::actions::{push_action, push_actions};
use crate::controls::push_index;
use crate::fields::push_fields;
use crate::options::{push_hook, push_options};
use crate::texts::push_word;
use act_kinds::Kind;
use filter_state::{ActionLine, Edit, FilterLine};
use std::alloc::{AllocError, Global};
use tc_base::{Hook, NoMemory, Proto};
use tc_batch::kind_name;

/// Puts the words of a line behind one, that puts the hooks on the device or takes them off (tc-clsact(8)).
///
/// `AllocError`: memory was refused.
pub fn push_qdisc(out: &mut Vec<u8>, verb: &str) -> Result<(), AllocError>
    ensures { OnOk result (out.new.items ≡ fold onto out.old.items (qdisc_words verb.now)) }
{
    push_word(out, "qdisc")?;
    push_word(out, verb)?;
    push_word(out, "dev")?;
    push_word(out, "eth0")?;
    push_word(out, "clsact")
}

#[tactic(auto, using(crate::proofs::Grown::onto_append))]
fn push_body(out: &mut Vec<u8>, line: &FilterLine) -> Result<(), AllocError>
    ensures { OnOk result (out.new.items ≡ fold onto out.old.items (body_words line.now)) }
{
    push_word(out, "flower")?;
    push_fields(out, &line.key, &line.mask)?;
    push_actions(out, line.actions.as_slice())
}

#[tactic(auto, using(crate::proofs::Grown::onto_append))]
fn push_filter(out: &mut Vec<u8>, verb: &str, line: &FilterLine) -> Result<(), AllocError>
    ensures { OnOk result (out.new.items ≡ fold onto out.old.items (filter_words verb.now line.now)) }
{
    push_hook(out, verb, line.hook)?;
    push_options(out, Some(line.protocol), line.pref, line.chain, line.handle)?;
    push_body(out, line)
}

fn push_flower(out: &mut Vec<u8>, handle: Option<u32>) -> Result<(), AllocError>
    ensures { OnOk result (out.new.items ≡ fold onto out.old.items (flower_words handle)) }
{
    match handle {
        Some(_) => push_word(out, "flower"),
        None => Ok(()),
    }
}

#[tactic(auto, using(crate::proofs::Grown::onto_append))]
fn push_removal(
    out: &mut Vec<u8>,
    hook: Hook,
    protocol: Option<Proto>,
    chain: u32,
    pref: u32,
    handle: Option<u32>,
) -> Result<(), AllocError>
    ensures { OnOk result (out.new.items
        ≡ fold onto out.old.items (removal_words hook protocol chain pref handle)) }
{
    push_hook(out, "del", hook)?;
    push_options(out, protocol, Some(pref), chain, handle)?;
    push_flower(out, handle)
}

/// Puts the words of a line behind one, that is about an action apart from filters (tc-actions(8)): its verb
/// and the action.
///
/// `AllocError`: memory was refused.
pub fn push_shared(out: &mut Vec<u8>, verb: &str, action: ActionLine) -> Result<(), AllocError>
    ensures { OnOk result (out.new.items
        ≡ fold onto out.old.items (codes "actions" ∷ verb.now ∷ action_words action)) }
{
    push_word(out, "actions")?;
    push_word(out, verb)?;
    push_action(out, action)
}

fn push_gone(out: &mut Vec<u8>, kind: Kind, index: u32) -> Result<(), AllocError>
    ensures { OnOk result (out.new.items
        ≡ fold onto out.old.items (codes "actions" ∷ codes "del" ∷ codes "action" ∷ kind_text kind
        ∷ index_words (Some index))) }
{
    push_word(out, "actions")?;
    push_word(out, "del")?;
    push_word(out, "action")?;
    push_word(out, kind_name(kind))?;
    push_index(out, Some(index))
}

fn push_edit(out: &mut Vec<u8>, edit: &Edit) -> Result<(), AllocError>
    ensures { OnOk result (out.new.items ≡ fold onto out.old.items (edit_words edit.now)) }
{
    match edit {
        Edit::HookAdd => push_qdisc(out, "add"),
        Edit::HookDel => push_qdisc(out, "del"),
        Edit::FilterAdd(line) => push_filter(out, "add", line),
        Edit::FilterReplace(line) => push_filter(out, "replace", line),
        Edit::FilterDel {
            hook,
            protocol,
            chain,
            pref,
            handle,
        } => push_removal(out, *hook, *protocol, *chain, *pref, *handle),
        Edit::ActionAdd(action) => push_shared(out, "add", *action),
        Edit::ActionChange(action) => push_shared(out, "change", *action),
        Edit::ActionDel { kind, index } => push_gone(out, *kind, *index),
    }
}

/// The batch line that an edit is printed as, without a line feed (tc(8), tc-flower(8), tc-actions(8)). It
/// gives this edit and no other.
///
/// Its forms are these, where `[ .. ]` stands if there is a value:
///
/// - `qdisc add dev eth0 clsact`, and alike with `del`;
/// - `filter add dev eth0 HOOK protocol P [pref N] chain N [handle 0xH] flower FIELDS ACTIONS`, and alike
///   with `replace`;
/// - `filter del dev eth0 HOOK [protocol P] pref N chain N [handle 0xH flower]`;
/// - `actions add action PARAMETERS CONTROL [index N]`, and alike with `change`;
/// - `actions del action KIND index N`.
///
/// No command calls it: it carries the law that each edit of a line has a printed line, which gives it back.
pub fn print_edit(alloc: Global, edit: &Edit) -> Result<Vec<u8>, NoMemory>
    requires { IsLine edit.now }
    ensures text { IfOk result (λ text. text.items ≡ printed edit.now) }
    ensures line { IfOk result (λ text. Gives (words_of text.items) edit.now) }
    ensures only { IfOk result (λ text. (other : Edit) → Gives (words_of text.items) other
        → other ≡ edit.now) }
{
    let mut out = Vec::new(alloc);
    push_edit(&mut out, edit)?;
    Ok(out)
}
