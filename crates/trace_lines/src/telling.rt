//! The lines of one step of a walk.
ghost use Rattle.std.specs.Prelude.{◌≡◌, ◌++◌, ◌+◌, fold, Some, OnOk, IfOk, option_map};
ghost use Rattle.tc_print.specs.Texts.{onto};
ghost use Rattle.walk_rules.specs.Questions.{Answer};
ghost use Rattle.walk_rules.specs.Steps.{Standing, question_of, after};
ghost use Rattle.point_walks.specs.Answereds.{answered_from};
ghost use Rattle.trace_lines.specs.Lines.{joined, lines_before, seen_after, visit_lines, decided_at};
ghost use Rattle.trace_lines.specs.Parts.{before_of, named_head_words, origin_of, edit_of};
ghost use Rattle.trace_lines.specs.Parts.{words_of_visit, line_of_visit, lines_of_visit};

use crate::before::Before;
use crate::frames::{tell_fields, tell_table};
use crate::look_ups::{push_match, push_miss};
use crate::naming::Naming;
use crate::page::{Page, begin_line, put_line};
use crate::restarts::{chain_after, tell_restart, tell_spent};
use crate::runs::push_run;
use crate::seen_frame::SeenFrame;
use crate::told::Told;
use crate::visit::Visit;
use crate::words::{push_hook_word, push_named, push_point, push_word};
use edit_lines::Origin;
use point_walks::Answered;
use std::alloc::AllocError;
use tc_base::{Hook, NoMemory, Point};
use walk_steps::{Stand, Walk};

/// Tells what stands before a visit: the table, where its first mask is looked at, and the frame's fields,
/// where they are others than those of the look-up before.
///
/// `NoMemory`: memory was refused.
pub fn tell_before(
    page: &mut Page,
    told: Told,
    seen: &mut SeenFrame,
    walk: &Walk,
) -> Result<(), NoMemory>
    ensures lines { OnOk result (page.new
        ≡ page.old ++ joined (lines_before told seen.old walk.now.standing)) }
    ensures seen { OnOk result (seen.new
        ≡ seen_after seen.old walk.now.standing walk.now.standing.place) }
{
    let stand = walk.stand();
    tell_table(page, told, stand)?;
    tell_fields(
        page,
        told,
        stand,
        seen,
        walk.frame().ether_type(),
        walk.key(),
    )?;
    Ok(())
}

fn push_head(line: &mut Vec<u8>, hook: Hook, tables: usize) -> Result<(), AllocError>
    ensures { OnOk result (line.new.items ≡ fold onto line.old.items (named_head_words hook tables)) }
{
    push_word(line, "head")?;
    push_hook_word(line, hook)?;
    push_named(line, "tables", tables as u64)
}

// What was asked for and what came.
fn push_answer<N: Naming>(
    line: &mut Vec<u8>,
    names: &N,
    visit: &Visit<'_>,
    origin: Option<Origin>,
) -> Result<(), AllocError>
    requires { origin ≡ origin_of (N.names names.now) visit.now }
    ensures { OnOk result (line.new.items ≡ fold onto line.old.items
        (words_of_visit (N.names names.now) visit.now)) }
{
    match visit.answered {
        Answered::Tables(tables) => push_head(line, visit.before.hook, tables),
        Answered::NoFilter { mask } => push_miss(line, names, visit.point, mask, visit.key),
        Answered::Filter { mask } => push_match(line, names, visit.point, mask, visit.key, origin),
        Answered::Acted { serial, params } => push_run(line, names, visit, serial, params),
    }
}

// The number of the visit behind so many, from 1.
fn number_behind(visits: u32) -> u64
    ensures { result ≡ visits + 1 }
{
    u64::from(visits) + 1
}

// The line of a visit.
fn tell_answer<N: Naming>(
    page: &mut Page,
    told: Told,
    names: &N,
    visit: &Visit<'_>,
    origin: Option<Origin>,
) -> Result<(), AllocError>
    requires { origin ≡ origin_of (N.names names.now) visit.now }
    ensures { OnOk result (page.new ≡ page.old ++ line_of_visit told (N.names names.now) visit.now) }
{
    begin_line(&mut page.line, told)?;
    push_named(&mut page.line, "visit", number_behind(visit.before.visits))?;
    push_answer(&mut page.line, names, visit, origin)?;
    push_point(&mut page.line, told, visit.point)?;
    put_line(&mut page.text, &page.line)
}

// The lines of a visit, behind which the walk stands there.
fn tell_made<N: Naming>(
    page: &mut Page,
    told: Told,
    names: &N,
    visit: &Visit<'_>,
    stand: Stand,
) -> Result<Option<Point>, AllocError>
    ensures lines { OnOk result (page.new
        ≡ page.old ++ joined (lines_of_visit told (N.names names.now) visit.now stand)) }
    ensures decided { IfOk result (λ edit. edit
        ≡ edit_of (origin_of (N.names names.now) visit.now)) }
{
    let origin = visit.origin(names);
    tell_answer(page, told, names, visit, origin)?;
    tell_restart(page, told, visit.before.restarts, chain_after(visit))?;
    tell_spent(page, told, number_behind(visit.before.visits), stand)?;
    Ok(origin.map(|origin| origin.by.edit))
}

/// Tells a visit that was made and where the walk goes on from, and answers the edit that brought the filter
/// which was met, if one was and its edit is known.
///
/// The walk stands behind the visit, `before` is from before it, and `answered` is what came at that point.
///
/// `NoMemory`: memory was refused.
pub fn tell_visit<N: Naming>(
    page: &mut Page,
    told: Told,
    names: &N,
    walk: &Walk,
    before: Before,
    answered: Answered,
    point: Point,
) -> Result<Option<Point>, NoMemory>
    ensures lines { (st : Standing) (answer : Answer) → before ≡ before_of st
        → answered_from (question_of st) answer ≡ Some answered → walk.now.standing ≡ after st answer
        → OnOk result (page.new ≡ page.old ++ joined (visit_lines told (N.names names.now)
        (record { before = st; answer = answer; point = point }))) }
    ensures decided { (st : Standing) (answer : Answer) → before ≡ before_of st
        → answered_from (question_of st) answer ≡ Some answered → walk.now.standing ≡ after st answer
        → IfOk result (λ edit. edit ≡ decided_at (N.names names.now) point st st.place answer) }
{
    let visit = Visit {
        before,
        answered,
        point,
        key: walk.key(),
        length: walk.frame().bytes().len(),
    };
    let edit = tell_made(page, told, names, &visit, walk.stand())?;
    Ok(edit)
}
