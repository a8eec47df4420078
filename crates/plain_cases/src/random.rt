//! Walks beside their twins.
use crate::batches::{batch, long_batch};
use crate::dice::Dice;
use crate::frames::frame;
use crate::twin::{self, Met};
use batch_run::{line_past_limit, run_batch};
use classify_walk::walk_still;
use filter_lists::Lists;
use frame_edit::Meta;
use plain_walk::PlainWalk;
use std::alloc::Global;
use tc_base::{Hook, NoMemory};
use tc_words::lines;
use walk_rules::Verdict;
use walk_steps::Walk;

// A walk by visits, and one without.
#[derive(Drop)]
struct Walks {
    visiting: Walk,
    plain: PlainWalk,
}

impl Walks {
    fn with_room(alloc: Global) -> Result<Walks, NoMemory> {
        Ok(Walks {
            visiting: Walk::with_room(alloc)?,
            plain: PlainWalk::with_room(alloc)?,
        })
    }
}

// Whether a walk that left this met the same.
fn is_twin(verdict: Verdict, bytes: &[u8], meta: Meta, executed: &[(u32, u32)], met: &Met) -> bool {
    matches!(verdict, Verdict::Drop) == met.dropped
        && bytes == met.frame.bytes.as_slice()
        && meta.priority == met.frame.priority
        && meta.mark == met.frame.mark
        && meta.queue == met.frame.queue
        && executed == met.executed.as_slice()
}

// Whether both walks of a short frame are the twin's.
fn agrees(
    alloc: Global,
    walks: &mut Walks,
    lists: &Lists,
    hook: Hook,
    bytes: &[u8],
) -> Result<bool, NoMemory> {
    if bytes.len() > 262_144 {
        return Ok(false);
    }
    let met = twin::walk(alloc, lists, hook, bytes)?;
    let visiting = &mut walks.visiting;
    walk_still(visiting, lists, 0, hook, bytes);
    let frame = visiting.frame();
    if !is_twin(
        visiting.verdict(),
        frame.bytes(),
        frame.meta(),
        visiting.executed(),
        &met,
    ) {
        return Ok(false);
    }
    let plain = &mut walks.plain;
    plain.run(lists, hook, bytes);
    Ok(is_twin(
        plain.verdict(),
        plain.bytes(bytes),
        plain.meta(),
        plain.executed(),
        &met,
    ))
}

// Whether ten frames agree at a random hook each.
fn ten_agree(
    alloc: Global,
    walks: &mut Walks,
    dice: &mut Dice,
    lists: &Lists,
) -> Result<bool, NoMemory> {
    for _ in 0..10_usize {
        let bytes = frame(alloc, dice)?;
        let hook = if dice.below(4) == 0 {
            Hook::Egress
        } else {
            Hook::Ingress
        };
        if !agrees(alloc, walks, lists, hook, &bytes)? {
            return Ok(false);
        }
    }
    Ok(true)
}

// Whether each line of a batch is accepted, and the walks over what it leaves agree.
fn batch_agrees(
    alloc: Global,
    walks: &mut Walks,
    dice: &mut Dice,
    text: &[u8],
) -> Result<bool, NoMemory> {
    let texts = lines(alloc, text)?;
    if line_past_limit(&texts).is_some() {
        return Ok(false);
    }
    let run = run_batch(alloc, &texts)?;
    Ok(run.stop.is_none() && ten_agree(alloc, walks, dice, &run.lists)?)
}

// Whether 400 random batches agree.
fn random_batches_agree(
    alloc: Global,
    walks: &mut Walks,
    dice: &mut Dice,
) -> Result<bool, NoMemory> {
    for _ in 0..400_usize {
        let text = batch(alloc, dice)?;
        if !batch_agrees(alloc, walks, dice, &text)? {
            return Ok(false);
        }
    }
    Ok(true)
}

#[test]
fn random_walks_are_their_twins(rt: HostRuntime) -> Result<(), NoMemory> {
    let mut walks = Walks::with_room(rt.alloc())?;
    let agree = random_batches_agree(rt.alloc(), &mut walks, &mut Dice { seed: 2026 });
    drop(walks);
    assert!(rt; agree?);
    Ok(())
}

// Whether batches of many tables agree. Up to 226 tables the restarts run out before the visits do, and from
// 227 on the other way round.
fn long_batches_agree(alloc: Global, walks: &mut Walks, dice: &mut Dice) -> Result<bool, NoMemory> {
    for tables in 225..229_usize {
        let text = long_batch(alloc, tables)?;
        if !batch_agrees(alloc, walks, dice, &text)? {
            return Ok(false);
        }
    }
    Ok(true)
}

#[test]
fn long_walks_are_their_twins(rt: HostRuntime) -> Result<(), NoMemory> {
    let mut walks = Walks::with_room(rt.alloc())?;
    let agree = long_batches_agree(rt.alloc(), &mut walks, &mut Dice { seed: 1 });
    drop(walks);
    assert!(rt; agree?);
    Ok(())
}
