//! What a desk and a reader do in turn.

use crate::editor::{Counts, Editor, new_hook};
use crate::lines::Line;
use crate::log::Log;
use crate::player::{Act, Player};
use crate::recorder::Recorder;
use crate::trouble::Trouble;
use shared_hook::ApplyFault;
use std::alloc::Global;
use std::thread::Threads;
use tc_base::Point;
use walk_rules::Verdict;
use walk_steps::{Progress, Walk};

/// What comes next.
#[derive(Clone, Copy)]
pub(crate) enum Turn<'a> {
    /// The reader does something, in a thread of its own.
    Reader(Act),
    /// The desk accepts the edits of these lines.
    Lines(&'a [&'a str]),
    /// The desk accepts the edit of a line so often.
    Often(&'a str, u32),
    /// The desk doesn't accept the edit of a line, for this reason.
    Fails(&'a str, ApplyFault),
    /// The desk tidies, and all that left is free.
    Tidy,
    /// The desk counts this.
    Counts(Counts),
}

/// Turns, and what has to come of the reader's walk: the points of its visits, the serial of each action that
/// ran with the frame's length, and the verdict.
#[derive(Clone, Copy)]
pub(crate) struct Script<'a> {
    pub(crate) about: &'a str,
    pub(crate) turns: &'a [Turn<'a>],
    pub(crate) points: &'a [Point],
    pub(crate) executed: &'a [(u32, u32)],
    pub(crate) verdict: Verdict,
}

impl Script<'_> {
    /// Whether a walk is the one that has to come.
    pub(crate) fn fits(&self, walk: &Walk) -> bool {
        walk.points() == self.points
            && walk.executed() == self.executed
            && walk.verdict() == self.verdict
    }
}

fn apply_lines(alloc: Global, editor: &mut Editor<'_>, texts: &[&str]) -> Result<(), Trouble> {
    for text in texts {
        editor.expect(&Line::read(alloc, text.as_bytes())?, None)?;
    }
    Ok(())
}

fn apply_often(
    alloc: Global,
    editor: &mut Editor<'_>,
    text: &str,
    times: u32,
) -> Result<(), Trouble> {
    let line = Line::read(alloc, text.as_bytes())?;
    for _ in 0..times {
        editor.expect(&line, None)?;
    }
    Ok(())
}

// What the desk does in a turn.
fn take_at_desk(alloc: Global, editor: &mut Editor<'_>, turn: &Turn<'_>) -> Result<(), Trouble> {
    match *turn {
        Turn::Reader(_) => Ok(()),
        Turn::Lines(texts) => apply_lines(alloc, editor, texts),
        Turn::Often(text, times) => apply_often(alloc, editor, text, times),
        Turn::Fails(text, fault) => {
            editor.expect(&Line::read(alloc, text.as_bytes())?, Some(fault))
        }
        Turn::Tidy => editor.free_all(),
        Turn::Counts(counts) => editor.count(counts),
    }
}

// Takes turns up to the first that doesn't go as it has to.
fn take_turns<'a, R: Threads + Sync>(
    rt: &R,
    alloc: Global,
    editor: &mut Editor<'_>,
    mut player: Player<'a>,
    turns: &[Turn<'_>],
) -> (Player<'a>, Result<(), Trouble>) {
    for turn in turns {
        if let Turn::Reader(act) = *turn {
            player = player.act_apart(rt, act);
        }
        if let Err(trouble) = take_at_desk(alloc, editor, turn) {
            return (player, Err(trouble));
        }
    }
    (player, Ok(()))
}

// The walk of the reader, when all turns were taken.
fn play_to_end<R: Threads + Sync>(
    rt: &R,
    alloc: Global,
    editor: &mut Editor<'_>,
    player: Player<'_>,
    turns: &[Turn<'_>],
) -> Result<Walk, Trouble> {
    let (player, played) = take_turns(rt, alloc, editor, player, turns);
    let walk = player.into_walk();
    played?;
    walk
}

/// The walk that comes of a script, on a hook of its own, which begins without a qdisc. The reader is outside
/// at the end, and its walk came to an end.
pub(crate) fn play<R: Threads + Sync>(
    rt: &R,
    alloc: Global,
    turns: &[Turn<'_>],
) -> Result<Walk, Trouble> {
    let walk = Walk::with_room(alloc)?;
    let (store, desk, reader) = new_hook(alloc)?;
    let mut editor = Editor {
        store: &store,
        desk,
    };
    let recorder = Recorder {
        store: &store,
        reader,
        log: Log::new(alloc),
        pins: 0,
    };
    let player = Player::Outside(recorder, walk, Progress::Ended);
    let walk = play_to_end(rt, alloc, &mut editor, player, turns);
    drop(editor);
    drop(store);
    walk
}
