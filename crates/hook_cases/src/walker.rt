//! A walk of a live hook, one visit at a time.

use crate::recorder::{Recorder, Recording};
use std::marker::Model;
use tc_base::Hook;
use walk_steps::{Progress, Walk};

/// A reader inside, with the walk that it answers.
#[derive(Drop)]
pub(crate) struct Walker<'a> {
    recording: Recording<'a>,
    walk: Walk,
    progress: Progress,
}

impl<'a> Model for Walker<'a> {
    ghost use Rattle.std.specs.Prelude.{◌≡◌, ℕ};
    ghost use Rattle.filter_state.specs.Sound.{Each};
    ghost use Rattle.visit_room.specs.declared.names.MaskName.{MaskName};
    ghost use Rattle.walk_steps.specs.declared.walk.Progress.{Progress};
    ghost use Rattle.walk_steps.specs.Told.{MasksKnown};
    ghost use Rattle.walk_steps.specs.Walking.{progress_of};
    ghost use Rattle.hook_reader.specs.Known.{KnowsMask, KnowsAction};

    ghost Value = { Progress };

    ghost view = { λ w. w.progress };

    // The reader knows all that the walk may ask for.
    ghost invariant = { λ w. (w.progress ≡ progress_of w.walk.standing)
        × MasksKnown (λ (table : ℕ) (mask : MaskName). KnowsMask w.recording.reader mask) w.walk.heads
        × Each (KnowsAction w.recording.reader) w.walk.actions };
}

impl<'a> Walker<'a> {
    /// Begins the walk of a frame at the ingress.
    pub(crate) fn begin(recording: Recording<'a>, mut walk: Walk, bytes: &[u8; 42]) -> Walker<'a> {
        walk.begin(Hook::Ingress, bytes);
        Walker {
            recording,
            walk,
            progress: Progress::Going,
        }
    }

    /// Makes a visit, if one is needed.
    pub(crate) fn visit(self) -> Walker<'a> {
        let Walker {
            mut recording,
            mut walk,
            progress,
        } = self;
        if let Progress::Ended = progress {
            return Walker {
                recording,
                walk,
                progress,
            };
        }
        let progress = walk.step(&mut recording);
        Walker {
            recording,
            walk,
            progress,
        }
    }

    /// Goes outside. The walk is as far as it came.
    pub(crate) fn leave(self) -> (Recorder<'a>, Walk, Progress) {
        let Walker {
            recording,
            walk,
            progress,
        } = self;
        (recording.leave(), walk, progress)
    }
}
