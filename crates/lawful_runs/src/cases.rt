//! Small cases, as they were worked out by hand.
ghost use Rattle.std.specs.Prelude.{◌≡◌, true, false, [], ◌∷◌};
ghost use Rattle.lawful_runs.specs.Events.{IsThrough, AreInOrder};
ghost use Rattle.walk_rules.specs.OfPoints.Points.{AreLawfulPoints};
ghost use Rattle.lawful_runs.specs.Points.{seen_by};
ghost use Rattle.lawful_runs.specs.Outcomes.{AreWalked};
ghost use Rattle.lawful_runs.specs.Lawful.{IsLawfulRun, IsLawfulReport};
ghost use Rattle.lawful_runs.specs.Cases.{head_at, mask_at, action_at, commands, accepted, refused};
ghost use Rattle.lawful_runs.specs.Cases.{two_batches, empty_packet, walked_by, three_edits};
ghost use Rattle.lawful_runs.specs.WorkedRun.{worked_job, worked_run, worked_report};

/// Which parts of runs are lawful, and which aren't.
pub fn worked_cases()
    // the points of a walk: another mask or action may fall, down to the head's point
    ensures lawful { AreLawfulPoints 2 3 (head_at 2 ∷ mask_at 5 3 ∷ action_at 7 3 ∷ []) }
    ensures below_floor { AreLawfulPoints 2 3 (head_at 1 ∷ mask_at 5 3 ∷ []) → ⊥ }
    ensures past_ceiling { AreLawfulPoints 2 3 (head_at 2 ∷ mask_at 5 4 ∷ []) → ⊥ }
    ensures below_head { AreLawfulPoints 2 3 (head_at 3 ∷ mask_at 5 2 ∷ []) → ⊥ }
    ensures mask_falls { AreLawfulPoints 2 3 (head_at 2 ∷ mask_at 5 3 ∷ mask_at 5 2 ∷ []) → ⊥ }
    ensures other_mask_falls { AreLawfulPoints 2 3 (head_at 2 ∷ mask_at 5 3 ∷ mask_at 6 2 ∷ []) }
    ensures action_falls { AreLawfulPoints 2 3 (head_at 2 ∷ action_at 7 3 ∷ mask_at 5 2 ∷ action_at 7 2 ∷ [])
        → ⊥ }

    // a batch ends at its first refused line, and where it is forced at its last line; it leaves no line out
    ensures to_the_end { IsThrough false commands (accepted 1 1 ∷ accepted 1 2 ∷ accepted 1 4 ∷ []) }
    ensures stopped { IsThrough false commands (accepted 1 1 ∷ refused 1 2 ∷ []) }
    ensures past_the_stop { IsThrough false commands (accepted 1 1 ∷ refused 1 2 ∷ accepted 1 4 ∷ []) → ⊥ }
    ensures forced { IsThrough true commands (accepted 1 1 ∷ refused 1 2 ∷ accepted 1 4 ∷ []) }
    ensures forced_stopped { IsThrough true commands (accepted 1 1 ∷ refused 1 2 ∷ []) → ⊥ }
    ensures left_out { IsThrough false commands (accepted 1 1 ∷ accepted 1 4 ∷ []) → ⊥ }
    ensures cut_off { IsThrough false commands (accepted 1 1 ∷ []) → ⊥ }

    // the lines of two controls lie between each other's, each control's in order
    ensures interleaved { AreInOrder two_batches (accepted 2 1 ∷ accepted 1 1 ∷ refused 2 2 ∷ refused 1 2
        ∷ []) }
    ensures out_of_order { AreInOrder two_batches (accepted 2 1 ∷ accepted 1 2 ∷ refused 2 2 ∷ refused 1 1
        ∷ []) → ⊥ }

    // a walk's head is no older than what its worker has seen; what another worker saw doesn't count
    ensures own_points { seen_by 1 (walked_by 1 (2 ∷ 4 ∷ 3 ∷ []) ∷ walked_by 2 (9 ∷ []) ∷ walked_by 1 (3 ∷ [])
        ∷ []) ≡ 4 }
    ensures two_workers { AreWalked 2 three_edits 2 3 [] (empty_packet ∷ empty_packet ∷ [])
        (walked_by 1 (3 ∷ []) ∷ walked_by 2 (2 ∷ []) ∷ []) }
    ensures one_worker { AreWalked 2 three_edits 2 3 [] (empty_packet ∷ empty_packet ∷ [])
        (walked_by 1 (3 ∷ []) ∷ walked_by 1 (2 ∷ []) ∷ []) → ⊥ }
    ensures seen_before { AreWalked 2 three_edits 2 3 (walked_by 1 (3 ∷ []) ∷ []) (empty_packet ∷ [])
        (walked_by 1 (2 ∷ []) ∷ []) → ⊥ }
{}

/// A small job's run, with an edit between two visits of a walk, is lawful, and so is its report.
pub fn worked_run_is_lawful()
    ensures run { IsLawfulRun worked_job worked_run }
    ensures report { IsLawfulReport worked_job worked_report }
{}
