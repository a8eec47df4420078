//! Whatever answers was brought.
ghost use Rattle.std.specs.Prelude.{◌≡◌, ◌≢◌, ◌<◌, ◌≤◌, ℕ, suc, List, length, Some, None};
ghost use Rattle.filter_state.specs.States.{Row};
ghost use Rattle.filter_state.specs.Journals.{IsLawful, state_at};
ghost use Rattle.edit_effects.specs.OfEffects.Parts.{params_at};
ghost use Rattle.state_past_laws.specs.OfChanges.Among.{Has};
ghost use Rattle.edit_lines.specs.declared.line.Line.{Line};
ghost use Rattle.filter_origins.specs.Entries.{Entry, edits_of, line_at};
ghost use Rattle.filter_origins.specs.Brought.{row_after, brought_filter, brought_action};
ghost use Rattle.filter_origins.specs.Origins.{origin_at, maker_at};

/// A filter that stands at a point was brought by an edit that was accepted by then, and is the very filter
/// that the edit put: so the handle that is told is its own.
pub fn look_up_has_line()
    ensures { (entries : List Entry) (point : ℕ) (row : Row) → IsLawful (edits_of entries)
        → point ≤ length (edits_of entries) → Has row (state_at point (edits_of entries)).rows
        → (place : ℕ) × (by : Line) × (place < point)
        × (brought_filter (edits_of entries) point row.mask_serial row.key ≡ Some (suc place))
        × (row_after (edits_of entries) place ≡ Some row) × (line_at entries (suc place) ≡ Some by)
        × (origin_at entries point row.mask_serial row.key
        ≡ Some (record { handle = row.handle; by = by })) }
{}

/// An action that is live at a point was brought by an edit that was accepted by then.
pub fn action_has_line()
    ensures { (entries : List Entry) (point serial : ℕ) → IsLawful (edits_of entries)
        → point ≤ length (edits_of entries) → params_at (state_at point (edits_of entries)) serial ≢ None
        → (place : ℕ) × (by : Line) × (place < point)
        × (brought_action (edits_of entries) point serial ≡ Some (suc place))
        × (line_at entries (suc place) ≡ Some by) × (maker_at entries point serial ≡ Some by) }
{}
