//! What stands in slots and under masks, when rows have gone on.
ghost use Rattle.std.specs.Prelude.{◌≡◌, ℕ, List, [], Option, Some, None, false};
ghost use Rattle.filter_state.specs.States.{Row, State};
ghost use Rattle.filter_state.specs.Order.{of_mask, SameState};
ghost use Rattle.filter_state.specs.Sound.{Sound};
ghost use Rattle.filter_state.specs.Tables.{mask_row};
ghost use Rattle.edit_effects.specs.OfEffects.Parts.{words_of, params_at};
ghost use Rattle.state_past_laws.specs.Slots.{is_slot, slot_in};
ghost use Rattle.state_past_laws.specs.OfChanges.Among.{Has};
ghost use Rattle.state_past_laws.specs.OfChanges.Going.{GoesOn};

/// The row that comes stands in its slot. Where a row went and none came, nothing stands. All other slots are
/// as they were.
pub fn slots_go_on()
    ensures comes { (s t : State) (going : List Row) (come : Option Row) → Sound s → Sound t
        → GoesOn s.rows t.rows going come → (row : Row) → come ≡ Some row
        → slot_in t.rows row.mask_serial row.key ≡ Some row.actions }
    ensures goes { (s t : State) (going : List Row) (come : Option Row) → Sound s → Sound t
        → GoesOn s.rows t.rows going come → (gone : Row) → Has gone going
        → ((row : Row) → come ≡ Some row → is_slot gone.mask_serial gone.key row ≡ false)
        → slot_in t.rows gone.mask_serial gone.key ≡ None }
    ensures stays { (s t : State) (going : List Row) (come : Option Row) → Sound s → Sound t
        → GoesOn s.rows t.rows going come → (mask : ℕ) (key : List ℕ)
        → ((gone : Row) → Has gone going → is_slot mask key gone ≡ false)
        → ((row : Row) → come ≡ Some row → is_slot mask key row ≡ false)
        → slot_in t.rows mask key ≡ slot_in s.rows mask key }
{}

/// The mask of the row that comes has its words, and is found by them in the row's table. The mask of a row
/// that went is gone where its table has none with its words, and else it has them still. All others are as
/// they were.
pub fn masks_go_on()
    ensures comes { (s t : State) (going : List Row) (come : Option Row) → Sound s → Sound t
        → GoesOn s.rows t.rows going come → (row : Row) → come ≡ Some row
        → words_of t row.mask_serial ≡ row.mask }
    ensures found { (s t : State) (going : List Row) (come : Option Row) → Sound s → Sound t
        → GoesOn s.rows t.rows going come → (row its : Row) → come ≡ Some row
        → mask_row row.hook row.chain row.pref row.mask t.rows ≡ Some its
        → its.mask_serial ≡ row.mask_serial }
    ensures goes { (s t : State) (going : List Row) (come : Option Row) → Sound s → Sound t
        → GoesOn s.rows t.rows going come → (gone : Row) → Has gone going
        → mask_row gone.hook gone.chain gone.pref gone.mask t.rows ≡ None
        → words_of t gone.mask_serial ≡ [] }
    ensures left { (s t : State) (going : List Row) (come : Option Row) → Sound s → Sound t
        → GoesOn s.rows t.rows going come → (gone its : Row) → Has gone going
        → mask_row gone.hook gone.chain gone.pref gone.mask t.rows ≡ Some its
        → words_of t gone.mask_serial ≡ gone.mask }
    ensures stays { (s t : State) (going : List Row) (come : Option Row) → Sound s → Sound t
        → GoesOn s.rows t.rows going come → (mask : ℕ)
        → ((gone : Row) → Has gone going → of_mask mask gone ≡ false)
        → ((row : Row) → come ≡ Some row → of_mask mask row ≡ false)
        → words_of t mask ≡ words_of s mask }
{}

/// States that differ in nothing but the order between rows of different masks have the same in all slots,
/// under all masks and of all actions.
pub fn order_hides_nothing()
    ensures slots { (s t : State) → Sound s → SameState s t → (mask : ℕ) (key : List ℕ)
        → slot_in t.rows mask key ≡ slot_in s.rows mask key }
    ensures masks { (s t : State) → Sound s → SameState s t → (mask : ℕ)
        → words_of t mask ≡ words_of s mask }
    ensures actions { (s t : State) → SameState s t → (serial : ℕ)
        → params_at t serial ≡ params_at s serial }
{}
