//! The theorems of the store, as laws over every state that a store can be in.
ghost use Rattle.std.specs.Prelude.{◌≡◌, ◌≢◌, ℕ, ◌+◌, ◌*◌, ◌%◌, ◌^◌, ◌<◌, ◌≤◌, List, [], ◌∷◌, ◌++◌};
ghost use Rattle.std.specs.Prelude.{slice_get, replicate, Some, true, false};
ghost use mathlib.Core.Option.{some};
ghost use lib.ListN.{get_elem?};
ghost use Rattle.atomic_table.specs.Table.{State, Me, Splits, Joins, opening};
ghost use Rattle.store_history.specs.declared.history.Link.{Link};
ghost use Rattle.store_history.specs.declared.history.Commit.{Commit};
ghost use Rattle.store_history.specs.History.{word_of, IsNamed, IsLinked};
ghost use Rattle.pin_store.specs.declared.shape.Shape.{Shape};
ghost use Rattle.pin_store.specs.declared.view.View.{View};
ghost use Rattle.pin_store.specs.declared.view.Floor.{Floor};
ghost use Rattle.pin_store.specs.Layout.{cell_count, epoch_at, pin_at, word_count, block_words};
ghost use Rattle.pin_store.specs.Sheets.{base_of};
ghost use Rattle.pin_store.specs.Rule.{IsKept, opening_view};
ghost use Rattle.pin_store.specs.Kinds.{Fills, Commits, LoadsRoot, LoadsWord, Raises, LoadsEpoch, Bumps};
ghost use Rattle.pin_store.specs.Kinds.{LoadsPin, Meets, receipt_view, reader_view, counted_view};
ghost use Rattle.pin_store.specs.Kinds.{joined_view, spent_view, KeepsAtStore, KeepsAtLoad};
ghost use Rattle.pin_store.specs.Calls.{IsUnnamed};

use store_history::Law;

/// The rule holds of a new store, and each kind of step keeps it, in whatever state the step meets the store.
/// So it holds between any two steps of any threads, in every order.
///
/// Each clause is one kind of step: what the seat that makes it must know, and that the rule holds
/// afterwards. A seat is cut in two for a receipt and for the next reader, which are two clauses.
pub fn steps_keep_the_rule<L: Law>()
    ensures new_store { (shape : Shape) → 0 < shape.words → word_count shape < 2 ^ 31
        → IsKept L.keeps shape (opening (replicate (word_count shape) 0) [] (opening_view shape)) }
    ensures fill { (shape : Shape) (slots seat : ℕ) (me : Me (Unit {0}) (View L.Entry)) (block i word : ℕ)
        → me.0.writes ≡ true → block < shape.blocks → i < shape.words
        → IsUnnamed (base_of me.0.sheet) me.0.seen block
        → KeepsAtStore L.keeps shape Fills slots seat me (block * shape.words + i) word }
    ensures commit { (shape : Shape) (slots seat : ℕ) (me : Me (Unit {0}) (View L.Entry)) (c : Commit L.Entry)
        (word : ℕ)
        → me.0.writes ≡ true → c.root < shape.roots → word ≡ word_of c.named
        → ((place : ℕ) (l : Link) → slice_get c.named.chain place ≡ Some l
        → (l.block < shape.blocks) × (l.words ≡ block_words shape me.0.sheet.cells l.block))
        → IsLinked shape.words c.named.chain → L.keeps (me.0.seen ++ c ∷ []) (base_of me.0.sheet)
        → KeepsAtStore L.keeps shape (Commits c) slots seat me (cell_count shape + c.root) word }
    ensures load_root { (shape : Shape) (slots seat : ℕ) (me : Me (Unit {0}) (View L.Entry)) (i root : ℕ)
        → me.0.shape ≡ shape → me.0.number ≡ i + 1 → me.0.writes ≡ false → root < shape.roots
        → KeepsAtLoad L.keeps shape (LoadsRoot L.keeps) slots seat me (cell_count shape + root) }
    ensures load_word { (shape : Shape) (slots seat : ℕ) (me : Me (Unit {0}) (View L.Entry)) (at i : ℕ)
        → me.0.shape ≡ shape → me.0.number ≡ i + 1
        → KeepsAtLoad L.keeps shape LoadsWord slots seat me at }
    ensures split_receipt { (shape : Shape) (seat : ℕ) (v : View L.Entry)
        → Splits (IsKept L.keeps shape) seat v v (receipt_view v) }
    ensures split_reader { (shape : Shape) (seat : ℕ) (v : View L.Entry)
        → v.writes ≡ true → v.sheet.made < shape.readers
        → Splits (IsKept L.keeps shape) seat v (counted_view v) (reader_view v) }
    ensures join { (shape : Shape) (seat : ℕ) (v : View L.Entry) (other : ℕ) (w : View L.Entry)
        → Joins (IsKept L.keeps shape) seat v other w (joined_view v w) spent_view }
    ensures meet { (shape : Shape) (slots seat : ℕ) (me : Me (Unit {0}) (View L.Entry)) (at : ℕ)
        → KeepsAtLoad L.keeps shape Meets slots seat me at }
    ensures raise_to_odd { (shape : Shape) (slots seat : ℕ) (me : Me (Unit {0}) (View L.Entry)) (i pin : ℕ)
        → me.0.number ≡ i + 1 → me.0.writes ≡ false → me.0.pin % 2 ≡ 0 → pin ≡ me.0.pin + 1
        → KeepsAtStore L.keeps shape Raises slots seat me (pin_at shape i) pin }
    ensures load_epoch { (shape : Shape) (slots seat : ℕ) (me : Me (Unit {0}) (View L.Entry)) (i : ℕ)
        → me.0.number ≡ i + 1 → me.0.writes ≡ false → me.0.pin % 2 ≡ 1
        → KeepsAtLoad L.keeps shape LoadsEpoch slots seat me (epoch_at shape) }
    ensures raise_to_even { (shape : Shape) (slots seat : ℕ) (me : Me (Unit {0}) (View L.Entry)) (i pin : ℕ)
        → me.0.number ≡ i + 1 → me.0.writes ≡ false → me.0.pin % 2 ≡ 1 → pin ≡ me.0.pin + 1
        → KeepsAtStore L.keeps shape Raises slots seat me (pin_at shape i) pin }
    ensures bump { (shape : Shape) (slots seat : ℕ) (me : Me (Unit {0}) (View L.Entry)) (epoch : ℕ)
        → me.0.writes ≡ true → 0 < shape.readers → epoch ≡ me.0.sheet.epoch + 1
        → KeepsAtStore L.keeps shape Bumps slots seat me (epoch_at shape) epoch }
    ensures load_pin { (shape : Shape) (slots seat : ℕ) (me : Me (Unit {0}) (View L.Entry)) (i : ℕ)
        → me.0.shape ≡ shape → me.0.writes ≡ true → i < shape.readers
        → KeepsAtLoad L.keeps shape LoadsPin slots seat me (pin_at shape i) }
{}

/// A block that may be filled is in no chain that a reader inside may load: none that was named since the
/// reader's floor, as far as the reader has seen.
pub fn filled_blocks_are_free<L: Law>()
    ensures { (shape : Shape) (s : State (Unit {0}) (View L.Entry)) (kept : IsKept L.keeps shape s)
        (block : ℕ)
        → IsUnnamed (base_of kept.sheet) kept.history block
        → (seat i : ℕ) (v : View L.Entry) (f : Floor) → get_elem? s.views seat ≡ some v → v.number ≡ i + 1
        → v.floor ≡ Some f
        → IsUnnamed f.start v.seen block }
{}
