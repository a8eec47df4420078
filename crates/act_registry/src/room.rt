//! Putting elements where room was reserved, which no want of memory can refuse.
ghost use Rattle.std.specs.Prelude.{◌≡◌, ◌<◌, ◌≤◌, ◌++◌, ◌∷◌, [], length, vec_capacity};
ghost use Rattle.std.specs.List.{insert};

/// Puts an element at that place, and moves those from there on.
pub(crate) fn insert_within<T: Drop>(items: &mut Vec<T>, place: usize, item: T)
    requires room { length items.old.items < vec_capacity items.old }
    requires place { place ≤ length items.old.items }
    ensures items { items.new.items ≡ insert items.old.items place item }
    ensures capacity { vec_capacity items.new ≡ vec_capacity items.old }
{
    match items.insert(place, item) {
        Ok(()) => {}
        Err(_) => unreachable!(),
    }
}

/// Puts an element behind the others. std's `push` leaves open whether the capacity stays, and its `insert`
/// does not.
pub(crate) fn push_within<T: Drop>(items: &mut Vec<T>, item: T)
    requires { length items.old.items < vec_capacity items.old }
    ensures items { items.new.items ≡ items.old.items ++ item ∷ [] }
    ensures capacity { vec_capacity items.new ≡ vec_capacity items.old }
{
    let end = items.len();
    insert_within(items, end, item);
}
