//! Numbers that threads draw.
ghost use Rattle.std.specs.Prelude.{◌≡◌, ◌<◌, ◌≤◌, [], length};

use crate::same::same;
use std::alloc::{AllocError, Global};
use std::test::Fail;
use std::thread::{Threads, join};
use step_counts::{ClaimSeat, Claims, make_claims};

// As many numbers as each thread draws.
const DRAWN: usize = 50;

// Draws, and gives the numbers with the seat.
fn draw_all(claims: &Claims, mut seat: ClaimSeat) -> ([u64; DRAWN], ClaimSeat)
    requires making { seat.making ≡ claims.now }
    requires bare { seat.deeds ≡ [] }
    ensures making { result.1.making ≡ claims.now }
    ensures drawn { length result.1.deeds ≡ 50 }
{
    let mut numbers = [0; DRAWN];
    for at in 0..DRAWN {
        numbers[at] = claims.draw(&mut seat);
    }
    (numbers, seat)
}

// The same on two threads at once.
fn draw_twice<R: Threads + Sync>(
    rt: &R,
    claims: &Claims,
    one: ClaimSeat,
    two: ClaimSeat,
) -> (([u64; DRAWN], ClaimSeat), ([u64; DRAWN], ClaimSeat))
    requires one { (one.making ≡ claims.now) × (one.deeds ≡ []) }
    requires two { (two.making ≡ claims.now) × (two.deeds ≡ []) }
    ensures one { (result.0.1.making ≡ claims.now) × (length result.0.1.deeds ≡ 50) }
    ensures two { (result.1.1.making ≡ claims.now) × (length result.1.1.deeds ≡ 50) }
{
    join(rt, || draw_all(claims, one), || draw_all(claims, two))
}

// The numbers that four threads drew, in order.
fn in_order(alloc: Global, drawn: [&[u64; DRAWN]; 4]) -> Result<Vec<u64>, AllocError> {
    let [one, two, three, four] = drawn;
    let mut numbers = Vec::with_capacity(alloc, 4 * DRAWN)?;
    numbers.extend_from_slice(one)?;
    numbers.extend_from_slice(two)?;
    numbers.extend_from_slice(three)?;
    numbers.extend_from_slice(four)?;
    numbers.sort()?;
    Ok(numbers)
}

// Whatever the schedule, the numbers of four threads are 0 to 199, and the next is 200.
#[test]
fn threads_draw_each_number_once(rt: HostRuntime) -> Result<(), Fail> {
    let (claims, mut seats) = make_claims(rt.alloc(), 4)?;
    let (Some(a), Some(b), Some(c), Some(d)) = (
        seats.take(),
        seats.take(),
        seats.take(),
        seats.take(),
    ) else {
        return Err(Fail::from("a seat is missing"));
    };
    assert!(rt; seats.take().is_none(), "a fifth seat");
    let (((one, mut all), two), (three, four)) = join(
        &rt,
        || draw_twice(&rt, &claims, a, b),
        || draw_twice(&rt, &claims, c, d),
    );
    claims.give_back(&mut all, two.1);
    claims.give_back(&mut all, three.1);
    claims.give_back(&mut all, four.1);
    same(&rt, claims.draw(&mut all), 200);
    drop((claims, all));
    let numbers = in_order(rt.alloc(), [&one, &two.0, &three.0, &four.0])?;
    for (at, number) in numbers.iter().enumerate() {
        same(&rt, *number, at as u64);
    }
    Ok(())
}
