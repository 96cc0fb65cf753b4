//! Numbers go through a lane, in one thread and from one thread to another.
ghost use Rattle.std.specs.Prelude.{◌≡◌, ◌≤◌, ◌<◌, ◌^◌, ◌++◌, [], length, OnOk, IfOk};
ghost use Rattle.thread_lane.specs.Lane.{put_list, taken_list, rest_list, spare, IsLane, SameIn};

use base::NoMemory;
use std::alloc::Global;
use std::sync::Wait;
use std::test::Fail;
use std::thread::{join, yield_now};
use thread_lane::{LaneIn, LaneOut, lane, settle};

// A lane with room for so many items.
fn make(alloc: Global, n: usize) -> Result<(LaneIn<u64>, LaneOut<u64>), NoMemory>
    ensures lane { IfOk result (λ r. IsLane r.0 r.1) }
    ensures room { IfOk result (λ r. (n ≤ spare r.0) × (put_list r.0 ≡ [])) }
{
    let (mut a, b) = lane(alloc)?;
    a.room(n)?;
    Ok((a, b))
}

// Puts the numbers below n.
fn put_numbers(a: &mut LaneIn<u64>, n: u64)
    requires { (n ≤ spare a.old) × (put_list a.old ≡ []) × (n < 2 ^ 62) }
    ensures { SameIn a.old a.new }
{
    for i in 0..n {
        a.put(i);
    }
}

// Takes until nothing comes, and says how many of the numbers from 0 on came in order.
fn take_numbers<R: Wait>(rt: &R, b: &mut LaneOut<u64>, most: u64) -> u64 {
    let mut got = 0;
    for i in 0..most {
        if b.look(rt).copied() != Some(i) || b.take(rt) != Some(i) {
            break;
        }
        got = i + 1;
    }
    got
}

// Takes all of the rest, and says how many items that were. After it everything that was put is taken.
fn take_rest<R: Wait>(rt: &R, a: &LaneIn<u64>, b: &mut LaneOut<u64>) -> u64
    requires { taken_list b.old ++ rest_list b.old ≡ put_list a.now }
    ensures { (taken_list b.new ≡ put_list a.now) × (rest_list b.new ≡ []) }
{
    let mut count: u64 = 0;
    while b.has_rest() {
        b.take(rt);
        count = count.saturating_add(1);
    }
    count
}

#[test]
fn all_that_was_settled_is_taken(rt: HostRuntime) -> Result<(), Fail> {
    let Ok((mut a, mut b)) = make(rt.alloc(), 300) else {
        return Err("no memory")?;
    };
    put_numbers(&mut a, 300);
    assert!(rt; !b.has_rest());
    if settle(&mut a, &mut b).is_err() {
        return Err("no memory")?;
    }
    assert!(rt; b.has_rest() && take_rest(&rt, &a, &mut b) == 300);
    assert!(rt; !b.has_rest() && b.take(&rt).is_none());
    Ok(())
}

#[test]
fn two_are_settled(rt: HostRuntime) -> Result<(), Fail> {
    let Ok((mut a, mut b)) = make(rt.alloc(), 2) else {
        return Err("no memory")?;
    };
    a.put(1);
    a.put(2);
    if settle(&mut a, &mut b).is_err() {
        return Err("no memory")?;
    }
    assert!(rt; b.take(&rt) == Some(1));
    assert!(rt; b.take(&rt) == Some(2));
    assert!(rt; b.take(&rt) == None);
    Ok(())
}

#[test]
fn more_than_the_ring_holds(rt: HostRuntime) -> Result<(), Fail> {
    let Ok((mut a, mut b)) = make(rt.alloc(), 300) else {
        return Err("no memory")?;
    };
    put_numbers(&mut a, 300);
    a.flush();
    assert!(rt; a.has_waiting() && !a.is_used_up());
    if settle(&mut a, &mut b).is_err() {
        return Err("no memory")?;
    }
    assert!(rt; take_numbers(&rt, &mut b, 300) == 300);
    assert!(rt; b.look(&rt).is_none() && b.take(&rt).is_none());
    Ok(())
}

// Puts the numbers below n, flushing after each, and stays until all are in the ring.
fn put_through<R: Wait>(rt: &R, mut a: LaneIn<u64>, n: u64)
    requires { (n ≤ spare a) × (put_list a ≡ []) × (n < 2 ^ 62) }
{
    for i in 0..n {
        a.put(i);
        a.flush();
    }
    for _ in rt.forever() {
        if !a.has_waiting() {
            break;
        }
        a.flush();
        yield_now();
    }
}

// Takes n numbers, and says whether they came in order from 0.
fn take_through<R: Wait>(rt: &R, mut b: LaneOut<u64>, n: u64) -> bool {
    let mut next = 0;
    let mut in_order = true;
    for _ in rt.forever() {
        if next >= n {
            break;
        }
        match b.take(rt) {
            Some(x) => {
                in_order = in_order && x == next;
                next += 1;
            }
            None => yield_now(),
        }
    }
    in_order
}

#[test]
fn a_hundred_thousand_in_order(rt: HostRuntime) -> Result<(), Fail> {
    let Ok((a, b)) = make(rt.alloc(), 100_000) else {
        return Err("no memory")?;
    };
    let (_put, in_order) = join(
        &rt,
        || put_through(&rt, a, 100_000),
        || take_through(&rt, b, 100_000),
    );
    assert!(rt; in_order);
    Ok(())
}
