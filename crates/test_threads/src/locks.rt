//! A journal goes from hand to hand, in one thread and in two.
ghost use Rattle.std.specs.Prelude.{◌≡◌, false, IfOk};
ghost use Rattle.thread_lock.specs.Passes.{IsPassOf, has_in_hand, pass_count};

use std::alloc::{AllocError, Global};
use std::sync::Wait;
use std::test::Fail;
use std::thread::{Threads, join, yield_now};
use thread_lock::{Pass, Standing, TurnLock};

// A journal, whose name stays.
#[derive(Drop)]
struct Journal {
    name: u64,
    entries: Vec<u64>,
}

impl Standing for Journal {
    type Root = u64;

    type Item = u64;

    ghost root = { λ j. j.name };

    ghost list = { λ j. j.entries.items };
}

// Puts the entry into the journal so many times, or until there is no memory.
fn write<R: Wait>(
    rt: &R,
    lock: &TurnLock<Journal>,
    mut pass: Pass<u64, u64>,
    entry: u64,
    times: u64,
) -> Pass<u64, u64>
    requires own { IsPassOf (λ j. j.name) lock.now pass × (has_in_hand pass ≡ false) }
    ensures own { IsPassOf (λ j. j.name) lock.now result × (has_in_hand result ≡ false) }
{
    let mut written = 0;
    for _ in rt.forever() {
        if written >= times {
            break;
        }
        let Some(mut journal) = lock.try_take(&mut pass) else {
            yield_now();
            continue;
        };
        let added = journal.entries.push(entry);
        lock.put(&mut pass, journal);
        if added.is_err() {
            break;
        }
        written += 1;
    }
    pass
}

// Two threads write so many entries each.
fn write_both<R: Threads + Wait + Sync>(
    rt: &R,
    lock: &TurnLock<Journal>,
    first: Pass<u64, u64>,
    second: Pass<u64, u64>,
    times: u64,
) -> (Pass<u64, u64>, Pass<u64, u64>)
    requires first { IsPassOf (λ j. j.name) lock.now first × (has_in_hand first ≡ false) }
    requires second { IsPassOf (λ j. j.name) lock.now second × (has_in_hand second ≡ false) }
    ensures first { IsPassOf (λ j. j.name) lock.now result.0 × (has_in_hand result.0 ≡ false) }
    ensures second { IsPassOf (λ j. j.name) lock.now result.1 × (has_in_hand result.1 ≡ false) }
{
    join(
        rt,
        move ||
            requires { IsPassOf (λ j. j.name) lock.now first × (has_in_hand first ≡ false) }
            ensures { IsPassOf (λ j. j.name) lock.entry.now result × (has_in_hand result ≡ false) }
        { write(rt, lock, first, 1, times) },
        move ||
            requires { IsPassOf (λ j. j.name) lock.now second × (has_in_hand second ≡ false) }
            ensures { IsPassOf (λ j. j.name) lock.entry.now result × (has_in_hand result ≡ false) }
        { write(rt, lock, second, 2, times) },
    )
}

// A lock round an empty journal, and its two passes.
fn make(alloc: Global) -> Result<(TurnLock<Journal>, Pass<u64, u64>, Pass<u64, u64>), Fail>
    ensures count { IfOk result (λ r. pass_count r.0 ≡ 2) }
    ensures first { IfOk result (λ r. IsPassOf (λ j. j.name) r.0 r.1 × (has_in_hand r.1 ≡ false)) }
    ensures second { IfOk result (λ r. IsPassOf (λ j. j.name) r.0 r.2 × (has_in_hand r.2 ≡ false)) }
{
    let journal = Journal {
        name: 3,
        entries: Vec::new(alloc),
    };
    let Ok((lock, mut passes)) = TurnLock::make(alloc, journal, 2) else {
        return Err("no memory for the lock")?;
    };
    let second = passes.pop().unwrap();
    let first = passes.pop().unwrap();
    Ok((lock, first, second))
}

fn close(
    alloc: Global,
    lock: TurnLock<Journal>,
    first: Pass<u64, u64>,
    second: Pass<u64, u64>,
) -> Result<Journal, AllocError>
    requires count { pass_count lock ≡ 2 }
    requires first { IsPassOf (λ j. j.name) lock first × (has_in_hand first ≡ false) }
    requires second { IsPassOf (λ j. j.name) lock second × (has_in_hand second ≡ false) }
{
    Ok(lock.close(Vec::from_array(alloc, [first, second])?))
}

#[test]
fn the_second_finds_it_gone(rt: HostRuntime) -> Result<(), Fail> {
    let alloc = rt.alloc();
    let (lock, mut first, mut second) = make(alloc)?;
    let Some(mut journal) = lock.try_take(&mut first) else {
        return Err("the first finds the journal")?;
    };
    if let Some(journal) = lock.try_take(&mut second) {
        lock.put(&mut second, journal);
        return Err("the journal is in the first's hand")?;
    }
    journal.entries.push(7)?;
    lock.put(&mut first, journal);
    let journal = close(alloc, lock, first, second)?;
    assert!(rt; journal.name == 3 && journal.entries.as_slice() == [7].as_slice());
    Ok(())
}

#[test]
fn two_threads_write_a_thousand_each(rt: HostRuntime) -> Result<(), Fail> {
    let alloc = rt.alloc();
    let (lock, first, second) = make(alloc)?;
    let (first, second) = write_both(&rt, &lock, first, second, 1000);
    let journal = close(alloc, lock, first, second)?;
    let mut ones = 0u64;
    for entry in &journal.entries {
        if *entry == 1 {
            ones = ones.saturating_add(1);
        }
    }
    assert!(rt; journal.entries.len() == 2000 && ones == 1000);
    Ok(())
}
