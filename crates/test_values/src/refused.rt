//! Tests pools whose memory is refused: the item comes back, all is as before, and the next call keeps it.
//!
//! No allocation is refused by itself. `rt try --test --fail-alloc N` refuses the Nth, and a row asks for more room than there is.
use crate::pooled::{Kept, listed};
use base_pool::Pool;
use filter_covering::{Ad, Sub};
use std::alloc::Global;
use std::rt::HostRuntime;
use test_support::RowFault;

/// Filters, which are advertisements too, as texts.
const TEXTS: [&str; 6] = [
    "x int > 4",
    "x int > 2",
    "y int > 1",
    "x int > 4",
    "x int > 3",
    "x int > 2",
];

/// The distinct ones in their order.
const LIST: &[u8] = b"x int > 2, x int > 3, x int > 4, y int > 1";

/// The item of a text, which is read once more where memory was refused.
fn item<T: Kept>(alloc: Global, text: &str) -> Result<T, RowFault> {
    match T::read(alloc, text) {
        Ok(item) => Ok(item),
        Err(_) => T::read(alloc, text),
    }
}

/// The items of a pool, which are listed once more where memory was refused.
fn list<T: Kept>(alloc: Global, pool: &Pool<T>) -> Result<Vec<u8>, RowFault> {
    match listed(alloc, pool) {
        Ok(list) => Ok(list),
        Err(_) => listed(alloc, pool),
    }
}

/// Keeps an item; where that is refused, keeps the item that came back. Whether the pool was as before then, and has it now.
fn keep<T: Kept>(alloc: Global, pool: &mut Pool<T>, item: T) -> Result<bool, RowFault> {
    let before = list(alloc, pool)?;
    match pool.keep(item) {
        Ok(_) => Ok(true),
        Err(back) => {
            let same = list(alloc, pool)?.as_slice() == before.as_slice();
            Ok(same && pool.keep(back).is_ok())
        }
    }
}

/// Keeps each of the texts. Whether all went well, and the pool has the distinct ones.
fn keep_all<T: Kept>(alloc: Global) -> Result<bool, RowFault> {
    let mut pool: Pool<T> = Pool::new(alloc);
    for text in TEXTS {
        if !keep(alloc, &mut pool, item(alloc, text)?)? {
            return Ok(false);
        }
    }
    Ok(list(alloc, &pool)?.as_slice() == LIST)
}

#[test]
fn filters_kept(rt: HostRuntime) -> Result<(), RowFault> {
    assert!(rt; keep_all::<Sub>(rt.alloc())?);
    Ok(())
}

#[test]
fn adverts_kept(rt: HostRuntime) -> Result<(), RowFault> {
    assert!(rt; keep_all::<Ad>(rt.alloc())?);
    Ok(())
}
