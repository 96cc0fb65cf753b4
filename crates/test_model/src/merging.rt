//! Tests what merging journals gives.
ghost use Rattle.std.specs.Prelude.{◌≡◌, ◌<◌, length, map, IfOk};
ghost use Rattle.net_journal.specs.Merging.{IsJournalOf, AreServerJournals};

use net_journal::merge;
use net_model::{Act, Entry};
use std::alloc::Global;
use std::test::Fail;

fn entry(alloc: Global, stamp: u64, server: u32) -> Entry
    ensures stamp { result.stamp ≡ stamp }
    ensures server { result.server ≡ server }
{
    Entry {
        stamp,
        server,
        act: Act::TableUpdate,
        outs: Vec::new(alloc),
    }
}

// The journal of a server with so many entries, from this stamp on.
fn journal(alloc: Global, server: u32, first: u32, count: u32) -> Result<Vec<Entry>, Fail>
    ensures { IfOk result (λ entries. IsJournalOf server entries.items) }
{
    let mut entries = Vec::new(alloc);
    for more in 0..count {
        entries.push(entry(alloc, u64::from(first) + u64::from(more), server))?;
    }
    Ok(entries)
}

// The journals of servers 1, 2, ..: of each its first stamp and how many entries it has.
fn journals(alloc: Global, rows: &[(u32, u32)]) -> Result<Vec<Vec<Entry>>, Fail>
    requires { length rows.now < 100 }
    ensures { IfOk result (λ all. AreServerJournals (map (λ entries. entries.items) all.items)) }
{
    let mut all = Vec::new(alloc);
    for (place, (first, count)) in rows.iter().enumerate() {
        all.push(journal(alloc, place as u32 + 1, *first, *count)?)?;
    }
    Ok(all)
}

// The stamps and servers of their merge.
fn merged(alloc: Global, rows: &[(u32, u32)]) -> Result<Vec<(u64, u32)>, Fail>
    requires { length rows.now < 100 }
{
    let mut told = Vec::new(alloc);
    for entry in merge(alloc, journals(alloc, rows)?)? {
        told.push((entry.stamp, entry.server))?;
    }
    Ok(told)
}

// Whether these journals merge to these stamps and servers.
fn is_merged(alloc: Global, rows: &[(u32, u32)], want: &[(u64, u32)]) -> Result<bool, Fail> {
    if rows.len() >= 100 {
        return Ok(false);
    }
    Ok(merged(alloc, rows)?.as_slice() == want)
}

// Journals, and the stamps and servers of their merge: equal stamps on several servers; an empty list, of no server and of
// several; one server.
const ROWS: [(&[(u32, u32)], &[(u64, u32)]); 6] = [
    (
        &[(1, 3), (2, 2), (3, 2)],
        &[(1, 1), (2, 1), (2, 2), (3, 1), (3, 2), (3, 3), (4, 3)],
    ),
    (
        &[(5, 1), (0, 0), (5, 2), (5, 1)],
        &[(5, 1), (5, 3), (5, 4), (6, 3)],
    ),
    (&[(9, 1), (8, 1), (7, 1)], &[(7, 3), (8, 2), (9, 1)]),
    (&[], &[]),
    (&[(1, 0), (1, 0)], &[]),
    (&[(3, 2)], &[(3, 1), (4, 1)]),
];

#[test]
fn by_stamp_then_by_server(rt: HostRuntime) -> Result<(), Fail> {
    for (rows, want) in ROWS {
        let told = is_merged(rt.alloc(), rows, want)?;
        assert!(rt; told);
    }
    Ok(())
}
