//! Tests that a copy of an entry is equal to it.
use net_model::{Act, Entry};
use std::alloc::Global;
use std::rt::HostRuntime;
use std::test::Fail;

// A command's entry, with two messages.
fn entry(alloc: Global) -> Result<Entry, Fail> {
    Ok(Entry {
        stamp: 5,
        server: 3,
        act: Act::Command(2),
        outs: vec![in alloc; 1u32, 7]?,
    })
}

// Whether this is that entry.
fn is_entry(entry: &Entry) -> bool {
    entry.stamp == 5
        && entry.server == 3
        && entry.act == Act::Command(2)
        && entry.outs.as_slice() == [1, 7].as_slice()
}

#[test]
fn entry_copied(rt: HostRuntime) -> Result<(), Fail> {
    let copy = entry(rt.alloc())?.copy(rt.alloc())?;
    assert!(rt; is_entry(&copy));
    Ok(())
}
