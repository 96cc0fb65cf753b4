//! Tests a cell that has no stamp left.
ghost use Rattle.std.specs.Prelude.{IfOk};
ghost use Rattle.net_model.specs.Sound.{IsSound};

use document_reader::law::lemma_net_sound;
use document_reader::read_net;
use net_model::{Act, Net};
use net_tables::Tables;
use server_core::StepFault;
use std::alloc::Global;
use std::rt::HostRuntime;
use std::sync::Wait;
use std::test::Fail;
use thread_cell::{Cell, Started, start};

/// One client with a command.
const DOCUMENT: &str =
    "siena 1\nsemantics subscription\nservers 1\nclient a 1\nscript a\nsubscribe x int = 7\n";

/// The net of the document.
fn net(alloc: Global) -> Result<Net, Fail>
    ensures { IfOk result IsSound }
{
    lemma_net_sound();
    match read_net(alloc, DOCUMENT.as_bytes()) {
        Ok(net) => Ok(net),
        Err(fault) => Err(Fail::from(fault)),
    }
}

/// Whether the cell enters phase 0 with the last stamp as its clock.
fn is_late(cell: &mut Cell<'_>, last: u64) -> bool {
    if cell.phase() != 0 || last < cell.core().clock() || last >= 1 << 62 {
        return false;
    }
    if !cell.keeps_tree(0) || !cell.is_through(0) {
        return false;
    }
    cell.enter_phase(0, last);
    true
}

/// Whether a cell whose clock is the last stamp makes no step.
fn is_worn<R: Wait>(rt: &R, cell: &mut Cell<'_>) -> bool {
    let last = (1 << 62) - 1;
    if !is_late(cell, last) || !cell.suits(Act::Command(1)) {
        return false;
    }
    match cell.turn(rt, Act::Command(1)) {
        Err(StepFault::StampsExhausted(stamp)) => stamp == last && cell.journal().len() == 0,
        _ => false,
    }
}

/// Ends the cells, and says of how many it is so.
fn end_all<R: Wait>(rt: &R, mut started: Vec<Started<'_>>) -> u32 {
    let mut worn = 0u32;
    while let Some(one) = started.pop() {
        let Started {
            mut cell,
            commands: _commands,
            links: _links,
        } = one;
        if is_worn(rt, &mut cell) {
            worn = worn.saturating_add(1);
        }
        cell.end(rt);
    }
    started.destroy_empty();
    worn
}

#[test]
fn a_cell_without_a_stamp_left_is_worn(rt: HostRuntime) -> Result<(), Fail> {
    let alloc = rt.alloc();
    let net = net(alloc)?;
    let tables = Tables::of(alloc, &net)?;
    let started = start(alloc, &rt, &tables, true)?;
    let worn = end_all(&rt, started);
    assert_eq!(rt; worn, 1);
    Ok(())
}
