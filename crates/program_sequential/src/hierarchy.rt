//! Walks a document's hierarchy, with server 1 at the top.
ghost use Rattle.std.specs.Prelude.{◌≡◌, ℕ, List, true, length, IfOk};
ghost use Rattle.net_model.specs.Nets.{of_clients};
ghost use Rattle.net_model.specs.Sound.{IsSound};
ghost use Rattle.hierarchy_turns.specs.Network.{refused_by};
ghost use Rattle.document_reader.specs.Net.{IsNetOf};
ghost use Rattle.program_sequential.specs.Hierarchy.{IsHierarchyOf};
ghost use Rattle.program_sequential.specs.Promise.{AreOfNotices};
ghost use Rattle.program_sequential.specs.HierarchyRan.{IsHierarchyRan, IsHierarchyShown};

use crate::hierarchy_law::lemma_hierarchy_promise;
use crate::printed::Printed;
use crate::ran::clients;
use crate::telling::Hierarchy;
use crate::text::{printed_lists, trace_where};
use crate::words::Shown;
use base::NoMemory;
use filter_text::Lists;
use hierarchy_network::HierNetwork;
use net_journal::{Ran, Record};
use net_model::Net;
use net_tables::Tables;
use sequential_network::{Keeping, Kept, Passed};
use std::alloc::Global;

// Of each client the ordinals of its refused publishes.
fn refused<K: Keeping>(
    alloc: Global,
    network: &HierNetwork<'_, K>,
    clients: u32,
) -> Result<Vec<Lists<u32>>, NoMemory>
    requires { length network.now.net.clients ≡ clients }
    ensures { IfOk result (λ lists. lists.items ≡ of_clients network.now.net (refused_by network.now.net network.now.journal)) }
{
    let mut lists = Vec::new(alloc);
    for place in 0..clients {
        let ordinals = network.refused(place + 1).to_vec(alloc)?;
        lists.push(Lists::of(ordinals))?;
    }
    Ok(lists)
}

// The walk of a net's hierarchy over its tables.
fn walked_over<K: Keeping>(alloc: Global, tables: &Tables<'_>) -> Result<Ran, NoMemory>
    requires sound { IsSound tables.now }
    ensures ran { IfOk result (λ ran. IsHierarchyRan tables.now ran) }
    ensures kept { IfOk result (λ ran. ran.journal.kept ≡ K.keeps) }
{
    let mut network: HierNetwork<'_, K> = HierNetwork::start(alloc, tables)?;
    network.walk()?;
    // Its journal is a legal run.
    let _ = network.made();
    let refused = refused(alloc, &network, clients(tables.net()))?;
    let (journal, received) = network.into_parts()?;
    Ok(Ran {
        journal: Record::of(journal),
        refused,
        received,
    })
}

// The walk of a net's hierarchy, whose entries are kept or pass.
fn walked<K: Keeping>(alloc: Global, net: &Net) -> Result<Ran, NoMemory>
    requires sound { IsSound net.now }
    ensures ran { IfOk result (λ ran. IsHierarchyRan net.now ran) }
    ensures kept { IfOk result (λ ran. ran.journal.kept ≡ K.keeps) }
{
    let tables = Tables::of(alloc, net)?;
    walked_over::<K>(alloc, &tables)
}

// The same, whose entries are kept where they are to be shown.
fn made(alloc: Global, net: &Net, kept: bool) -> Result<Ran, NoMemory>
    requires sound { IsSound net.now }
    ensures ran { IfOk result (λ ran. IsHierarchyRan net.now ran) }
    ensures kept { kept ≡ true → IfOk result (λ ran. ran.journal.kept ≡ true) }
{
    if kept {
        walked::<Kept>(alloc, net)
    } else {
        walked::<Passed>(alloc, net)
    }
}

// What is printed of the walk of a net's hierarchy.
fn shown(alloc: Global, net: Net, shown: Shown) -> Result<Printed, NoMemory>
    requires sound { IsSound net }
    ensures { IfOk result (λ p. IsHierarchyShown shown net p.text p.journal) }
{
    let ran = made(alloc, &net, shown.trace)?;
    let trace = trace_where::<Hierarchy>(alloc, shown.trace, &net, &ran.journal)?;
    printed_lists(alloc, net, ran, shown.sorted, trace)
}

/// What each client of a document's net receives in the walk of its hierarchy, on the tree of phase 0.
pub fn hierarchy(alloc: Global, net: Net, options: Shown) -> Result<Printed, NoMemory>
    requires sound { IsSound net }
    requires notices { AreOfNotices net.clients }
    ensures { IfOk result (λ p. (input : List ℕ) → IsNetOf input net → IsHierarchyOf options input p.text p.journal) }
{
    lemma_hierarchy_promise();
    shown(alloc, net, options)
}
