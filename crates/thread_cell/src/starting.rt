//! Makes the cells of all servers before their first step.
ghost use Rattle.std.specs.Prelude.{◌≡◌, ◌≤◌, ◌++◌, [], length, map, All, IfOk, OnOk, vec_capacity};
ghost use Rattle.base.specs.Sets.{Has};
ghost use Rattle.base_tree.specs.Tree.{links_of};
ghost use Rattle.net_tables.specs.Known.{known_filters};
ghost use Rattle.net_model.specs.Nets.{servers_in, topology_at};
ghost use Rattle.net_model.specs.Sound.{IsSound};
ghost use Rattle.filter_text.specs.MessageText.{Each};
ghost use Rattle.thread_versions.specs.Ends.{pending, installed, forwarding_of, seen_by, IsViewerOf};
ghost use Rattle.thread_cell.specs.Kept.{AreReachable, IsWideFor, clients_among};
ghost use Rattle.thread_cell.specs.Lanes.{AreLanesOf, IsNew};
ghost use Rattle.thread_cell.specs.Started.{AreStarted, IsStarted};

use crate::cell::Cell;
use crate::lanes::lanes_of;
use crate::link::Link;
use base::NoMemory;
use law_routing::{LAST_LINK, is_link};
use net_tables::Tables;
use server_core::Core;
use std::alloc::Global;
use std::mem::replace;
use std::sync::Wait;
use thread_versions::{Publisher, Viewer, versions};

/// A cell with two viewers of its publisher, one for each of its workers. It isn't `Drop`: end the cell.
pub struct Started<'a> {
    /// The cell.
    pub cell: Cell<'a>,
    /// A viewer for who executes commands.
    pub commands: Viewer,
    /// A viewer for who takes from neighbours.
    pub links: Viewer,
}

/// The cells of all servers of a net before their first step, by server, in phase 0, whose journals keep their entries or let
/// them pass. Where it finds no memory it ends those that it has made.
pub fn start<'a, R: Wait>(
    alloc: Global,
    rt: &R,
    tables: &'a Tables<'a>,
    keeps: bool,
) -> Result<Vec<Started<'a>>, NoMemory>
    requires { IsSound tables.now }
    ensures started { IfOk result (λ started. AreStarted tables.now started.items) }
    ensures keeps { IfOk result (λ started. Each (λ s. s.cell.root.keeps ≡ keeps) started.items) }
{
    let rows = lanes_of(alloc, tables.net().tree(0))?;
    let mut started = Vec::with_capacity(alloc, rows.len())?;
    match fill(alloc, rt, tables, keeps, rows, &mut started) {
        Ok(()) => Ok(started),
        Err(fault) => {
            end_all(rt, started);
            Err(fault)
        }
    }
}

/// Makes the cells over these lanes.
fn fill<'a, R: Wait>(
    alloc: Global,
    rt: &R,
    tables: &'a Tables<'a>,
    keeps: bool,
    mut rows: Vec<Vec<Link>>,
    started: &mut Vec<Started<'a>>,
) -> Result<(), NoMemory>
    requires sound { IsSound tables.now }
    requires lanes { AreLanesOf (topology_at tables.now 0) (map (λ r. r.items) rows.items) }
    requires few { length rows.items ≤ 64 }
    requires empty { started.old.items ≡ [] }
    requires room { length rows.items ≤ vec_capacity started.old }
    ensures started { OnOk result (AreStarted tables.now started.new.items) }
    ensures keeps { OnOk result (Each (λ s. s.cell.root.keeps ≡ keeps) started.new.items) }
{
    for place in 0..rows.len() {
        let links = replace(&mut rows[place], Vec::new(alloc));
        let server = place as u32 + 1;
        started.push_reserved(start_one(alloc, rt, tables, server, links, keeps)?);
    }
    Ok(())
}

/// The cell of a server over these lanes.
fn start_one<'a, R: Wait>(
    alloc: Global,
    rt: &R,
    tables: &'a Tables<'a>,
    server: u32,
    links: Vec<Link>,
    keeps: bool,
) -> Result<Started<'a>, NoMemory>
    requires sound { IsSound tables.now }
    requires among { Has server (servers_in tables.now) }
    requires names { map (λ link. link.neighbour) links.items ≡ links_of (topology_at tables.now 0) server }
    requires new { Each IsNew links.items }
    ensures started { IfOk result (IsStarted tables.now server links.items) }
    ensures keeps { IfOk result (λ started. started.cell.root.keeps ≡ keeps) }
{
    let core = Core::start(alloc, tables, server)?;
    let (publisher, mut viewers) = publisher_for(alloc, rt, &core)?;
    let for_links = viewers.remove(1);
    let commands = viewers.remove(0);
    let cell = Cell::fresh(
        alloc, tables, server, core, links, publisher, &commands, keeps,
    );
    Ok(Started {
        cell,
        commands,
        links: for_links,
    })
}

/// The interfaces that a server can ever have, rising: each number up to that of the last link, so that a change of tree needs
/// no others, and those of its clients.
fn reachable(alloc: Global, core: &Core<'_>) -> Result<Vec<u32>, NoMemory>
    ensures { IfOk result (λ list. AreReachable core.now.interfaces list.items) }
{
    let mut all = Vec::new(alloc);
    for link in 0..LAST_LINK + 1 {
        all.push(link)?;
    }
    put_above(&mut all, core.interfaces())?;
    Ok(all)
}

/// Puts the interfaces of clients at the end of a list.
fn put_above(all: &mut Vec<u32>, interfaces: &[u32]) -> Result<(), NoMemory>
    ensures { OnOk result (all.new.items ≡ all.old.items ++ clients_among interfaces.now) }
{
    for interface in interfaces {
        if !is_link(*interface) {
            all.push(*interface)?;
        }
    }
    Ok(())
}

/// A publisher for a server before its first step, and two viewers of it.
fn publisher_for<R: Wait>(
    alloc: Global,
    rt: &R,
    core: &Core<'_>,
) -> Result<(Publisher, Vec<Viewer>), NoMemory>
    ensures publisher { IfOk result (λ r. (pending r.0 ≡ []) × (installed r.0 ≡ [])) }
    ensures wide { IfOk result (λ r. IsWideFor core.now (forwarding_of r.0)) }
    ensures count { IfOk result (λ r. length r.1.items ≡ 2) }
    ensures viewers { IfOk result (λ r. All (λ v. IsViewerOf r.0 v × (seen_by v ≡ [])) r.1.items) }
{
    let interfaces = reachable(alloc, core)?;
    versions(alloc, rt, width_of(core.tables()), &interfaces, 2)
}

/// How many distinct filters the run of these tables has.
fn width_of(tables: &Tables<'_>) -> u32
    ensures { result ≡ length (known_filters tables.now.clients) }
{
    let catalogue = tables.catalogue();
    catalogue.lemma_sound();
    catalogue.filters().len() as u32
}

/// Ends the cells.
fn end_all<R: Wait>(rt: &R, mut started: Vec<Started<'_>>) {
    while let Some(one) = started.pop() {
        let Started {
            cell,
            commands: _commands,
            links: _links,
        } = one;
        cell.end(rt);
    }
    started.destroy_empty();
}
