//! Makes the core of a server before its first step.
ghost use Rattle.std.specs.Prelude.{◌≡◌, ◌≤◌, ◌+◌, ◌++◌, ℕ, length, map, IfOk};
ghost use Rattle.std.specs.List.Sorted.{IsStrictlyIncreasing};
ghost use Rattle.base.specs.Sets.{Has};
ghost use Rattle.law_routing.specs.Routing.{empty_server};
ghost use Rattle.law_phases.specs.Trees.{net_at};
ghost use Rattle.net_model.specs.Real.{real};
ghost use Rattle.net_model.specs.Sound.{IsSound};
ghost use Rattle.net_model.specs.Nets.{phased_net, servers_in};
ghost use Rattle.server_core.specs.Core.{RepresentsServer};
ghost use Rattle.server_core.specs.Clients.{client_numbers, clients_parts};
ghost use Rattle.server_core.specs.Start.{sessions_of};

use crate::clients::{Clients, guesses_for};
use crate::ledger::Ledger;
use crate::server::Core;
use base::NoMemory;
use law_routing::interface_of;
use net_tables::Tables;
use server_session::Session;
use std::alloc::Global;

impl<'a> Core<'a> {
    /// The core of a server of a net before its first step, over the tree of phase 0. All memory of what it can hold is taken
    /// here.
    pub fn start(alloc: Global, tables: &'a Tables<'a>, server: u32) -> Result<Core<'a>, NoMemory>
        requires sound { IsSound tables.now }
        requires among { Has server (servers_in tables.now) }
        ensures net { IfOk result (λ core. core.net ≡ tables.now) }
        ensures server { IfOk result (λ core. core.server ≡ server) }
        ensures state { IfOk result (λ core. RepresentsServer (net_at real (phased_net tables.now) 0) core
            (empty_server real (net_at real (phased_net tables.now) 0))) }
        ensures clock { IfOk result (λ core. core.clock ≡ 0) }
    {
        let links = tables.net().tree(0).neighbours(server);
        let clients = at_home(alloc, tables, server)?;
        let interfaces = interfaces_of(alloc, links, clients.numbers())?;
        let ledger = Ledger::new(alloc, tables, tables.semantics(), &interfaces, links.len())?;
        Ok(Core::of(alloc, server, ledger, clients))
    }
}

/// The interfaces of a server with these links and clients, rising.
pub fn interfaces_of(alloc: Global, links: &[u32], clients: &[u32]) -> Result<Vec<u32>, NoMemory>
    requires { (n : ℕ) → Has n clients.now → n ≤ 1024 }
    ensures { IfOk result (λ list. list.items ≡ links.now ++ map (λ n. 64 + n) clients.now) }
{
    let mut interfaces = links.to_vec(alloc)?;
    for client in clients {
        interfaces.push(interface_of(*client))?;
    }
    Ok(interfaces)
}

/// The sessions of the clients that live at a server.
pub fn at_home<'a>(
    alloc: Global,
    tables: &'a Tables<'a>,
    server: u32,
) -> Result<Clients<'a>, NoMemory>
    requires { IsSound tables.now }
    ensures { IfOk result (λ clients. clients ≡ clients_parts tables.now (sessions_of tables.now.semantics server 1 tables.now.clients)) }
{
    let mut numbers = Vec::new(alloc);
    let mut sessions = Vec::new(alloc);
    let mut number = 0;
    for client in &tables.net().clients {
        number += 1;
        if client.home != server {
            continue;
        }
        numbers.push(number)?;
        sessions.push(Session::start(alloc, tables, number)?)?;
    }
    let guesses = guesses_for(alloc, &numbers)?;
    Ok(Clients::of(tables, numbers, guesses, sessions))
}
