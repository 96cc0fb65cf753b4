//! The type of the network on one thread, whatever the kind of its servers.
ghost use Rattle.std.specs.Prelude.{◌≡◌, ◌≤◌, ◌==◌, ◌++◌, ◌∷◌, ℕ, suc, cond, List, [], length, slice_get, Some, IfOk, OnOk, OnErr};
ghost use Rattle.net_model.specs.Parts.{EntryParts};
ghost use Rattle.net_model.specs.Nets.{first_tree, clients_of, of_clients};
ghost use Rattle.net_model.specs.Sound.{IsSound};
ghost use Rattle.net_inbox.specs.Inbox.{in_order};
ghost use Rattle.sequential_network.specs.Ruling.{refused_by};
ghost use Rattle.sequential_network.specs.Seen.{AreClients};

use crate::forwarding_server::ForwardingServer;
use crate::inboxes::take_inboxes;
use crate::keeping::{Keeping, Kept};
use crate::links::Links;
use crate::making::{command, home, session, take, update_table};
use crate::ruled::{Networked, Ruled};
use crate::servers::Servers;
use crate::telling::last_told;
use base::NoMemory;
use filter_text::Lists;
use net_inbox::{Inbox, Received};
use net_journal::Journal;
use net_model::{Entry, Net, Sent, Turn};
use net_tables::Tables;
use std::alloc::Global;
use std::marker::{Model, PhantomData};

/// The servers of a net, of some kind, their links, and the journal of what was done: whatever turns it is asked for, a legal
/// run of that kind.
///
/// Contracts see the net and the journal; what the servers hold, what is on the links and what was delivered follows from
/// these. The entries of the journal stand in memory where they are to be shown (`Kept`), and else in proofs alone (`Passed`).
#[derive(Drop)]
pub struct RuledNetwork<'a, P: Ruled, K: Keeping> {
    pub(crate) tables: &'a Tables<'a>,
    pub(crate) phase: u32,
    pub(crate) clients: Vec<Lists<u32>>,
    pub(crate) servers: Servers<'a, P>,
    keeping: PhantomData<K>,
}

/// A network of peers: whatever turns it is asked for, a legal run of its net.
pub type Network<'a, K> = RuledNetwork<'a, ForwardingServer<'a>, K>;

impl<'a, P: Ruled, K: Keeping> Model for RuledNetwork<'a, P, K> {
    ghost use Rattle.std.specs.Prelude.{◌≡◌};
    ghost use Rattle.net_turns.specs.Network.{NetworkParts, network_parts};
    ghost use Rattle.sequential_network.specs.Seen.{seen, AreClients};

    ghost Value = { NetworkParts };

    ghost view = { λ network. network_parts network.tables.now network.servers.journal.entries };

    ghost invariant = { λ network. P.ruling.IsKept network.tables.now network.phase (seen network.servers) × AreClients network.tables.now network.clients.items
        × (network.servers.journal.kept ≡ K.keeps) };
}

/// Puts a client at the end of a list where it belongs there.
fn put_where(clients: &mut Vec<u32>, client: u32, belongs: bool) -> Result<(), NoMemory>
    ensures { OnOk result (clients.new.items ≡ clients.old.items ++ cond belongs (client ∷ []) []) }
{
    if belongs {
        clients.push(client)?;
    }
    Ok(())
}

/// The clients of a server, rising.
fn clients_at(alloc: Global, net: &Net, server: u32) -> Result<Lists<u32>, NoMemory>
    requires { length net.now.clients ≤ 1024 }
    ensures { IfOk result (λ clients. clients ≡ clients_of net.now server) }
{
    let mut clients = Vec::new(alloc);
    for place in 0..net.clients.len() as u32 {
        let client = place + 1;
        put_where(&mut clients, client, home(net, client) == server)?;
    }
    Ok(Lists::of(clients))
}

/// The servers of a net before their first steps.
fn places<'a, P: Networked<'a>>(
    alloc: Global,
    tables: &'a Tables<'a>,
    count: u32,
) -> Result<Vec<P>, NoMemory>
    requires sound { IsSound tables.now }
    requires count { (count ≡ (first_tree tables.now.trees).count) × (count ≤ 64) }
    ensures all { IfOk result (λ places. length places.items ≡ count) }
    ensures first { IfOk result (λ places. (place : ℕ) (core : P) → slice_get places.items place ≡ Some core → P.ruling.IsFirst tables.now (suc place) core) }
{
    let mut places = Vec::with_capacity(alloc, count as usize)?;
    for place in 0..count {
        places.push(P::start(alloc, tables, place + 1)?)?;
    }
    Ok(places)
}

/// The clients of each server.
pub fn all_clients(alloc: Global, net: &Net, count: u32) -> Result<Vec<Lists<u32>>, NoMemory>
    requires few { length net.now.clients ≤ 1024 }
    requires count { (count ≡ (first_tree net.now.trees).count) × (count ≤ 64) }
    ensures { IfOk result (λ clients. AreClients net.now clients.items) }
{
    let mut clients = Vec::with_capacity(alloc, count as usize)?;
    for place in 0..count {
        clients.push(clients_at(alloc, net, place + 1)?)?;
    }
    Ok(clients)
}

impl<'a, P: Networked<'a>, K: Keeping> RuledNetwork<'a, P, K> {
    ghost use Rattle.net_turns.specs.Network.{network_parts};

    /// The network of a net before its first turn, over the tables of its run.
    pub fn start(alloc: Global, tables: &'a Tables<'a>) -> Result<RuledNetwork<'a, P, K>, NoMemory>
        requires { IsSound tables.now }
        ensures { IfOk result (λ network. network ≡ network_parts tables.now []) }
    {
        P::lemma_laws();
        let net = tables.net();
        let count = net.tree(0).servers();
        let servers = Servers {
            alloc,
            places: places(alloc, tables, count)?,
            links: Links::new(alloc)?,
            journal: Journal::new(alloc, K::keeps()),
            tables,
        };
        Ok(RuledNetwork {
            tables,
            phase: 0,
            clients: all_clients(alloc, net, count)?,
            servers,
            keeping: PhantomData,
        })
    }

    /// How many turns were made; always a legal run of the net.
    pub fn made(&self) -> u64
        ensures count { result ≡ length self.now.journal }
        ensures sound { IsSound self.now.net }
        ensures legal { P.trying.IsLegal self.now.net self.now.journal }
    {
        P::lemma_laws();
        self.servers.journal.len()
    }

    /// What was done, and what each client received, where nothing else is wanted any more: both are handed on and not copied.
    pub fn into_parts(self) -> Result<(Journal, Vec<Inbox>), NoMemory>
        ensures journal { IfOk result (λ parts. parts.0.entries ≡ self.entry.journal) }
        ensures kept { IfOk result (λ parts. parts.0.kept ≡ K.keeps) }
        ensures received { IfOk result (λ parts. parts.1.items ≡ of_clients self.entry.net (P.ruling.received_by self.entry.net self.entry.journal)) }
    {
        P::lemma_laws();
        let RuledNetwork {
            tables,
            mut servers,
            ..
        } = self;
        let received = take_inboxes(tables.net(), tables.deliveries(), &mut servers)?;
        Ok((servers.journal, received))
    }

    /// What a client received, in order.
    pub fn received(&self, client: u32) -> Received<'_>
        requires { (1 ≤ client) × (client ≤ length self.now.net.clients) }
        ensures { in_order result ≡ P.ruling.received_by self.now.net self.now.journal client }
    {
        P::lemma_laws();
        session(self.tables.net(), &self.servers, client).received()
    }

    /// The ordinals of a client's publishes that were refused, rising.
    pub fn refused(&self, client: u32) -> &[u32]
        requires { (1 ≤ client) × (client ≤ length self.now.net.clients) }
        ensures { result.now ≡ refused_by P.ruling self.now.net self.now.journal client }
    {
        P::lemma_laws();
        session(self.tables.net(), &self.servers, client).refused()
    }

    /// The texts of the messages of the last turn, by rising neighbour.
    pub fn last_told(&self) -> Result<Lists<Sent>, NoMemory>
        ensures { IfOk result (λ told. (before : List EntryParts) (entry : EntryParts) → self.now.journal ≡ before ++ entry ∷ []
            → told ≡ P.telling.told_at self.now.net self.now.journal (length before) entry) }
    {
        P::lemma_laws();
        last_told(self.tables, &self.servers)
    }

    /// Makes a turn where it is permitted, and answers whether it is. Where it is not, and after running out of memory, the
    /// network is as before.
    pub fn turn(&mut self, turn: Turn) -> Result<bool, NoMemory>
        ensures turn { IfOk result (λ made. P.trying.IsTurn made turn self.old self.new) }
        ensures err { OnErr result (self.new ≡ self.old) }
    {
        P::lemma_laws();
        let net = self.tables.net();
        match turn {
            Turn::Command(client) => command(net, &mut self.phase, &mut self.servers, client),
            Turn::Receive { server, from } => take(
                net,
                self.phase,
                &mut self.servers,
                server,
                from,
            ),
            Turn::TableUpdate(server) => update_table(net, self.phase, &mut self.servers, server),
        }
    }
}

impl<'a, P: Networked<'a>> RuledNetwork<'a, P, Kept> {
    /// What was done, in the order of the turns: always a legal run of the net.
    pub fn journal(&self) -> &[Entry]
        ensures journal { result.now ≡ self.now.journal }
        ensures sound { IsSound self.now.net }
        ensures legal { P.trying.IsLegal self.now.net self.now.journal }
    {
        P::lemma_laws();
        self.servers.journal.entries()
    }
}
