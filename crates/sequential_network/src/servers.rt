//! The type of the servers of a network, with their links and their journal, and the steps of one of them.
ghost use Rattle.std.specs.Prelude.{◌≡◌, ℕ, ◌≤◌, ◌<◌, ◌^◌, ◌-◌, ◌∷◌, ◌++◌, [], true, false, Some, slice_get, length, map, IfOk, OnOk};
ghost use Rattle.std.specs.Prelude.{OnErr, vec_len, vec_capacity};
ghost use Rattle.base.specs.Sets.{Has};
ghost use Rattle.base.specs.Numbers.{IsDistinct};
ghost use Rattle.law_machine.specs.Machine.{Does, Receives, Stamped};
ghost use Rattle.law_routing.specs.Server.{Message};
ghost use Rattle.law_routing.specs.Step.{NextCommand, TableUpdate};
ghost use Rattle.net_model.specs.Real.{real};
ghost use Rattle.server_message.specs.Parts.{SendingParts};
ghost use Rattle.net_model.specs.Parts.{NetParts, entry_parts};
ghost use Rattle.net_model.specs.declared.turn.Act.TheVariants as acts;
ghost use Rattle.server_spec.specs.Session.{SessionParts};
ghost use Rattle.server_core.specs.Clients.{client_numbers};
ghost use Rattle.server_core.specs.Step.{last_stamp};
ghost use Rattle.sequential_network.specs.Acted.{IsActed};
ghost use Rattle.sequential_network.specs.Seen.{CanAct, seen, IsUnchanged};
ghost use Rattle.sequential_network.specs.Links.{StampedMessageParts, messages_at, messages_to, waiting_in, has_room};

use crate::links::Links;
use crate::server::Server;
use crate::stamped_message::StampedMessage;
use base::NoMemory;
use net_journal::Journal;
use net_model::{Act, Entry};
use net_tables::Tables;
use server_core::Step;
use server_message::Sending;
use std::alloc::Global;

/// The servers of a network, of some kind, what is on the links between them, what they did, and the tables of their run.
#[derive(Drop)]
pub struct Servers<'a, P> {
    /// Where memory is taken.
    pub alloc: Global,
    /// The servers, by rising number.
    pub places: Vec<P>,
    /// The links between them.
    pub links: Links<'a>,
    /// What they did.
    pub journal: Journal,
    /// The tables of their run.
    pub tables: &'a Tables<'a>,
}

/// Messages that a step sends go on the links of its server, and their receivers into a list. There is room for both, so it
/// takes no memory.
fn put_all<'a>(
    links: &mut Links<'a>,
    server: u32,
    stamp: u64,
    sent: Vec<Sending<'a>>,
    outs: &mut Vec<u32>,
)
    requires server { server ≤ 64 }
    requires small { (s : SendingParts) → Has s sent.items → s.to ≤ 64 }
    requires room { (s : SendingParts) → Has s sent.items → has_room links.old server s.to ≡ true }
    requires apart { IsDistinct (map (λ s. s.to) sent.items) }
    requires outs { (outs.old.items ≡ []) × (length sent.items ≤ vec_capacity outs.old) }
    ensures here { (b : ℕ) → messages_at links.new server b ≡ messages_at links.old server b ++ messages_to stamp sent.entry.items b }
    ensures others { (a b : ℕ) → (a ≡ server → ⊥) → messages_at links.new a b ≡ messages_at links.old a b }
    ensures outs { outs.new.items ≡ map (λ s. s.to) sent.entry.items }
{
    for sending in sent {
        let to = sending.to;
        outs.push(to).unwrap();
        let message = sending.message;
        links.put(server, to, StampedMessage { stamp, message });
    }
}

/// The same list, which keeps no room where nothing is in it.
fn without_room(alloc: Global, list: Vec<u32>) -> Vec<u32>
    ensures { result.items ≡ list.items }
{
    if list.is_empty() {
        Vec::new(alloc)
    } else {
        list
    }
}

/// What a step sends goes on the links of its server, and the step joins the journal. There is room for both, so it takes
/// no memory.
fn put<'a>(
    alloc: Global,
    links: &mut Links<'a>,
    journal: &mut Journal,
    server: u32,
    act: Act,
    step: Step<'a>,
    mut outs: Vec<u32>,
)
    requires server { server ≤ 64 }
    requires small { (s : SendingParts) → Has s step.sent.items → s.to ≤ 64 }
    requires room { (s : SendingParts) → Has s step.sent.items → has_room links.old server s.to ≡ true }
    requires apart { IsDistinct (map (λ s. s.to) step.sent.items) }
    requires stamp { step.stamp < 2 ^ 62 }
    requires outs { (outs.items ≡ []) × (length step.sent.items ≤ vec_capacity outs) }
    requires journal { journal.old.room ≡ true }
    ensures here { (b : ℕ) → messages_at links.new server b ≡ messages_at links.old server b ++ messages_to step.entry.stamp step.entry.sent.items b }
    ensures others { (a b : ℕ) → (a ≡ server → ⊥) → messages_at links.new a b ≡ messages_at links.old a b }
    ensures entry { journal.new.entries ≡ journal.old.entries ++ entry_parts step.entry.stamp server act (map (λ s. s.to) step.entry.sent.items) ∷ [] }
    ensures kept { journal.new.kept ≡ journal.old.kept }
{
    let stamp = step.stamp;
    put_all(links, server, stamp, step.sent, &mut outs);
    journal.push(Entry {
        stamp,
        server,
        act,
        outs: without_room(alloc, outs),
    });
}

impl<'a, P: Server<'a>> Servers<'a, P> {
    /// Makes room for what a step of a server puts on these links, and for its entry; the answer is an empty list with room
    /// for as many neighbours.
    fn make_room(&mut self, server: u32, neighbours: &[u32]) -> Result<Vec<u32>, NoMemory>
        requires server { server ≤ 64 }
        requires small { (link : ℕ) → Has link neighbours.now → link ≤ 64 }
        ensures outs { IfOk result (λ outs. (outs.items ≡ []) × (vec_len outs ≡ 0) × (length neighbours.now ≤ vec_capacity outs)) }
        ensures room { OnOk result ((link : ℕ) → Has link neighbours.now → has_room self.new.links server link ≡ true) }
        ensures journal { OnOk result (self.new.journal.room ≡ true) }
        ensures same { IsUnchanged self.old self.new }
    {
        self.links.make_rooms(server, neighbours)?;
        self.journal.make_room()?;
        Ok(Vec::with_capacity(self.alloc, neighbours.len())?)
    }

    /// Executes the next command of a client of a server, whose neighbours are given.
    pub fn command(&mut self, server: u32, client: u32, neighbours: &[u32]) -> Result<(), NoMemory>
        requires able { CanAct P.stepping server neighbours.now self.old.places.items }
        requires lives { (core : P) → slice_get self.old.places.items (server - 1) ≡ Some core → Has client (client_numbers (P.stepping.core core).clients) }
        requires left { (core : P) (s : SessionParts) → slice_get self.old.places.items (server - 1) ≡ Some core → Has s (P.stepping.core core).clients
            → s.client ≡ client → s.taken < length s.script }
        ensures acted { OnOk result (IsActed P.stepping (server - 1) (Does (NextCommand client)) (acts.Command client) (seen self.old) (seen self.new)) }
        ensures kept { self.new.journal.kept ≡ self.old.journal.kept }
        ensures err { OnErr result (IsUnchanged self.old self.new) }
    {
        let outs = self.make_room(server, neighbours)?;
        let place = &mut self.places[server as usize - 1];
        let stepped = place.command(self.alloc, client)?;
        put(
            self.alloc,
            &mut self.links,
            &mut self.journal,
            server,
            Act::Command(client),
            stepped,
            outs,
        );
        Ok(())
    }

    /// Has a server, whose neighbours are given, receive the next message from one of them.
    pub fn take(&mut self, server: u32, from: u32, neighbours: &[u32]) -> Result<bool, NoMemory>
        requires able { CanAct P.stepping server neighbours.now self.old.places.items }
        requires from { Has from neighbours.now }
        requires low { (w : StampedMessageParts) → Has w (messages_at self.old.links from server) → w.stamp < last_stamp }
        requires run { (w : StampedMessageParts) (core : P) → Has w (messages_at self.old.links from server)
            → slice_get self.old.places.items (server - 1) ≡ Some core → w.sent.net ≡ (P.stepping.core core).net }
        ensures acted { (net : NetParts) (m : Stamped (Message real)) → slice_get (messages_at self.old.links from server) 0 ≡ Some (waiting_in net m)
            → IfOk result (λ made. (made ≡ true) × IsActed P.stepping (server - 1) (Receives from m) (acts.Receive from) (seen self.old) (seen self.new)) }
        ensures none { messages_at self.old.links from server ≡ [] → IfOk result (λ made. (made ≡ false) × IsUnchanged self.old self.new) }
        ensures kept { self.new.journal.kept ≡ self.old.journal.kept }
        ensures err { OnErr result (IsUnchanged self.old self.new) }
    {
        if self.links.is_empty(from, server) {
            return Ok(false);
        }
        let outs = self.make_room(server, neighbours)?;
        let Some(waiting) = self.links.first(from, server) else {
            return Ok(false);
        };
        let place = &mut self.places[server as usize - 1];
        let stepped = place.take(self.alloc, from, waiting)?;
        self.links.drop_first(from, server);
        put(
            self.alloc,
            &mut self.links,
            &mut self.journal,
            server,
            Act::Receive(from),
            stepped,
            outs,
        );
        Ok(true)
    }

    /// Has a server install what it has pending.
    pub fn update_table(&mut self, server: u32) -> Result<(), NoMemory>
        requires able { (neighbours : _) × CanAct P.stepping server neighbours self.old.places.items }
        requires some { (core : P) → slice_get self.old.places.items (server - 1) ≡ Some core → ((P.stepping.core core).pending ≡ []) → ⊥ }
        ensures acted { OnOk result (IsActed P.stepping (server - 1) (Does TableUpdate) acts.TableUpdate (seen self.old) (seen self.new)) }
        ensures kept { self.new.journal.kept ≡ self.old.journal.kept }
        ensures err { OnErr result (IsUnchanged self.old self.new) }
    {
        self.journal.make_room()?;
        let stamp = self.places[server as usize - 1].update_table();
        let entry = Entry {
            stamp,
            server,
            act: Act::TableUpdate,
            outs: Vec::new(self.alloc),
        };
        self.journal.push(entry);
        Ok(())
    }
}
