//! The type of the sessions of the clients that live at a server.
ghost use Rattle.std.specs.Prelude.{◌≡◌, ◌≢◌, ◌≤◌, ◌<◌, true, [], map, length, Some, slice_get, IfOk, OnOk, IfSome, IfNone, AllPairs};
ghost use Rattle.std.specs.List.Sorted.{IsStrictlyIncreasing};
ghost use Rattle.base.specs.Sets.{Has};
ghost use Rattle.net_inbox.specs.Inbox.{at_numbers, delivery_at};
ghost use Rattle.net_tables.specs.Found.{known_deliveries};
ghost use Rattle.server_spec.specs.Inbox.{IsDelivery};
ghost use Rattle.server_spec.specs.Session.{SessionParts};
ghost use Rattle.server_session.specs.Session.{NetSession, PlansNext, IsCounted};
ghost use Rattle.server_core.specs.Clients.{bare, client_numbers, at_client, handed, stepped, emptied, HaveMoreRoom, clients_parts, sessions_in, AreOf};

use base::NoMemory;
use net_tables::Tables;
use server_session::{Planned, Session};
use std::alloc::Global;
use std::marker::Model;

/// The sessions of the clients of a server, by rising numbers. Contracts see the net and the sessions.
#[derive(Drop)]
pub struct Clients<'a> {
    tables: &'a Tables<'a>,
    numbers: Vec<u32>,
    /// For each number up to the last one the place where it stands, if it does. Who asks compares.
    guesses: Vec<u16>,
    sessions: Vec<Session<'a>>,
}

/// For each number up to the last one the place where it stands, if it does.
pub(crate) fn guesses_for(alloc: Global, numbers: &[u32]) -> Result<Vec<u16>, NoMemory> {
    let mut guesses = Vec::new(alloc);
    for (place, number) in numbers.iter().enumerate() {
        guesses.resize(*number as usize, 0)?;
        guesses.push(u16::try_from(place).unwrap_or(0))?;
    }
    Ok(guesses)
}

impl<'a> Model for Clients<'a> {
    ghost use Rattle.std.specs.Prelude.{◌≡◌};
    ghost use Rattle.std.specs.List.Sorted.{IsStrictlyIncreasing};
    ghost use Rattle.server_core.specs.Clients.{ClientsParts, clients_parts, client_numbers, sessions_in, AreOf};

    ghost Value = { ClientsParts };

    ghost view = { λ c. clients_parts c.tables.now (sessions_in c.sessions.items) };

    ghost invariant = { λ c. (client_numbers (sessions_in c.sessions.items) ≡ c.numbers.items) × IsStrictlyIncreasing c.numbers.items
        × AreOf c.tables.now c.sessions.items };
}

impl<'a> Clients<'a> {
    /// The sessions of these clients.
    pub(crate) fn of(
        tables: &'a Tables<'a>,
        numbers: Vec<u32>,
        guesses: Vec<u16>,
        sessions: Vec<Session<'a>>,
    ) -> Clients<'a>
        requires numbered { client_numbers (sessions_in sessions.items) ≡ numbers.items }
        requires rising { IsStrictlyIncreasing numbers.items }
        requires net { AreOf tables.now sessions.items }
        ensures { result ≡ clients_parts tables.now (sessions_in sessions.entry.items) }
    {
        Clients {
            tables,
            numbers,
            guesses,
            sessions,
        }
    }

    /// Their numbers.
    pub fn numbers(&self) -> &[u32]
        ensures { result.now ≡ client_numbers self.now.sessions }
    {
        &self.numbers
    }

    /// Does nothing; by its contract the clients rise.
    pub fn lemma_sorted(&self)
        ensures { IsStrictlyIncreasing (client_numbers self.now.sessions) }
    {
        let _ = &self.numbers;
    }

    /// The place of a client, where it lives here, by a search.
    fn search(&self, client: u32) -> Option<usize>
        ensures some { IfSome result (λ i. i < length self.now.sessions) }
        ensures session { IfSome result (λ i. (s : SessionParts) → slice_get self.now.sessions i ≡ Some s → s.client ≡ client) }
        ensures none { IfNone result (Has client (client_numbers self.now.sessions) → ⊥) }
    {
        self.numbers.binary_search(&client).ok()
    }

    /// The place that is guessed for a client, where it is right.
    fn guessed(&self, client: u32) -> Option<usize>
        ensures some { IfSome result (λ i. i < length self.now.sessions) }
        ensures session { IfSome result (λ i. (s : SessionParts) → slice_get self.now.sessions i ≡ Some s → s.client ≡ client) }
    {
        let place = usize::from(*self.guesses.get(client as usize)?);
        if *self.numbers.get(place)? == client {
            Some(place)
        } else {
            None
        }
    }

    /// The place of a client, where it lives here.
    fn place(&self, client: u32) -> Option<usize>
        ensures some { IfSome result (λ i. i < length self.now.sessions) }
        ensures session { IfSome result (λ i. (s : SessionParts) → slice_get self.now.sessions i ≡ Some s → s.client ≡ client) }
        ensures none { IfNone result (Has client (client_numbers self.now.sessions) → ⊥) }
    {
        match self.guessed(client) {
            Some(place) => Some(place),
            None => self.search(client),
        }
    }

    /// The session of a client that lives here.
    pub fn session(&self, client: u32) -> Option<&Session<'a>>
        ensures session { IfSome result (λ s. Has s.now.session self.now.sessions × (s.now.session.client ≡ client)) }
        ensures net { IfSome result (λ s. s.now.net ≡ self.now.net) }
        ensures none { IfNone result (Has client (client_numbers self.now.sessions) → ⊥) }
    {
        let place = self.place(client)?;
        Some(&self.sessions[place])
    }

    /// What the next command of a client does that lives here and has one left.
    pub fn plan(&mut self, client: u32) -> Result<Planned, NoMemory>
        requires lives { Has client (client_numbers self.old.sessions) }
        requires left { (s : SessionParts) → Has s self.old.sessions → s.client ≡ client → s.taken < length s.script }
        ensures plan { IfOk result (λ p. (s : SessionParts) → Has s self.old.sessions → s.client ≡ client → PlansNext self.old.net s p) }
        ensures counted { IfOk result (IsCounted client) }
        ensures planned { OnOk result ((s : SessionParts) → Has s self.new.sessions → s.client ≡ client → s.planned ≡ true) }
        ensures net { self.new.net ≡ self.old.net }
        ensures bare { map bare self.new.sessions ≡ map bare self.old.sessions }
    {
        let place = self.place(client).unwrap();
        self.sessions[place].plan()
    }

    /// Executes the next command of a client that lives here, whose plan the caller gives back.
    pub fn commit(&mut self, client: u32, p: &Planned)
        requires planned { (s : SessionParts) → Has s self.old.sessions → s.client ≡ client → s.planned ≡ true }
        requires plan { (s : SessionParts) → Has s self.old.sessions → s.client ≡ client → PlansNext self.old.net s p.now }
        ensures { self.new ≡ clients_parts self.old.net (at_client client stepped self.old.sessions) }
    {
        let Some(place) = self.place(client) else {
            return;
        };
        self.sessions[place].commit(p);
    }

    /// Makes room for one more delivery to a client, where it lives here.
    pub(crate) fn make_room(&mut self, client: u32) -> Result<(), NoMemory>
        ensures room { OnOk result ((s : SessionParts) → Has s self.new.sessions → s.client ≡ client → 1 ≤ s.room) }
        ensures more { HaveMoreRoom self.old.sessions self.new.sessions }
        ensures net { self.new.net ≡ self.old.net }
        ensures bare { map bare self.new.sessions ≡ map bare self.old.sessions }
    {
        let Some(place) = self.place(client) else {
            return Ok(());
        };
        self.sessions[place].room(1)
    }

    /// Puts the publication with a number into the inbox of a client, where it lives here and has room for it. It takes no
    /// memory.
    pub(crate) fn deliver(&mut self, client: u32, number: u32)
        requires room { (s : SessionParts) → Has s self.old.sessions → s.client ≡ client → 1 ≤ s.room }
        requires text { IsDelivery (delivery_at (known_deliveries self.old.net.clients) number) }
        ensures { self.new ≡ clients_parts self.old.net
            (at_client client (handed (delivery_at (known_deliveries self.old.net.clients) number)) self.old.sessions) }
    {
        let Some(place) = self.place(client) else {
            return;
        };
        self.sessions[place].deliver(number);
    }

    /// Hands on the numbers of what was delivered to a client that lives here, whose inbox is empty then. It takes no memory.
    pub fn take_inbox(&mut self, client: u32) -> Vec<u32>
        requires { Has client (client_numbers self.old.sessions) }
        ensures inbox { (s : SessionParts) → Has s self.old.sessions → s.client ≡ client
            → at_numbers (known_deliveries self.old.net.clients) result.items ≡ s.inbox }
        ensures emptied { self.new ≡ clients_parts self.old.net (at_client client emptied self.old.sessions) }
    {
        let place = self.place(client).unwrap();
        self.sessions[place].take_inbox()
    }
}
