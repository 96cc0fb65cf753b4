//! The type of the session of a client at its server.
ghost use Rattle.std.specs.Prelude.{◌≡◌, ◌<◌, ◌≤◌, ℕ, suc, true, false, ◌+◌, ◌-◌, [], ◌∷◌, ◌++◌, length, List, Some, slice_get, IsSome, ◌↔◌, IfSome, IfNone, IfOk, OnOk, OnErr};
ghost use Rattle.filter_types.specs.Notice.{Attribute};
ghost use Rattle.filter_text.specs.declared.id.Id.{Id as IdParts};
ghost use Rattle.base_order.specs.Order.{picked};
ghost use Rattle.net_model.specs.Parts.{ClientParts};
ghost use Rattle.net_inbox.specs.Inbox.{at_numbers, delivery_at, in_order};
ghost use Rattle.net_tables.specs.Found.{known_deliveries};
ghost use Rattle.server_spec.specs.Inbox.{IsDelivery, AreDeliveries};
ghost use Rattle.law_routing.specs.Clients.{accepts};
ghost use Rattle.net_model.specs.Real.{real};
ghost use Rattle.server_spec.specs.Session.{session_parts, refused_at, adverts_at, net_under};
ghost use Rattle.server_spec.specs.Plan.{next_plan};
ghost use Rattle.server_spec.specs.Turn.{filter_set_at, advert_set_at};
ghost use Rattle.server_spec.specs.declared.planned.Planned.TheVariants as plans;
ghost use Rattle.net_tables.specs.Known.{PublicationParts, known_filters, known_adverts, known_publications};
ghost use Rattle.net_tables.specs.declared.numbered.NumberedCommand.TheVariants as numbers;
ghost use Rattle.server_session.specs.Session.{net_session, PlansNext, IsCounted, IsNextCommand};

use crate::own::{Own, added, withdrawn};
use crate::planned::Planned;
use crate::publishing::is_accepted;
use crate::script::{script_at, steps_at};
use base::NoMemory;
use base_bits::Row;
use filter_text::Id;
use net_inbox::Received;
use net_model::Command;
use net_tables::{NumberedCommand, Tables};
use std::alloc::Global;
use std::marker::Model;
use std::mem::replace;

/// A client's session: its script with the commands that were executed, and its inbox, whose deliveries are kept by number.
///
/// Contracts see these, the client, the semantics and the net, for how many more deliveries there is room, and whether the
/// next command is planned. The client's filters, advertisements and refused publishes are what the commands executed make of
/// them.
#[derive(Drop)]
pub struct Session<'a> {
    alloc: Global,
    tables: &'a Tables<'a>,
    client: u32,
    script: &'a [(u32, Command)],
    steps: &'a [(u32, NumberedCommand)],
    taken: usize,
    own: Own,
    inbox: Vec<u32>,
    room: usize,
    planned: bool,
}

impl<'a> Model for Session<'a> {
    ghost use Rattle.std.specs.Prelude.{◌≡◌, ◌+◌, ◌<◌, ◌≤◌, true, vec_len, vec_capacity};
    ghost use Rattle.server_spec.specs.Session.{session_parts};
    ghost use Rattle.net_inbox.specs.Inbox.{at_numbers};
    ghost use Rattle.net_tables.specs.Found.{known_deliveries};
    ghost use Rattle.server_session.specs.Session.{NetSession, net_session, IsNumbered};

    ghost Value = { NetSession };

    ghost view = { λ s. net_session s.tables.now (session_parts s.client s.tables.now.semantics s.script.now s.taken
        (at_numbers (known_deliveries s.tables.now.clients) s.inbox.items) s.room s.planned) };

    ghost invariant = { λ s.
        IsNumbered s.tables.now (session_parts s.client s.tables.now.semantics s.script.now s.taken
        (at_numbers (known_deliveries s.tables.now.clients) s.inbox.items) s.room s.planned)
        s.steps.now s.own.filters s.own.adverts s.own.refused.items s.own.publishes
        × (vec_len s.inbox + s.room ≤ vec_capacity s.inbox)
        × (s.planned ≡ true → vec_len s.own.refused < vec_capacity s.own.refused) };
}

impl<'a> Session<'a> {
    /// The session of a client of the net before its first command: its sets and its inbox are empty. All memory of the sets
    /// is taken here.
    pub fn start(
        alloc: Global,
        tables: &'a Tables<'a>,
        client: u32,
    ) -> Result<Session<'a>, NoMemory>
        requires { (1 ≤ client) × (client ≤ length tables.now.clients) }
        ensures { (c : ClientParts) → slice_get tables.now.clients (client - 1) ≡ Some c
            → IfOk result (λ s. s ≡ net_session tables.now (session_parts client tables.now.semantics c.script 0 [] 0 false)) }
    {
        tables.catalogue().lemma_sound();
        let place = client as usize - 1;
        let script = script_at(tables, place);
        let steps = steps_at(tables, place);
        let own = Own {
            filters: Row::new(alloc, tables.filters().count())?,
            adverts: Row::new(alloc, tables.adverts().count())?,
            refused: Vec::new(alloc),
            publishes: 0,
        };
        Ok(Session {
            alloc,
            tables,
            client,
            script,
            steps,
            taken: 0,
            own,
            inbox: Vec::new(alloc),
            room: 0,
            planned: false,
        })
    }

    /// The next command with its phase; `None` where none is left.
    pub fn next(&self) -> Option<(u32, &Command)>
        ensures left { IsSome result ↔ (self.now.session.taken < length self.now.session.script) }
        ensures next { IfSome result (λ step. slice_get self.now.session.script self.now.session.taken ≡ Some (step.0, step.1.now)) }
    {
        match self.script.get(self.taken) {
            Some((phase, command)) => Some((*phase, command)),
            None => None,
        }
    }

    /// The next command by numbers; `None` where none is left.
    fn next_command(&self) -> Option<NumberedCommand>
        ensures some { IfSome result (IsNextCommand self.now.net self.now.session) }
        ensures none { IfNone result (self.now.session.taken < length self.now.session.script → ⊥) }
    {
        match self.steps.get(self.taken) {
            Some((_, command)) => Some(*command),
            None => None,
        }
    }

    /// Whether the client may publish the publication with a number now.
    fn accepts(&self, publication: u32) -> bool
        requires { publication < length (known_publications 1 self.now.net.clients) }
        ensures { (p : PublicationParts) → slice_get (known_publications 1 self.now.net.clients) publication ≡ Some p
            → result ≡ accepts real (net_under self.now.session.semantics) (adverts_at self.now.session self.now.session.taken) p.notice }
    {
        let known = &self.tables.catalogue().publications()[publication as usize];
        is_accepted(
            self.tables.semantics(),
            self.tables.advert_items(),
            &self.own.adverts,
            &known.notice,
        )
    }

    /// What a publish does.
    fn publish(&self, publication: u32) -> Planned
        requires { IsNextCommand self.now.net self.now.session (numbers.Publish publication) }
        ensures plan { PlansNext self.now.net self.now.session result }
        ensures counted { IsCounted self.now.session.client result }
    {
        if self.accepts(publication) {
            let known = &self.tables.catalogue().publications()[publication as usize];
            Planned::Publish {
                id: known.id,
                publication,
            }
        } else {
            let ordinal = self.own.publishes + 1;
            Planned::Refused { ordinal }
        }
    }

    /// What a command does as the next one.
    fn plan_of(&self, command: NumberedCommand) -> Result<Planned, NoMemory>
        requires { IsNextCommand self.now.net self.now.session command }
        ensures plan { IfOk result (PlansNext self.now.net self.now.session) }
        ensures counted { IfOk result (IsCounted self.now.session.client) }
    {
        let filters = self.tables.filters();
        let adverts = self.tables.adverts();
        match command {
            NumberedCommand::Subscribe(i) => Ok(Planned::Filters(added(
                filters,
                &self.own.filters,
                i,
            ))),
            NumberedCommand::Unsubscribe(i) => {
                let moved = withdrawn(self.alloc, filters, &self.own.filters, i)?;
                Ok(Planned::Filters(moved))
            }
            NumberedCommand::Advertise(i) => Ok(Planned::Adverts(added(
                adverts,
                &self.own.adverts,
                i,
            ))),
            NumberedCommand::Unadvertise(i) => {
                let moved = withdrawn(self.alloc, adverts, &self.own.adverts, i)?;
                Ok(Planned::Adverts(moved))
            }
            NumberedCommand::Publish(k) => Ok(self.publish(k)),
        }
    }

    /// What the next command does, of which the caller knows that it is there. No set changes; there is room then for what
    /// `commit` does.
    pub fn plan(&mut self) -> Result<Planned, NoMemory>
        requires { self.old.session.taken < length self.old.session.script }
        ensures plan { IfOk result (PlansNext self.new.net self.new.session) }
        ensures counted { IfOk result (IsCounted self.new.session.client) }
        ensures net { self.new.net ≡ self.old.net }
        ensures ok { OnOk result (self.new.session ≡ record self.old.session { planned = true }) }
        ensures err { OnErr result (self.new ≡ self.old) }
    {
        let Some(command) = self.next_command() else {
            unreachable!()
        };
        let planned = self.plan_of(command)?;
        self.own.refused.reserve(1)?;
        self.planned = true;
        Ok(planned)
    }

    /// Executes the next command, whose plan the caller gives back: since it was made only room was taken and deliveries came.
    /// It takes no memory.
    pub fn commit(&mut self, planned: &Planned)
        requires planned { self.old.session.planned ≡ true }
        requires plan { PlansNext self.old.net self.old.session planned.now }
        ensures { self.new ≡ net_session self.old.net (record self.old.session { taken = suc self.old.session.taken; planned = false }) }
    {
        self.own.filters.lemma_sorted();
        self.own.adverts.lemma_sorted();
        self.own.commit(planned);
        self.taken += 1;
        self.planned = false;
    }

    /// The number of the publication of the next command; `None` where that is no publish that will be accepted, or there is
    /// none.
    pub fn next_publication(&self) -> Option<u32>
        ensures publish { IfSome result (λ k. (p : PublicationParts) × (slice_get (known_publications 1 self.now.net.clients) k ≡ Some p)
            × (next_plan self.now.session ≡ Some (plans.Publish p.id p.notice))) }
        ensures none { IfNone result ((id : IdParts) (n : List Attribute) → next_plan self.now.session ≡ Some (plans.Publish id n) → ⊥) }
    {
        match self.next_command()? {
            NumberedCommand::Publish(k) => { if self.accepts(k) { Some(k) } else { None } }
            _ => None,
        }
    }

    /// Makes room for at least so many more deliveries. An inbox grows by half of what is in it.
    pub fn room(&mut self, n: usize) -> Result<(), NoMemory>
        ensures ok { OnOk result (n ≤ self.new.session.room) }
        ensures more { self.old.session.room ≤ self.new.session.room }
        ensures net { self.new.net ≡ self.old.net }
        ensures same { record self.new.session { room = self.old.session.room } ≡ self.old.session }
        ensures err { OnErr result (self.new ≡ self.old) }
    {
        let len = self.inbox.len();
        if self.inbox.capacity() - len < n {
            self.inbox.reserve_exact(n.max(len / 2))?;
        }
        self.room = self.room.max(n);
        Ok(())
    }

    /// Puts the publication with a number at the end of the inbox, where there is room for it. It takes no memory.
    pub fn deliver(&mut self, number: u32)
        requires room { 0 < self.old.session.room }
        requires text { IsDelivery (delivery_at (known_deliveries self.old.net.clients) number) }
        ensures net { self.new.net ≡ self.old.net }
        ensures inbox { self.new.session.inbox ≡ self.old.session.inbox ++ delivery_at (known_deliveries self.old.net.clients) number ∷ [] }
        ensures room { self.new.session.room + 1 ≡ self.old.session.room }
        ensures same { record self.new.session { inbox = self.old.session.inbox; room = self.old.session.room } ≡ self.old.session }
    {
        self.inbox.push(number).unwrap();
        self.room -= 1;
    }

    /// What was delivered, in order.
    pub fn received(&self) -> Received<'_>
        ensures inbox { in_order result ≡ self.now.session.inbox }
        ensures texts { AreDeliveries (in_order result) }
    {
        Received {
            deliveries: self.tables.deliveries(),
            numbers: &self.inbox,
        }
    }

    /// Hands on the numbers of what was delivered, in order; the inbox is empty then. It takes no memory.
    pub fn take_inbox(&mut self) -> Vec<u32>
        ensures inbox { at_numbers (known_deliveries self.old.net.clients) result.items ≡ self.old.session.inbox }
        ensures emptied { self.new ≡ net_session self.old.net (record self.old.session { inbox = []; room = 0 }) }
    {
        self.room = 0;
        replace(&mut self.inbox, Vec::new(self.alloc))
    }

    /// The ordinals of the refused publishes among the commands executed, rising.
    pub fn refused(&self) -> &[u32]
        ensures { result.now ≡ refused_at self.now.session self.now.session.taken }
    {
        &self.own.refused
    }

    /// The numbers of the client's filters.
    pub fn filters(&self) -> &Row
        ensures width { result.now.width ≡ length (known_filters self.now.net.clients) }
        ensures set { picked (known_filters self.now.net.clients) result.now.members ≡ filter_set_at self.now.session self.now.session.taken }
    {
        &self.own.filters
    }

    /// The numbers of the client's advertisements.
    pub fn adverts(&self) -> &Row
        ensures width { result.now.width ≡ length (known_adverts self.now.net.clients) }
        ensures set { picked (known_adverts self.now.net.clients) result.now.members ≡ advert_set_at self.now.session self.now.session.taken }
    {
        &self.own.adverts
    }
}
