//! The type of the core of a server, with the one body of each of its steps.
ghost use Rattle.std.specs.Prelude.{◌≡◌, ◌<◌, ◌≤◌, ◌^◌, ◌↔◌, ◌+◌, ℕ, nat_lt, [], max, List, length, map, Some, IfOk, OnOk, OnErr, IsErrOf, IfSome, IfNone};
ghost use Rattle.filter_constraints.specs.Constraint.{ConstraintParts};
ghost use Rattle.base.specs.Sets.{Has, IsRising};
ghost use Rattle.filter_types.specs.Notice.{Attribute};
ghost use Rattle.law_machine.specs.Machine.{Does, Receives};
ghost use Rattle.law_routing.specs.Step.{NextCommand, TableUpdate};
ghost use Rattle.filter_text.specs.declared.id.Id.{Id};
ghost use Rattle.net_tables.specs.Known.{known_filters, known_publications};
ghost use Rattle.server_spec.specs.Control.{subs};
ghost use Rattle.server_spec.specs.declared.planned.Planned.TheVariants as plans;
ghost use Rattle.server_spec.specs.Plan.{next_plan};
ghost use Rattle.server_spec.specs.Session.{SessionParts};
ghost use Rattle.net_inbox.specs.Inbox.{at_numbers};
ghost use Rattle.net_tables.specs.Found.{known_deliveries, publication_at};
ghost use Rattle.server_message.specs.Message.{IsLoad, represented};
ghost use Rattle.server_core.specs.Clients.{bare, client_numbers};
ghost use Rattle.server_core.specs.Core.{core_parts, installed_from, without_inbox};
ghost use Rattle.server_core.specs.Kept.{IsKept};
ghost use Rattle.server_core.specs.Linked.{interfaces_on};
ghost use Rattle.server_core.specs.Next.{GoesOut};
ghost use Rattle.server_core.specs.Step.{MakesStep, last_stamp};
ghost use Rattle.server_core.specs.Pending.{IsPending};
ghost use Rattle.server_core.specs.Routed.{IsRoute, RoutesMessage};

use crate::acting::{Outgoing, act, act_next};
use crate::clients::Clients;
use crate::ledger::Ledger;
use crate::stepped::{LAST_STAMP, Step, StepFault};
use law_routing::interface_of;
use match_routes::TableChange;
use net_tables::Tables;
use server_message::{Load, Message};
use server_session::Session;
use std::alloc::Global;
use std::marker::Model;

/// The core of a server in a run: what it holds from whom, its clients, and its clock.
///
/// Contracts see the net, the server, what is held, installed and pending, the clients as their commands and deliveries make
/// them, and the clock. After any fault it is as before.
#[derive(Drop)]
pub struct Core<'a> {
    pub(crate) alloc: Global,
    pub(crate) server: u32,
    pub(crate) ledger: Ledger<'a>,
    pub(crate) clients: Clients<'a>,
    pub(crate) clock: u64,
}

impl<'a> Model for Core<'a> {
    ghost use Rattle.std.specs.Prelude.{map};
    ghost use Rattle.server_core.specs.Clients.{bare};
    ghost use Rattle.server_core.specs.Core.{CoreParts, core_parts};
    ghost use Rattle.server_core.specs.Kept.{IsKept};

    ghost Value = { CoreParts };

    ghost view = { λ c. core_parts c.server c.ledger (map bare c.clients.sessions) c.clock };

    ghost invariant = { λ c. IsKept c.ledger.interfaces c.clients.net (core_parts c.server c.ledger (map bare c.clients.sessions) c.clock) };
}

impl<'a> Core<'a> {
    /// A core with the clock 0.
    pub(crate) fn of(
        alloc: Global,
        server: u32,
        ledger: Ledger<'a>,
        clients: Clients<'a>,
    ) -> Core<'a>
        requires { IsKept ledger.interfaces clients.net (core_parts server ledger (map bare clients.sessions) 0) }
        ensures { result ≡ core_parts server ledger.entry (map bare clients.entry.sessions) 0 }
    {
        Core {
            alloc,
            server,
            ledger,
            clients,
            clock: 0,
        }
    }

    /// The stamp of a step that receives a message with this stamp, or 0.
    fn next_stamp(&self, taken: u64) -> Result<u64, StepFault>
        requires { taken < 2 ^ 62 }
        ensures ok { IfOk result (λ stamp. (stamp ≡ 1 + max self.now.clock taken) × (stamp < 2 ^ 62)) }
        ensures exhausted { (s : ℕ) → IsErrOf result (StepFault.StampsExhausted s) ↔ ((max self.now.clock taken ≡ last_stamp) × (s ≡ last_stamp)) }
        ensures memory { IsErrOf result StepFault.NoMemory → ⊥ }
    {
        let last = self.clock.max(taken);
        if last == LAST_STAMP {
            return Err(StepFault::StampsExhausted(last));
        }
        Ok(last + 1)
    }

    /// Executes the next command of a client that lives here and has one left: a publish that is accepted, of the publication that goes
    /// out, or where none does no such publish.
    fn take_next(
        &mut self,
        client: u32,
        outgoing: Option<Outgoing<'_>>,
    ) -> Result<Step<'a>, StepFault>
        requires lives { Has client (client_numbers self.old.clients) }
        requires left { (s : SessionParts) → Has s self.old.clients → s.client ≡ client → s.taken < length s.script }
        requires goes { GoesOut self.old client outgoing }
        ensures step { IfOk result (λ s. MakesStep (Does (NextCommand client)) 0 self.old self.new s.stamp s.sent.items) }
        ensures interfaces { OnOk result (self.new.interfaces ≡ self.old.interfaces) }
        ensures exhausted { (s : ℕ) → IsErrOf result (StepFault.StampsExhausted s) ↔ ((self.old.clock ≡ last_stamp) × (s ≡ last_stamp)) }
        ensures err { OnErr result (self.new ≡ self.old) }
    {
        let stamp = match self.next_stamp(0) {
            Ok(stamp) => stamp,
            Err(fault) => return Err(fault),
        };
        self.clients.lemma_sorted();
        let plan = self.clients.plan(client)?;
        let sent = act_next(
            self.alloc,
            &mut self.ledger,
            &mut self.clients,
            interface_of(client),
            outgoing,
            &plan,
        )?;
        self.clients.commit(client, &plan);
        self.clock = stamp;
        Ok(Step { stamp, sent })
    }

    /// Executes the next command of a client that lives here and has one left, where that is no publish that is accepted.
    /// Messages of a change go to the links where what is sent changed.
    pub fn take_command(&mut self, client: u32) -> Result<Step<'a>, StepFault>
        requires lives { Has client (client_numbers self.old.clients) }
        requires left { (s : SessionParts) → Has s self.old.clients → s.client ≡ client → s.taken < length s.script }
        requires silent { (s : SessionParts) (id : Id) (n : List Attribute) → Has s self.old.clients → s.client ≡ client
            → next_plan s ≡ Some (plans.Publish id n) → ⊥ }
        ensures step { IfOk result (λ s. MakesStep (Does (NextCommand client)) 0 self.old self.new s.stamp s.sent.items) }
        ensures interfaces { OnOk result (self.new.interfaces ≡ self.old.interfaces) }
        ensures exhausted { (s : ℕ) → IsErrOf result (StepFault.StampsExhausted s) ↔ ((self.old.clock ≡ last_stamp) × (s ≡ last_stamp)) }
        ensures err { OnErr result (self.new ≡ self.old) }
    {
        self.take_next(client, None)
    }

    /// Executes the next command of a client that lives here and has one left, a publish that is accepted: of the publication with
    /// this number, whose route is that of its notice by what was installed.
    pub fn take_publish(
        &mut self,
        client: u32,
        number: u32,
        route: &[u32],
    ) -> Result<Step<'a>, StepFault>
        requires lives { Has client (client_numbers self.old.clients) }
        requires left { (s : SessionParts) → Has s self.old.clients → s.client ≡ client → s.taken < length s.script }
        requires publish { (s : SessionParts) → Has s self.old.clients → s.client ≡ client
            → next_plan s ≡ Some (plans.Publish (publication_at self.old.net number).id (publication_at self.old.net number).notice) }
        requires known { number < length (known_publications 1 self.old.net.clients) }
        requires route { IsRoute (publication_at self.old.net number).notice (installed_from self.old) route.now }
        ensures step { IfOk result (λ s. MakesStep (Does (NextCommand client)) 0 self.old self.new s.stamp s.sent.items) }
        ensures interfaces { OnOk result (self.new.interfaces ≡ self.old.interfaces) }
        ensures exhausted { (s : ℕ) → IsErrOf result (StepFault.StampsExhausted s) ↔ ((self.old.clock ≡ last_stamp) × (s ≡ last_stamp)) }
        ensures err { OnErr result (self.new ≡ self.old) }
    {
        self.take_next(client, Some(Outgoing { number, route }))
    }

    /// Receives what a neighbour sent with its stamp. Where it is a publication, the route is that of its notice by what was
    /// installed.
    pub fn receive_load(
        &mut self,
        from: u32,
        stamp: u64,
        load: &Load,
        route: &[u32],
    ) -> Result<Step<'a>, StepFault>
        requires from { Has from self.old.control.links }
        requires stamp { stamp < 2 ^ 62 }
        requires load { IsLoad self.old.net load.now }
        requires route { RoutesMessage self.old (represented self.old.net load.now) route.now }
        ensures step { IfOk result (λ s. MakesStep (Receives from (represented self.old.net load.now)) stamp self.old self.new s.stamp s.sent.items) }
        ensures interfaces { OnOk result (self.new.interfaces ≡ self.old.interfaces) }
        ensures exhausted { (s : ℕ) → IsErrOf result (StepFault.StampsExhausted s) ↔ ((max self.old.clock stamp ≡ last_stamp) × (s ≡ last_stamp)) }
        ensures err { OnErr result (self.new ≡ self.old) }
    {
        let stamp = match self.next_stamp(stamp) {
            Ok(stamp) => stamp,
            Err(fault) => return Err(fault),
        };
        let sent = act(
            self.alloc,
            &mut self.ledger,
            &mut self.clients,
            from,
            load,
            route,
        )?;
        self.clock = stamp;
        Ok(Step { stamp, sent })
    }

    /// The same of a message of the run.
    pub fn receive_message(
        &mut self,
        from: u32,
        stamp: u64,
        message: &Message<'a>,
        route: &[u32],
    ) -> Result<Step<'a>, StepFault>
        requires from { Has from self.old.control.links }
        requires stamp { stamp < 2 ^ 62 }
        requires net { message.now.net ≡ self.old.net }
        requires route { RoutesMessage self.old message.now.message route.now }
        ensures step { IfOk result (λ s. MakesStep (Receives from message.now.message) stamp self.old self.new s.stamp s.sent.items) }
        ensures interfaces { OnOk result (self.new.interfaces ≡ self.old.interfaces) }
        ensures exhausted { (s : ℕ) → IsErrOf result (StepFault.StampsExhausted s) ↔ ((max self.old.clock stamp ≡ last_stamp) × (s ≡ last_stamp)) }
        ensures err { OnErr result (self.new ≡ self.old) }
    {
        self.receive_load(from, stamp, message.load(), route)
    }

    /// Installs what is pending. It takes no memory, so its one refusal is that stamps are exhausted; the answer is the stamp.
    pub fn publish(&mut self) -> Result<u64, StepFault>
        requires { (self.old.pending ≡ []) → ⊥ }
        ensures step { IfOk result (λ stamp. MakesStep (Does TableUpdate) 0 self.old self.new stamp []) }
        ensures interfaces { OnOk result (self.new.interfaces ≡ self.old.interfaces) }
        ensures exhausted { (s : ℕ) → IsErrOf result (StepFault.StampsExhausted s) ↔ ((self.old.clock ≡ last_stamp) × (s ≡ last_stamp)) }
        ensures memory { IsErrOf result StepFault.NoMemory → ⊥ }
        ensures err { OnErr result (self.new ≡ self.old) }
    {
        let stamp = match self.next_stamp(0) {
            Ok(stamp) => stamp,
            Err(fault) => return Err(fault),
        };
        self.ledger.publish();
        self.clock = stamp;
        Ok(stamp)
    }

    /// What changed since the last table update, which turns what was installed into what is held.
    pub fn pending(&self) -> &[TableChange]
        ensures changes { result.now ≡ self.now.pending }
        ensures pending { IsPending (known_filters self.now.net.clients) self.now.interfaces (installed_from self.now)
            (subs self.now.control) self.now.pending }
    {
        self.ledger.pending()
    }

    /// The tables of the run.
    pub fn tables(&self) -> &'a Tables<'a>
        ensures { result.now ≡ self.now.net }
    {
        self.ledger.tables()
    }

    /// The interfaces, rising: the neighbours, and 64 and the number of each client that lives here.
    pub fn interfaces(&self) -> &[u32]
        ensures interfaces { result.now ≡ self.now.interfaces }
        ensures whole { self.now.interfaces ≡ interfaces_on self.now.control.links (client_numbers self.now.clients) }
        ensures rising { IsRising nat_lt self.now.interfaces }
        ensures low { (i : ℕ) → Has i self.now.interfaces → i ≤ 64 + 1024 }
        ensures few { length self.now.interfaces < 2 ^ 32 }
    {
        self.ledger.interfaces()
    }

    /// The clients that live here, rising.
    pub fn clients(&self) -> &[u32]
        ensures clients { result.now ≡ client_numbers self.now.clients }
        ensures low { (n : ℕ) → Has n (client_numbers self.now.clients) → n ≤ 1024 }
    {
        self.clients.numbers()
    }

    /// Does nothing; by its contract the filters that are held are filters of the net.
    pub fn lemma_sound(&self)
        ensures { (i : ℕ) (f : List ConstraintParts) → Has f (subs self.now.control i) → Has f (known_filters self.now.net.clients) }
    {
        self.ledger.lemma_sound();
    }

    /// The stamp of the last step, or what the clock was set to since.
    pub fn clock(&self) -> u64
        ensures clock { result ≡ self.now.clock }
        ensures below { result < 2 ^ 62 }
    {
        self.clock
    }

    /// Sets the clock, which takes no memory. A lower number takes a raise back.
    pub fn raise(&mut self, clock: u64)
        requires { clock < 2 ^ 62 }
        ensures { self.new ≡ record self.old { clock = clock } }
    {
        self.clock = clock;
    }

    /// The session of a client that lives here.
    pub fn session(&self, client: u32) -> &Session<'a>
        requires { Has client (client_numbers self.now.clients) }
        ensures session { Has (bare result.now.session) self.now.clients }
        ensures client { result.now.session.client ≡ client }
        ensures semantics { result.now.session.semantics ≡ self.now.control.semantics }
        ensures net { result.now.net ≡ self.now.net }
    {
        let Some(session) = self.clients.session(client) else {
            unreachable!()
        };
        session
    }

    /// Hands on the numbers of what was delivered to a client that lives here, whose inbox is empty then. It takes no memory.
    pub fn take_inbox(&mut self, client: u32) -> Vec<u32>
        requires { Has client (client_numbers self.old.clients) }
        ensures inbox { (s : SessionParts) → Has s self.old.clients → s.client ≡ client
            → at_numbers (known_deliveries self.old.net.clients) result.items ≡ s.inbox }
        ensures emptied { self.new ≡ without_inbox client self.old }
    {
        self.clients.take_inbox(client)
    }

    /// The number of the publication of the next command of a client that lives here; `None` where that is no publish that will
    /// be accepted, or there is none.
    pub fn next_publication(&self, client: u32) -> Option<u32>
        requires { Has client (client_numbers self.now.clients) }
        ensures known { IfSome result (λ k. k < length (known_publications 1 self.now.net.clients)) }
        ensures publish { IfSome result (λ k. (s : SessionParts) → Has s self.now.clients → s.client ≡ client
            → next_plan s ≡ Some (plans.Publish (publication_at self.now.net k).id (publication_at self.now.net k).notice)) }
        ensures none { IfNone result ((s : SessionParts) (id : Id) (n : List Attribute) → Has s self.now.clients → s.client ≡ client
            → next_plan s ≡ Some (plans.Publish id n) → ⊥) }
    {
        self.clients.lemma_sorted();
        self.session(client).next_publication()
    }
}
