//! The type of the core of one server of a hierarchy, with its steps.
ghost use Rattle.std.specs.Prelude.{◌≡◌, ◌<◌, ◌^◌, ◌↔◌, ◌+◌, ℕ, nat_lt, ◌==◌, cond, [], max, List, length, map, Some};
ghost use Rattle.std.specs.Prelude.{IfOk, OnOk, OnErr, IsErrOf, IfSome, IfNone};
ghost use Rattle.filter_constraints.specs.Constraint.{ConstraintParts};
ghost use Rattle.base.specs.Sets.{Has, IsRising};
ghost use Rattle.base_tree.specs.Tree.{IsServer, hop_of};
ghost use Rattle.filter_types.specs.Notice.{Attribute};
ghost use Rattle.law_machine.specs.Machine.{Does, Receives};
ghost use Rattle.law_routing.specs.Routing.{empty_server};
ghost use Rattle.law_routing.specs.Step.{NextCommand, TableUpdate};
ghost use Rattle.law_phases.specs.Trees.{net_at};
ghost use Rattle.net_model.specs.Real.{real};
ghost use Rattle.filter_text.specs.declared.id.Id.{Id};
ghost use Rattle.net_model.specs.Sound.{IsSound};
ghost use Rattle.net_model.specs.Nets.{phased_net, servers_in};
ghost use Rattle.net_tables.specs.Known.{known_filters, known_publications};
ghost use Rattle.server_spec.specs.Control.{subs};
ghost use Rattle.server_spec.specs.declared.planned.Planned.TheVariants as plans;
ghost use Rattle.server_spec.specs.Plan.{next_plan};
ghost use Rattle.server_spec.specs.Session.{SessionParts};
ghost use Rattle.net_inbox.specs.Inbox.{at_numbers};
ghost use Rattle.net_tables.specs.Found.{known_deliveries, publication_at};
ghost use Rattle.server_message.specs.Message.{IsLoad, represented};
ghost use Rattle.server_core.specs.Clients.{bare, client_numbers};
ghost use Rattle.server_core.specs.Core.{core_parts, installed_from, without_inbox};
ghost use Rattle.server_core.specs.Next.{GoesOut};
ghost use Rattle.server_core.specs.Step.{last_stamp};
ghost use Rattle.server_core.specs.Pending.{IsPending};
ghost use Rattle.server_core.specs.Routed.{IsRoute, RoutesMessage};
ghost use Rattle.hierarchy_network.specs.Core.{hierarchy_parts, RepresentsHierarchyServer};
ghost use Rattle.hierarchy_network.specs.Step.{MakesHierarchyStep};

use crate::acting::{act, act_next};
use base::NoMemory;
use base_tree::Tree;
use filter_text::Semantics;
use law_routing::interface_of;
use match_routes::TableChange;
use net_tables::Tables;
use server_core::{Clients, LAST_STAMP, Ledger, Outgoing, Step, StepFault, at_home, interfaces_of};
use server_message::{Load, Message};
use server_session::Session;
use std::alloc::Global;
use std::marker::Model;

/// The number of the server at the top.
const TOP: u32 = 1;

/// The core of a server of a hierarchy in a run: what it holds from whom, its clients, its clock, and its master.
///
/// Contracts see the net, the server, what is held, installed and pending, the clients as their commands and deliveries make
/// them, the clock, and the master's number; 0 where it has none. After any fault it is as before.
#[derive(Drop)]
pub struct HierarchyCore<'a> {
    alloc: Global,
    server: u32,
    master: u32,
    ledger: Ledger<'a>,
    clients: Clients<'a>,
    clock: u64,
}

impl<'a> Model for HierarchyCore<'a> {
    ghost use Rattle.std.specs.Prelude.{map};
    ghost use Rattle.server_core.specs.Clients.{bare};
    ghost use Rattle.server_core.specs.Core.{core_parts};
    ghost use Rattle.hierarchy_network.specs.Core.{HierarchyParts, hierarchy_parts};
    ghost use Rattle.hierarchy_network.specs.CoreKept.{IsHierarchyKept};

    ghost Value = { HierarchyParts };

    ghost view = { λ c. hierarchy_parts (core_parts c.server c.ledger (map bare c.clients.sessions) c.clock) c.master };

    ghost invariant = { λ c. IsHierarchyKept c.ledger.interfaces c.clients.net (core_parts c.server c.ledger (map bare c.clients.sessions) c.clock) };
}

/// The next hop from a server to the top; 0 at the top.
fn master_of(tree: &Tree, server: u32) -> u32
    requires server { IsServer tree.now server }
    requires top { IsServer tree.now 1 }
    ensures { result ≡ cond (server == 1) 0 (hop_of tree.now server 1) }
{
    if server == TOP {
        0
    } else {
        tree.next_hop(server, TOP)
    }
}

impl<'a> HierarchyCore<'a> {
    /// The core of a server of a net before its first step, over the tree of phase 0. All memory of what it can hold is taken
    /// here.
    pub fn start(alloc: Global, tables: &'a Tables<'a>, server: u32) -> Result<Self, NoMemory>
        requires sound { IsSound tables.now }
        requires among { Has server (servers_in tables.now) }
        ensures net { IfOk result (λ parts. parts.core.net ≡ tables.now) }
        ensures server { IfOk result (λ parts. parts.core.server ≡ server) }
        ensures state { IfOk result (λ parts. RepresentsHierarchyServer (net_at real (phased_net tables.now) 0) parts
            (empty_server real (net_at real (phased_net tables.now) 0))) }
        ensures clock { IfOk result (λ parts. parts.core.clock ≡ 0) }
    {
        let tree = tables.net().tree(0);
        let links = tree.neighbours(server);
        let clients = at_home(alloc, tables, server)?;
        let interfaces = interfaces_of(alloc, links, clients.numbers())?;
        let ledger = Ledger::new(
            alloc,
            tables,
            Semantics::Subscription,
            &interfaces,
            links.len(),
        )?;
        Ok(HierarchyCore {
            alloc,
            server,
            master: master_of(tree, server),
            ledger,
            clients,
            clock: 0,
        })
    }

    /// The stamp of a step that receives a message with this stamp, or 0.
    fn next_stamp(&self, taken: u64) -> Result<u64, StepFault>
        requires { taken < 2 ^ 62 }
        ensures ok { IfOk result (λ stamp. (stamp ≡ 1 + max self.now.core.clock taken) × (stamp < 2 ^ 62)) }
        ensures exhausted { (s : ℕ) → IsErrOf result (StepFault.StampsExhausted s) ↔ ((max self.now.core.clock taken ≡ last_stamp) × (s ≡ last_stamp)) }
        ensures memory { IsErrOf result StepFault.NoMemory → ⊥ }
    {
        let last = self.clock.max(taken);
        if last == LAST_STAMP {
            return Err(StepFault::StampsExhausted(last));
        }
        Ok(last + 1)
    }

    /// Executes the next command of a client that lives here and has one left: a publish that is accepted, of the publication that goes
    /// out, or where none does no such publish.
    fn take_next(
        &mut self,
        client: u32,
        outgoing: Option<Outgoing<'_>>,
    ) -> Result<Step<'a>, StepFault>
        requires lives { Has client (client_numbers self.old.core.clients) }
        requires left { (s : SessionParts) → Has s self.old.core.clients → s.client ≡ client → s.taken < length s.script }
        requires goes { GoesOut self.old.core client outgoing }
        ensures step { IfOk result (λ s. MakesHierarchyStep (Does (NextCommand client)) 0 self.old self.new s.stamp s.sent.items) }
        ensures interfaces { OnOk result (self.new.core.interfaces ≡ self.old.core.interfaces) }
        ensures installed { OnOk result (self.new.core.installed ≡ self.old.core.installed) }
        ensures exhausted { (s : ℕ) → IsErrOf result (StepFault.StampsExhausted s) ↔ ((self.old.core.clock ≡ last_stamp) × (s ≡ last_stamp)) }
        ensures err { OnErr result (self.new ≡ self.old) }
    {
        let stamp = match self.next_stamp(0) {
            Ok(stamp) => stamp,
            Err(fault) => return Err(fault),
        };
        self.clients.lemma_sorted();
        let plan = self.clients.plan(client)?;
        let sent = act_next(
            self.alloc,
            &mut self.ledger,
            &mut self.clients,
            self.master,
            interface_of(client),
            outgoing,
            &plan,
        )?;
        self.clients.commit(client, &plan);
        self.clock = stamp;
        Ok(Step { stamp, sent })
    }

    /// Executes the next command of a client that lives here and has one left, where that is no publish that is accepted. The
    /// message of a change goes to the master, where what goes up changed.
    pub fn take_command(&mut self, client: u32) -> Result<Step<'a>, StepFault>
        requires lives { Has client (client_numbers self.old.core.clients) }
        requires left { (s : SessionParts) → Has s self.old.core.clients → s.client ≡ client → s.taken < length s.script }
        requires silent { (s : SessionParts) (id : Id) (n : List Attribute) → Has s self.old.core.clients → s.client ≡ client
            → next_plan s ≡ Some (plans.Publish id n) → ⊥ }
        ensures step { IfOk result (λ s. MakesHierarchyStep (Does (NextCommand client)) 0 self.old self.new s.stamp s.sent.items) }
        ensures interfaces { OnOk result (self.new.core.interfaces ≡ self.old.core.interfaces) }
        ensures installed { OnOk result (self.new.core.installed ≡ self.old.core.installed) }
        ensures exhausted { (s : ℕ) → IsErrOf result (StepFault.StampsExhausted s) ↔ ((self.old.core.clock ≡ last_stamp) × (s ≡ last_stamp)) }
        ensures err { OnErr result (self.new ≡ self.old) }
    {
        self.take_next(client, None)
    }

    /// Executes the next command of a client that lives here and has one left, a publish that is accepted: of the publication with
    /// this number, whose route is that of its notice by what was installed.
    pub fn take_publish(
        &mut self,
        client: u32,
        number: u32,
        route: &[u32],
    ) -> Result<Step<'a>, StepFault>
        requires lives { Has client (client_numbers self.old.core.clients) }
        requires left { (s : SessionParts) → Has s self.old.core.clients → s.client ≡ client → s.taken < length s.script }
        requires publish { (s : SessionParts) → Has s self.old.core.clients → s.client ≡ client
            → next_plan s ≡ Some (plans.Publish (publication_at self.old.core.net number).id (publication_at self.old.core.net number).notice) }
        requires known { number < length (known_publications 1 self.old.core.net.clients) }
        requires route { IsRoute (publication_at self.old.core.net number).notice (installed_from self.old.core) route.now }
        ensures step { IfOk result (λ s. MakesHierarchyStep (Does (NextCommand client)) 0 self.old self.new s.stamp s.sent.items) }
        ensures interfaces { OnOk result (self.new.core.interfaces ≡ self.old.core.interfaces) }
        ensures installed { OnOk result (self.new.core.installed ≡ self.old.core.installed) }
        ensures exhausted { (s : ℕ) → IsErrOf result (StepFault.StampsExhausted s) ↔ ((self.old.core.clock ≡ last_stamp) × (s ≡ last_stamp)) }
        ensures err { OnErr result (self.new ≡ self.old) }
    {
        self.take_next(client, Some(Outgoing { number, route }))
    }

    /// Receives what a neighbour sent with its stamp. Where it is a publication, the route is that of its notice by what was
    /// installed.
    pub fn receive_load(
        &mut self,
        from: u32,
        stamp: u64,
        load: &Load,
        route: &[u32],
    ) -> Result<Step<'a>, StepFault>
        requires from { Has from self.old.core.control.links }
        requires stamp { stamp < 2 ^ 62 }
        requires load { IsLoad self.old.core.net load.now }
        requires route { RoutesMessage self.old.core (represented self.old.core.net load.now) route.now }
        ensures step { IfOk result (λ s. MakesHierarchyStep (Receives from (represented self.old.core.net load.now)) stamp self.old self.new
            s.stamp s.sent.items) }
        ensures interfaces { OnOk result (self.new.core.interfaces ≡ self.old.core.interfaces) }
        ensures installed { OnOk result (self.new.core.installed ≡ self.old.core.installed) }
        ensures exhausted { (s : ℕ) → IsErrOf result (StepFault.StampsExhausted s) ↔ ((max self.old.core.clock stamp ≡ last_stamp) × (s ≡ last_stamp)) }
        ensures err { OnErr result (self.new ≡ self.old) }
    {
        let stamp = match self.next_stamp(stamp) {
            Ok(stamp) => stamp,
            Err(fault) => return Err(fault),
        };
        let sent = act(
            self.alloc,
            &mut self.ledger,
            self.master,
            &mut self.clients,
            from,
            load,
            route,
        )?;
        self.clock = stamp;
        Ok(Step { stamp, sent })
    }

    /// The same of a message of the run.
    pub fn receive_message(
        &mut self,
        from: u32,
        stamp: u64,
        message: &Message<'a>,
        route: &[u32],
    ) -> Result<Step<'a>, StepFault>
        requires from { Has from self.old.core.control.links }
        requires stamp { stamp < 2 ^ 62 }
        requires net { message.now.net ≡ self.old.core.net }
        requires route { RoutesMessage self.old.core message.now.message route.now }
        ensures step { IfOk result (λ s. MakesHierarchyStep (Receives from message.now.message) stamp self.old self.new s.stamp s.sent.items) }
        ensures interfaces { OnOk result (self.new.core.interfaces ≡ self.old.core.interfaces) }
        ensures installed { OnOk result (self.new.core.installed ≡ self.old.core.installed) }
        ensures exhausted { (s : ℕ) → IsErrOf result (StepFault.StampsExhausted s) ↔ ((max self.old.core.clock stamp ≡ last_stamp) × (s ≡ last_stamp)) }
        ensures err { OnErr result (self.new ≡ self.old) }
    {
        self.receive_load(from, stamp, message.load(), route)
    }

    /// Installs what is pending. It takes no memory, so its one refusal is that stamps are exhausted; the answer is the stamp.
    pub fn publish(&mut self) -> Result<u64, StepFault>
        requires { (self.old.core.pending ≡ []) → ⊥ }
        ensures step { IfOk result (λ stamp. MakesHierarchyStep (Does TableUpdate) 0 self.old self.new stamp []) }
        ensures interfaces { OnOk result (self.new.core.interfaces ≡ self.old.core.interfaces) }
        ensures installed { OnOk result (self.new.core.installed ≡ self.old.core.control.filters) }
        ensures exhausted { (s : ℕ) → IsErrOf result (StepFault.StampsExhausted s) ↔ ((self.old.core.clock ≡ last_stamp) × (s ≡ last_stamp)) }
        ensures memory { IsErrOf result StepFault.NoMemory → ⊥ }
        ensures err { OnErr result (self.new ≡ self.old) }
    {
        let stamp = match self.next_stamp(0) {
            Ok(stamp) => stamp,
            Err(fault) => return Err(fault),
        };
        self.ledger.publish();
        self.clock = stamp;
        Ok(stamp)
    }
}

impl<'a> HierarchyCore<'a> {
    /// What changed since the last table update, which turns what was installed into what is held.
    pub fn pending(&self) -> &[TableChange]
        ensures changes { result.now ≡ self.now.core.pending }
        ensures pending { IsPending (known_filters self.now.core.net.clients) self.now.core.interfaces (installed_from self.now.core)
            (subs self.now.core.control) self.now.core.pending }
    {
        self.ledger.pending()
    }

    /// The tables of the run.
    pub fn tables(&self) -> &'a Tables<'a>
        ensures { result.now ≡ self.now.core.net }
    {
        self.ledger.tables()
    }

    /// The interfaces, rising: the neighbours, and 64 and the number of each client that lives here.
    pub fn interfaces(&self) -> &[u32]
        ensures interfaces { result.now ≡ self.now.core.interfaces }
        ensures rising { IsRising nat_lt self.now.core.interfaces }
        ensures few { length self.now.core.interfaces < 2 ^ 32 }
    {
        self.ledger.interfaces()
    }

    /// Does nothing; by its contract the filters that are held are filters of the net.
    pub fn lemma_sound(&self)
        ensures { (i : ℕ) (f : List ConstraintParts) → Has f (subs self.now.core.control i) → Has f (known_filters self.now.core.net.clients) }
    {
        self.ledger.lemma_sound();
    }

    /// The stamp of the last step, or what the clock was set to since.
    pub fn clock(&self) -> u64
        ensures clock { result ≡ self.now.core.clock }
        ensures below { result < 2 ^ 62 }
    {
        self.clock
    }

    /// Sets the clock, which takes no memory. A lower number takes a raise back.
    pub fn raise(&mut self, clock: u64)
        requires { clock < 2 ^ 62 }
        ensures { self.new ≡ hierarchy_parts (record self.old.core { clock = clock }) self.old.master }
    {
        self.clock = clock;
    }

    /// The session of a client that lives here.
    pub fn session(&self, client: u32) -> &Session<'a>
        requires { Has client (client_numbers self.now.core.clients) }
        ensures session { Has (bare result.now.session) self.now.core.clients }
        ensures client { result.now.session.client ≡ client }
        ensures semantics { result.now.session.semantics ≡ self.now.core.net.semantics }
        ensures net { result.now.net ≡ self.now.core.net }
    {
        let Some(session) = self.clients.session(client) else {
            unreachable!()
        };
        session
    }

    /// Hands on the numbers of what was delivered to a client that lives here, whose inbox is empty then. It takes no memory.
    pub fn take_inbox(&mut self, client: u32) -> Vec<u32>
        requires { Has client (client_numbers self.old.core.clients) }
        ensures inbox { (s : SessionParts) → Has s self.old.core.clients → s.client ≡ client
            → at_numbers (known_deliveries self.old.core.net.clients) result.items ≡ s.inbox }
        ensures emptied { self.new ≡ hierarchy_parts (without_inbox client self.old.core) self.old.master }
    {
        self.clients.take_inbox(client)
    }

    /// The number of the publication of the next command of a client that lives here; `None` where that is no publish that will
    /// be accepted, or there is none.
    pub fn next_publication(&self, client: u32) -> Option<u32>
        requires { Has client (client_numbers self.now.core.clients) }
        ensures known { IfSome result (λ k. k < length (known_publications 1 self.now.core.net.clients)) }
        ensures publish { IfSome result (λ k. (s : SessionParts) → Has s self.now.core.clients → s.client ≡ client
            → next_plan s ≡ Some (plans.Publish (publication_at self.now.core.net k).id (publication_at self.now.core.net k).notice)) }
        ensures none { IfNone result ((s : SessionParts) (id : Id) (n : List Attribute) → Has s self.now.core.clients → s.client ≡ client
            → next_plan s ≡ Some (plans.Publish id n) → ⊥) }
    {
        self.clients.lemma_sorted();
        self.session(client).next_publication()
    }
}
