//! A server in a network of a hierarchy: its core, and what it installed by numbers.
ghost use Rattle.std.specs.Prelude.{◌≡◌, ◌<◌, ◌^◌, length, IfOk, OnErr};
ghost use Rattle.base.specs.Sets.{Has};
ghost use Rattle.law_machine.specs.Machine.{Does, Receives};
ghost use Rattle.law_routing.specs.Step.{NextCommand};
ghost use Rattle.net_model.specs.Nets.{servers_in};
ghost use Rattle.net_model.specs.Sound.{IsSound};
ghost use Rattle.net_tables.specs.Known.{known_publications};
ghost use Rattle.net_tables.specs.Found.{publication_at};
ghost use Rattle.server_spec.specs.declared.planned.Planned.TheVariants as plans;
ghost use Rattle.server_spec.specs.Session.{SessionParts};
ghost use Rattle.server_spec.specs.Plan.{next_plan};
ghost use Rattle.server_core.specs.Clients.{client_numbers};
ghost use Rattle.server_core.specs.Step.{last_stamp};
ghost use Rattle.hierarchy_network.specs.Step.{MakesHierarchyStep};
ghost use Rattle.hierarchy_network.specs.Kept.{IsFirst};
ghost use Rattle.hierarchy_network.specs.Clocks.{with_clock};

use crate::HierarchyCore;
use crate::clocks::{raise_all, set_clocks};
use base::NoMemory;
use match_routes::Forwarding;
use net_tables::Tables;
use sequential_network::{
    Networked, Ruled, Server, Servers, StampedMessage, route, routed, unexhausted, unpublished,
};
use server_core::Step;
use server_session::Session;
use std::alloc::Global;
use std::marker::Model;

/// A server of a hierarchy: its core, and the pairs of numbers and interfaces that it installed; contracts see the core. After
/// a fault it is as before.
pub struct ForwardingServer<'a> {
    core: HierarchyCore<'a>,
    forwarding: Forwarding,
}

// A function of its own, which the crates above call: a derived one would be proved in each of them.
impl Drop for ForwardingServer<'_> {
    fn drop(self) {
        let Self {
            core: _,
            forwarding: _,
        } = self;
    }
}

impl<'a> Model for ForwardingServer<'a> {
    ghost use Rattle.hierarchy_network.specs.Core.{HierarchyParts};
    ghost use Rattle.sequential_network.specs.Kept.{IsPlace};

    ghost Value = { HierarchyParts };

    ghost view = { λ place. place.core };

    ghost invariant = { λ place. IsPlace place.core.core place.forwarding };
}

impl<'a> ForwardingServer<'a> {
    /// Its core.
    pub(crate) fn core(&self) -> &HierarchyCore<'a>
        ensures { result.now ≡ self.now }
    {
        &self.core
    }

    /// Sets its clock.
    pub(crate) fn raise(&mut self, clock: u64)
        requires { clock < 2 ^ 62 }
        ensures { self.new ≡ with_clock clock self.old }
    {
        self.core.raise(clock);
    }
}

/// The servers of a network of a hierarchy.
pub(crate) type Ranks<'a> = Servers<'a, ForwardingServer<'a>>;

impl<'a> ForwardingServer<'a> {
    /// Executes the next command of a client that lives here: a publish of the publication with a number, which is accepted.
    fn publish(&mut self, alloc: Global, client: u32, number: u32) -> Result<Step<'a>, NoMemory>
        requires lives { Has client (client_numbers self.old.core.clients) }
        requires left { (s : SessionParts) → Has s self.old.core.clients → s.client ≡ client → s.taken < length s.script }
        requires known { number < length (known_publications 1 self.old.core.net.clients) }
        requires publish { (s : SessionParts) → Has s self.old.core.clients → s.client ≡ client
            → next_plan s ≡ Some (plans.Publish (publication_at self.old.core.net number).id (publication_at self.old.core.net number).notice) }
        requires low { self.old.core.clock < last_stamp }
        ensures step { IfOk result (λ s. MakesHierarchyStep (Does (NextCommand client)) 0 self.old self.new s.stamp s.sent.items) }
        ensures err { OnErr result (self.new ≡ self.old) }
    {
        let tables = self.core.tables();
        let route = routed(alloc, tables, &self.forwarding, number)?;
        unexhausted(self.core.take_publish(client, number, route.interfaces()))
    }
}

impl<'a> Ruled for ForwardingServer<'a> {
    ghost use Rattle.hierarchy_turns.proofs.Scheduled.{hierarchy_trying, hierarchy_walking, hierarchy_telling};
    ghost use Rattle.hierarchy_network.specs.Ruling.{hierarchy_ruling};

    ghost trying = { hierarchy_trying };

    ghost walking = { hierarchy_walking };

    ghost telling = { hierarchy_telling };

    ghost ruling = { hierarchy_ruling };

    fn tree_phase(_phase: u32) -> u32
        ensures { result ≡ 0 }
    {
        0
    }
}

impl<'a> Networked<'a> for ForwardingServer<'a> {
    ghost use Rattle.hierarchy_turns.proofs.Scheduled.{hierarchy_trying, hierarchy_telling};
    ghost use Rattle.sequential_network.specs.Ruling.{RulingLaws};
    ghost use Rattle.hierarchy_network.specs.Ruling.{hierarchy_ruling, WereRaised};
    ghost use Rattle.hierarchy_network.specs.Stepping.{hierarchy};

    type Before = Vec<u64>;

    ghost undone = { WereRaised };

    fn lemma_laws()
        ensures { RulingLaws hierarchy hierarchy_trying hierarchy_telling hierarchy_ruling }
    {}

    fn start(
        alloc: Global,
        tables: &'a Tables<'a>,
        server: u32,
    ) -> Result<ForwardingServer<'a>, NoMemory> {
        let core = HierarchyCore::start(alloc, tables, server)?;
        let forwarding = unpublished(alloc, tables, core.interfaces())?;
        Ok(ForwardingServer { core, forwarding })
    }

    fn session(&self, client: u32) -> &Session<'a> {
        self.core.session(client)
    }

    fn begin(servers: &mut Ranks<'a>, _last: u32, _own: u32) -> Result<Vec<u64>, NoMemory> {
        raise_all(servers.alloc, &mut servers.places)
    }

    fn take_back(servers: &mut Ranks<'a>, before: Vec<u64>) {
        set_clocks(&mut servers.places, &before);
    }
}

impl<'a> Server<'a> for ForwardingServer<'a> {
    ghost use Rattle.hierarchy_network.specs.Stepping.{hierarchy};

    ghost stepping = { hierarchy };

    fn command(&mut self, alloc: Global, client: u32) -> Result<Step<'a>, NoMemory> {
        match self.core.next_publication(client) {
            Some(number) => self.publish(alloc, client, number),
            None => unexhausted(self.core.take_command(client)),
        }
    }

    fn take(
        &mut self,
        alloc: Global,
        from: u32,
        waiting: &StampedMessage<'a>,
    ) -> Result<Step<'a>, NoMemory> {
        let tables = self.core.tables();
        let load = waiting.message.load();
        let route = route(alloc, tables, &self.forwarding, load)?;
        unexhausted(
            self.core
                .receive_message(from, waiting.stamp, &waiting.message, route.interfaces()),
        )
    }

    fn update_table(&mut self) -> u64 {
        self.core.lemma_sound();
        self.forwarding.apply(self.core.pending());
        match self.core.publish() {
            Ok(stamp) => stamp,
            Err(_) => unreachable!(),
        }
    }

    fn clock(&self) -> u64 {
        self.core.clock()
    }

    fn is_calm(&self) -> bool {
        self.core.pending().is_empty()
    }

    fn take_inbox(&mut self, client: u32) -> Vec<u32> {
        self.core.take_inbox(client)
    }
}
