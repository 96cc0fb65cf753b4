//! A server in the network: its core, and what it installed by numbers.
ghost use Rattle.std.specs.Prelude.{◌≡◌, ◌<◌, ◌^◌, ℕ, nat_lt, [], length, Some, Ok, Err, IfOk, OnErr};
ghost use Rattle.base.specs.Sets.{Has, IsRising};
ghost use Rattle.law_machine.specs.Machine.{Does, Receives};
ghost use Rattle.law_routing.specs.Step.{NextCommand};
ghost use Rattle.net_model.specs.Nets.{servers_in};
ghost use Rattle.net_model.specs.Sound.{IsSound};
ghost use Rattle.net_tables.specs.Known.{known_filters, known_publications};
ghost use Rattle.net_tables.specs.Found.{publication_at};
ghost use Rattle.server_spec.specs.declared.planned.Planned.TheVariants as plans;
ghost use Rattle.server_spec.specs.Session.{SessionParts};
ghost use Rattle.server_spec.specs.Plan.{next_plan};
ghost use Rattle.server_core.specs.Clients.{client_numbers};
ghost use Rattle.server_core.specs.Step.{MakesStep, last_stamp};
ghost use Rattle.sequential_network.specs.Kept.{IsFirst};
ghost use Rattle.sequential_network.specs.Stepping.{IsSome, peers};

use crate::begin::{begin, take_back};
use crate::relinking::Standing;
use crate::routing::{route, routed};
use crate::ruled::{Networked, Ruled};
use crate::server::Server;
use crate::servers::Servers;
use crate::stamped_message::StampedMessage;
use base::NoMemory;
use match_routes::Forwarding;
use net_tables::Tables;
use server_core::{Core, Step, StepFault};
use server_session::Session;
use std::alloc::Global;
use std::marker::Model;

/// A server of peers: its core, and the pairs of numbers and interfaces that it installed; contracts see the core. After a
/// fault it is as before.
pub struct ForwardingServer<'a> {
    pub(crate) core: Core<'a>,
    pub(crate) forwarding: Forwarding,
}

// A function of its own, which the crates above call: a derived one would be proved in each of them.
impl Drop for ForwardingServer<'_> {
    fn drop(self) {
        let Self {
            core: _,
            forwarding: _,
        } = self;
    }
}

impl<'a> Model for ForwardingServer<'a> {
    ghost use Rattle.server_core.specs.Core.{CoreParts};
    ghost use Rattle.sequential_network.specs.Kept.{IsPlace};

    ghost Value = { CoreParts };

    ghost view = { λ place. place.core };

    ghost invariant = { λ place. IsPlace place.core place.forwarding };
}

/// The forwarding of a server with these interfaces, of which nothing is installed.
pub fn unpublished(
    alloc: Global,
    tables: &Tables<'_>,
    interfaces: &[u32],
) -> Result<Forwarding, NoMemory>
    requires rising { IsRising nat_lt interfaces.now }
    requires few { length interfaces.now < 2 ^ 32 }
    ensures width { IfOk result (λ f. f.width ≡ length (known_filters tables.now.clients)) }
    ensures interfaces { IfOk result (λ f. f.interfaces ≡ interfaces.now) }
    ensures pairs { IfOk result (λ f. f.pairs ≡ []) }
{
    let catalogue = tables.catalogue();
    catalogue.lemma_sound();
    let width = catalogue.filters().len() as u32;
    Forwarding::new(alloc, width, interfaces)
}

impl<'a> ForwardingServer<'a> {
    /// Its core.
    pub(crate) fn core(&self) -> &Core<'a>
        ensures { result.now ≡ self.now }
    {
        &self.core
    }

    /// Sets its clock.
    pub(crate) fn raise(&mut self, clock: u64)
        requires { clock < 2 ^ 62 }
        ensures { self.new ≡ record self.old { clock = clock } }
    {
        self.core.raise(clock);
    }
}

/// The servers of a network of peers.
pub(crate) type Peers<'a> = Servers<'a, ForwardingServer<'a>>;

impl<'a> ForwardingServer<'a> {
    /// Executes the next command of a client that lives here: a publish of the publication with a number, which is accepted.
    fn publish(&mut self, alloc: Global, client: u32, number: u32) -> Result<Step<'a>, NoMemory>
        requires lives { Has client (client_numbers self.old.clients) }
        requires left { (s : SessionParts) → Has s self.old.clients → s.client ≡ client → s.taken < length s.script }
        requires known { number < length (known_publications 1 self.old.net.clients) }
        requires publish { (s : SessionParts) → Has s self.old.clients → s.client ≡ client
            → next_plan s ≡ Some (plans.Publish (publication_at self.old.net number).id (publication_at self.old.net number).notice) }
        requires stands { IsSome peers self.old }
        requires low { self.old.clock < last_stamp }
        ensures step { IfOk result (λ s. MakesStep (Does (NextCommand client)) 0 self.old self.new s.stamp s.sent.items) }
        ensures err { OnErr result (self.new ≡ self.old) }
    {
        let tables = self.core.tables();
        let route = routed(alloc, tables, &self.forwarding, number)?;
        unexhausted(self.core.take_publish(client, number, route.interfaces()))
    }
}

impl<'a> Ruled for ForwardingServer<'a> {
    ghost use Rattle.net_turns.proofs.Peers.{peers_trying, peers_walking, peers_telling};
    ghost use Rattle.sequential_network.specs.PeersRuling.{peers_ruling};

    ghost trying = { peers_trying };

    ghost walking = { peers_walking };

    ghost telling = { peers_telling };

    ghost ruling = { peers_ruling };

    fn tree_phase(phase: u32) -> u32
        ensures { result ≡ phase }
    {
        phase
    }
}

impl<'a> Networked<'a> for ForwardingServer<'a> {
    ghost use Rattle.sequential_network.specs.Begin.{IsUndoneBy};
    ghost use Rattle.net_turns.proofs.Peers.{peers_trying, peers_telling};
    ghost use Rattle.sequential_network.specs.PeersRuling.{peers_ruling};
    ghost use Rattle.sequential_network.specs.Ruling.{RulingLaws};
    ghost use Rattle.sequential_network.specs.Stepping.{peers};

    type Before = Vec<Standing<'a>>;

    ghost undone = { λ before. IsUndoneBy before.items };

    fn lemma_laws()
        ensures { RulingLaws peers peers_trying peers_telling peers_ruling }
    {}

    fn start(
        alloc: Global,
        tables: &'a Tables<'a>,
        server: u32,
    ) -> Result<ForwardingServer<'a>, NoMemory> {
        let core = Core::start(alloc, tables, server)?;
        let forwarding = unpublished(alloc, tables, core.interfaces())?;
        Ok(ForwardingServer { core, forwarding })
    }

    fn session(&self, client: u32) -> &Session<'a> {
        self.core.session(client)
    }

    fn begin(servers: &mut Peers<'a>, last: u32, own: u32) -> Result<Vec<Standing<'a>>, NoMemory> {
        let tables = servers.tables;
        begin(servers.alloc, tables, &mut servers.places, last, own)
    }

    fn take_back(servers: &mut Peers<'a>, before: Vec<Standing<'a>>) {
        take_back(&mut servers.places, before);
    }
}

impl<'a> Server<'a> for ForwardingServer<'a> {
    ghost use Rattle.sequential_network.specs.Stepping.{peers};

    ghost stepping = { peers };

    fn command(&mut self, alloc: Global, client: u32) -> Result<Step<'a>, NoMemory> {
        match self.core.next_publication(client) {
            Some(number) => self.publish(alloc, client, number),
            None => unexhausted(self.core.take_command(client)),
        }
    }

    fn take(
        &mut self,
        alloc: Global,
        from: u32,
        waiting: &StampedMessage<'a>,
    ) -> Result<Step<'a>, NoMemory> {
        let tables = self.core.tables();
        let load = waiting.message.load();
        let route = route(alloc, tables, &self.forwarding, load)?;
        unexhausted(
            self.core
                .receive_message(from, waiting.stamp, &waiting.message, route.interfaces()),
        )
    }

    fn update_table(&mut self) -> u64 {
        self.core.lemma_sound();
        self.forwarding.apply(self.core.pending());
        match self.core.publish() {
            Ok(stamp) => stamp,
            Err(_) => unreachable!(),
        }
    }

    fn clock(&self) -> u64 {
        self.core.clock()
    }

    fn is_calm(&self) -> bool {
        self.core.pending().is_empty()
    }

    fn take_inbox(&mut self, client: u32) -> Vec<u32> {
        self.core.take_inbox(client)
    }
}

/// What a step answers that no stamp can keep from being made.
pub fn unexhausted<T>(answer: Result<T, StepFault>) -> Result<T, NoMemory>
    requires { (s : ℕ) → answer ≡ Err (StepFault.StampsExhausted s) → ⊥ }
    ensures ok { IfOk result (λ x. answer ≡ Ok x) }
    ensures err { OnErr result (answer ≡ Err StepFault.NoMemory) }
{
    match answer {
        Ok(made) => Ok(made),
        Err(StepFault::NoMemory) => Err(NoMemory),
        Err(StepFault::StampsExhausted(_)) => unreachable!(),
    }
}
