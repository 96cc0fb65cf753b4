//! What a network asks of its servers, so that it makes turns by the rules of their kind.
ghost use Rattle.std.specs.Prelude.{◌≡◌, ℕ, List, IfOk, OnOk, OnErr};
ghost use Rattle.base.specs.Sets.{Has};
ghost use Rattle.net_model.specs.Nets.{servers_in};
ghost use Rattle.net_model.specs.Parts.{NetParts};
ghost use Rattle.net_model.specs.Sound.{IsSound};
ghost use Rattle.server_core.specs.Clients.{bare, client_numbers};
ghost use Rattle.sequential_network.specs.Acted.{Servers as ServersParts};
ghost use Rattle.sequential_network.specs.Ruling.{MayBegin, RulingLaws, StaysElse};
ghost use Rattle.sequential_network.specs.Seen.{seen};

use crate::server::Server;
use crate::servers::Servers;
use base::NoMemory;
use net_tables::Tables;
use server_session::Session;
use std::alloc::Global;

/// The servers of a kind of network, by whose rules it makes turns.
pub trait Ruled: Drop {
    ghost use Rattle.net_turns.specs.Kinds.{Trying, Walking, Telling};
    ghost use Rattle.sequential_network.specs.Ruling.{Ruling};

    /// How the turns of the network are tried.
    ghost trying: { Trying };

    /// What its walk is.
    ghost walking: { Walking trying };

    /// Which messages its journal has.
    ghost telling: { Telling trying };

    /// What it keeps.
    ghost ruling: { Ruling Self };

    /// The phase from which a phase has its tree.
    fn tree_phase(phase: u32) -> u32
        ensures { result ≡ trying.tree_phase phase };
}

/// A server of which networks are made: it begins, and begins later phases together with the others.
pub trait Networked<'a>: Server<'a> + Ruled {
    ghost use Rattle.std.specs.Prelude.{List};

    /// What the beginning of a later phase replaced at all servers.
    type Before: Drop;

    /// It takes these servers back to the old ones.
    ghost undone: { Self.Before → List Self → List Self → Type 0 };

    /// What holds of every network of its kind.
    fn lemma_laws()
        ensures { RulingLaws Self.stepping Self.trying Self.telling Self.ruling };

    /// A server of a net before its first step.
    fn start(alloc: Global, tables: &'a Tables<'a>, server: u32) -> Result<Self, NoMemory>
        requires sound { IsSound tables.now }
        requires among { Has server (servers_in tables.now) }
        ensures { IfOk result (λ place. Self.ruling.IsFirst tables.now server place) };

    /// The session of a client that lives here.
    fn session(&self, client: u32) -> &Session<'a>
        requires { Has client (client_numbers (Self.stepping.core self.now).clients) }
        ensures session { Has (bare result.now.session) (Self.stepping.core self.now).clients }
        ensures client { result.now.session.client ≡ client }
        ensures semantics { result.now.session.semantics ≡ Self.ruling.semantics self.now };

    /// Begins a later phase, which may begin, at all servers. All that is new is made first.
    fn begin(servers: &mut Servers<'a, Self>, last: u32, own: u32) -> Result<Self::Before, NoMemory>
        requires kept { Self.ruling.IsKept servers.old.tables.now last (seen servers.old) }
        requires may { MayBegin Self.stepping Self.trying servers.old.tables.now last own (seen servers.old) }
        ensures begun { OnOk result (Self.ruling.IsBegun servers.old.tables.now last own (seen servers.old) (seen servers.new)) }
        ensures back { IfOk result (λ before. undone before servers.old.places.items servers.new.places.items) }
        ensures others { StaysElse (seen servers.old) (seen servers.new) }
        ensures keeps { servers.new.journal.kept ≡ servers.old.journal.kept }
        ensures err { OnErr result (servers.new.places.items ≡ servers.old.places.items) };

    /// Takes the beginning of a phase back, where no server made a step since. It takes no memory.
    fn take_back(servers: &mut Servers<'a, Self>, before: Self::Before)
        requires { (old : List Self) × undone before old servers.old.places.items }
        ensures back { (net : NetParts) (last : ℕ) (old : ServersParts Self) → Self.ruling.IsKept net last old
            → undone before old.cores servers.old.places.items → StaysElse old (seen servers.old)
            → Self.ruling.IsKept net last (seen servers.new) }
        ensures others { StaysElse (seen servers.old) (seen servers.new) }
        ensures keeps { servers.new.journal.kept ≡ servers.old.journal.kept };
}
