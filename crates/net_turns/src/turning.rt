//! The trait that says what the walk schedule asks of a network.
ghost use Rattle.std.specs.Prelude.{◌≡◌, ◌≤◌, ◌∷◌, ◌++◌, [], List, length, IfOk, OnErr};
ghost use Rattle.base.specs.Sets.{Has};
ghost use Rattle.net_model.specs.Parts.{EntryParts};
ghost use Rattle.net_model.specs.Nets.{servers_in, clients_of};
ghost use Rattle.net_model.specs.Sound.{IsSound};

use base::NoMemory;
use filter_text::Lists;
use net_model::{Sent, Turn};

/// What makes turns over a net: a network of some kind.
pub trait Turning {
    ghost use Rattle.net_turns.specs.Network.{NetworkParts};
    ghost use Rattle.net_turns.specs.Kinds.{Trying, Walking, Telling};

    /// Its net and its journal.
    ghost seen: { Self → NetworkParts };

    /// How its turns are tried.
    ghost trying: { Trying };

    /// What the walk is.
    ghost walking: { Walking trying };

    /// Which messages a journal has.
    ghost telling: { Telling trying };

    /// The phase from which a phase has its tree.
    fn tree_phase(&self, phase: u32) -> u32
        ensures { result ≡ trying.tree_phase phase };

    /// The phase of the last command.
    fn phase(&self) -> u32
        ensures phase { result ≡ trying.phase_by (seen self.now).net (seen self.now).journal }
        ensures sound { IsSound (seen self.now).net }
        ensures legal { trying.IsLegal (seen self.now).net (seen self.now).journal };

    /// The clients of a server, rising.
    fn clients(&self, server: u32) -> &[u32]
        requires { Has server (servers_in (seen self.now).net) }
        ensures { result.now ≡ clients_of (seen self.now).net server };

    /// The phase of a client's next command; `None` where it has none left.
    fn next_phase(&self, client: u32) -> Option<u32>
        requires { (1 ≤ client) × (client ≤ length (seen self.now).net.clients) }
        ensures { result ≡ trying.next_phase_by (seen self.now).net (seen self.now).journal client };

    /// How many turns were made.
    fn count(&self) -> u64
        ensures count { result ≡ length (seen self.now).journal }
        ensures sound { IsSound (seen self.now).net }
        ensures legal { trying.IsLegal (seen self.now).net (seen self.now).journal };

    /// Makes a turn where it is permitted, and answers whether it is. Where it is not, and after running out of memory, the
    /// network is as before.
    fn make(&mut self, turn: Turn) -> Result<bool, NoMemory>
        ensures turn { IfOk result (λ made. trying.IsTurn made turn (seen self.old) (seen self.new)) }
        ensures err { OnErr result (seen self.new ≡ seen self.old) };

    /// The texts of the messages of the last turn, by rising neighbour.
    fn last(&self) -> Result<Lists<Sent>, NoMemory>
        ensures { IfOk result (λ told. (before : List EntryParts) (entry : EntryParts) → (seen self.now).journal ≡ before ++ entry ∷ []
            → told ≡ telling.told_at (seen self.now).net (seen self.now).journal (length before) entry) };
}
