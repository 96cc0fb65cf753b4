//! Walks a network: the rest of one phase, or of all phases.
ghost use Rattle.std.specs.Prelude.{OnOk, OnErr, IfOk};

use crate::keeping::Keeping;
use crate::network::RuledNetwork;
use crate::ruled::Networked;
use base::NoMemory;

impl<'a, P: Networked<'a>, K: Keeping> RuledNetwork<'a, P, K> {
    ghost use Rattle.net_turns.specs.Network.{IsLater};

    /// Makes what is left of the phase in hand, or else of the next phase that has something left, and answers whether
    /// there was something: false exactly where all commands are executed, all links are empty and nothing is pending.
    /// After running out of memory the turns that were made stand: a beginning of these.
    pub fn walk_phase(&mut self) -> Result<bool, NoMemory>
        ensures walked { IfOk result (λ some. P.walking.IsPhaseOf some self.old self.new) }
        ensures begun { OnErr result (P.walking.IsPhaseBegun self.old self.new) }
        ensures err { OnErr result (IsLater self.old self.new) }
    {
        let net = self.tables.net();
        net_turns::walk_phase(self, net)
    }

    /// Makes what is left of all phases, so that all commands are executed, all links are empty and nothing is pending.
    /// After running out of memory the turns that were made stand: a beginning of these.
    pub fn walk(&mut self) -> Result<(), NoMemory>
        ensures walked { OnOk result (P.walking.IsWalked self.old self.new) }
        ensures begun { OnErr result (P.walking.IsWalkBegun self.old self.new) }
        ensures err { OnErr result (IsLater self.old self.new) }
    {
        let net = self.tables.net();
        net_turns::walk(self, net)
    }
}
