//! Makes a network one that the walk schedule can drive.
use crate::keeping::Keeping;
use crate::making::next_phase;
use crate::network::RuledNetwork;
use crate::ruled::Networked;
use base::NoMemory;
use filter_text::Lists;
use net_model::{Sent, Turn};
use net_turns::Turning;

impl<'a, P: Networked<'a>, K: Keeping> Turning for RuledNetwork<'a, P, K> {
    ghost seen = { λ network. network };

    ghost trying = { P.trying };

    ghost walking = { P.walking };

    ghost telling = { P.telling };

    fn tree_phase(&self, phase: u32) -> u32 {
        P::tree_phase(phase)
    }

    fn phase(&self) -> u32 {
        P::lemma_laws();
        self.phase
    }

    fn clients(&self, server: u32) -> &[u32] {
        self.clients[server as usize - 1].as_slice()
    }

    fn next_phase(&self, client: u32) -> Option<u32> {
        P::lemma_laws();
        next_phase(self.tables.net(), &self.servers, client)
    }

    fn count(&self) -> u64 {
        self.made()
    }

    fn make(&mut self, turn: Turn) -> Result<bool, NoMemory> {
        self.turn(turn)
    }

    fn last(&self) -> Result<Lists<Sent>, NoMemory> {
        self.last_told()
    }
}
