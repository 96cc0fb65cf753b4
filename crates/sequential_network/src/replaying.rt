//! Makes the turns of a schedule, up to the first that isn't permitted.
ghost use Rattle.std.specs.Prelude.{ℕ, OnOk, IsErrOf};
ghost use Rattle.net_turns.specs.declared.replaying.ReplayFault.TheVariants as faults;

use crate::keeping::Keeping;
use crate::network::Network;
use net_model::Turn;
use net_turns::ReplayFault;

impl<'a, K: Keeping> Network<'a, K> {
    ghost use Rattle.net_turns.specs.Network.{IsLater};
    ghost use Rattle.net_turns.specs.Turns.{AreReplayed, AreBegun, StopsAt};

    /// Makes turns, each with its line, in their order, up to the first that is not permitted. The turns before it, and
    /// those before memory ran out, stand, and no other was made.
    pub fn replay(&mut self, turns: &[(u32, Turn)]) -> Result<(), ReplayFault>
        ensures made { OnOk result (AreReplayed turns.now self.old self.new) }
        ensures bad { (line : ℕ) → IsErrOf result (faults.BadTurn line) → StopsAt line turns.now self.old self.new }
        ensures begun { AreBegun turns.now self.old self.new }
        ensures later { IsLater self.old self.new }
    {
        for (line, turn) in turns {
            match self.turn(*turn) {
                Ok(true) => {}
                Ok(false) => return Err(ReplayFault::BadTurn(*line)),
                Err(_) => return Err(ReplayFault::NoMemory),
            }
        }
        Ok(())
    }
}
