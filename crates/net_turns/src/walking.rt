//! Makes the turns of the walk schedule, phase by phase.
ghost use Rattle.std.specs.Prelude.{◌≡◌, OnOk, OnErr, IfOk};
ghost use Rattle.net_turns.specs.Network.{IsLater};

use crate::trying::make_phase;
use crate::turning::Turning;
use base::NoMemory;
use net_model::Net;

/// Makes what is left of the phase in hand, or else of the next phase that has something left, and answers whether
/// there was something. After running out of memory the turns that were made stand: a beginning of these.
pub fn walk_phase<N: Turning>(network: &mut N, net: &Net) -> Result<bool, NoMemory>
    requires { net.now ≡ (N.seen network.old).net }
    ensures walked { IfOk result (λ some. N.walking.IsPhaseOf some (N.seen network.old) (N.seen network.new)) }
    ensures begun { OnErr result (N.walking.IsPhaseBegun (N.seen network.old) (N.seen network.new)) }
    ensures err { OnErr result (IsLater (N.seen network.old) (N.seen network.new)) }
{
    let before = network.count();
    for phase in network.phase()..net.phases() {
        make_phase(network, net, phase)?;
        if network.count() > before {
            return Ok(true);
        }
    }
    Ok(false)
}

/// Makes what is left of all phases, so that all commands are executed, all links are empty and nothing is pending.
/// After running out of memory the turns that were made stand: a beginning of these.
pub fn walk<N: Turning>(network: &mut N, net: &Net) -> Result<(), NoMemory>
    requires { net.now ≡ (N.seen network.old).net }
    ensures walked { OnOk result (N.walking.IsWalked (N.seen network.old) (N.seen network.new)) }
    ensures begun { OnErr result (N.walking.IsWalkBegun (N.seen network.old) (N.seen network.new)) }
    ensures err { OnErr result (IsLater (N.seen network.old) (N.seen network.new)) }
{
    for phase in network.phase()..net.phases() {
        make_phase(network, net, phase)?;
    }
    Ok(())
}
