//! Turns of the walk, tried one after the other.
ghost use Rattle.std.specs.Prelude.{◌≡◌, ◌≤◌, ◌<◌, ◌∷◌, [], ℕ, true, false, length, OnOk, OnErr, IfOk};
ghost use Rattle.base.specs.Sets.{Has};
ghost use Rattle.law_routing.specs.Walk.{enough_rounds};
ghost use Rattle.law_phases.specs.Trees.{net_at};
ghost use Rattle.net_model.specs.Real.{real};
ghost use Rattle.net_model.specs.Nets.{phased_net, first_tree, servers_in, script_of, topology_at};
ghost use Rattle.net_model.specs.Sound.{IsSound};
ghost use Rattle.net_turns.specs.Network.{IsLater};
ghost use Rattle.net_turns.specs.Trying.{command_turn, script_turns, server_turns, commands_turns};
ghost use Rattle.net_turns.specs.Trying.{receptions, round_turns, rounds_turns, phase_turns};

use crate::turning::Turning;
use base::NoMemory;
use base_tree::Tree;
use net_model::{Net, Turn};

/// Makes what is left of a phase: its commands, and then rounds until one makes nothing.
pub(crate) fn make_phase<N: Turning>(network: &mut N, net: &Net, phase: u32) -> Result<(), NoMemory>
    requires net { net.now ≡ (N.seen network.old).net }
    requires sound { IsSound net.now }
    ensures tried { OnOk result (N.trying.Tries phase (phase_turns (N.seen network.old).net (N.trying.tree_phase phase))
        (N.seen network.old) (N.seen network.new)) }
    ensures begun { OnErr result (N.trying.Begins phase (phase_turns (N.seen network.old).net (N.trying.tree_phase phase))
        (N.seen network.old) (N.seen network.new)) }
    ensures later { IsLater (N.seen network.old) (N.seen network.new) }
{
    let tree = net.tree(network.tree_phase(phase));
    make_commands(network, net, tree.servers(), phase)?;
    settle(network, tree)
}

/// Makes the commands of a phase, server by server.
fn make_commands<N: Turning>(
    network: &mut N,
    net: &Net,
    servers: u32,
    phase: u32,
) -> Result<(), NoMemory>
    requires net { net.now ≡ (N.seen network.old).net }
    requires servers { servers ≡ (first_tree (N.seen network.old).net.trees).count }
    ensures tried { OnOk result (N.trying.Tries phase (commands_turns (N.seen network.old).net (N.trying.tree_phase phase))
        (N.seen network.old) (N.seen network.new)) }
    ensures begun { OnErr result (N.trying.Begins phase (commands_turns (N.seen network.old).net (N.trying.tree_phase phase))
        (N.seen network.old) (N.seen network.new)) }
    ensures later { IsLater (N.seen network.old) (N.seen network.new) }
{
    for server in 1..=servers {
        make_commands_at(network, net, server, phase)?;
    }
    Ok(())
}

/// Makes those of the clients of a server.
fn make_commands_at<N: Turning>(
    network: &mut N,
    net: &Net,
    server: u32,
    phase: u32,
) -> Result<(), NoMemory>
    requires net { net.now ≡ (N.seen network.old).net }
    requires server { Has server (servers_in (N.seen network.old).net) }
    ensures tried { OnOk result (N.trying.Tries phase (server_turns (N.seen network.old).net (N.trying.tree_phase phase) server)
        (N.seen network.old) (N.seen network.new)) }
    ensures begun { OnErr result (N.trying.Begins phase (server_turns (N.seen network.old).net (N.trying.tree_phase phase) server)
        (N.seen network.old) (N.seen network.new)) }
    ensures later { IsLater (N.seen network.old) (N.seen network.new) }
{
    for place in 0..network.clients(server).len() {
        let client = network.clients(server)[place];
        make_script(network, net, client, phase)?;
    }
    Ok(())
}

/// Makes those of a client.
fn make_script<N: Turning>(
    network: &mut N,
    net: &Net,
    client: u32,
    phase: u32,
) -> Result<(), NoMemory>
    requires net { net.now ≡ (N.seen network.old).net }
    requires client { (1 ≤ client) × (client ≤ length (N.seen network.old).net.clients) }
    ensures tried { OnOk result (N.trying.Tries phase (script_turns (N.seen network.old).net (N.trying.tree_phase phase) client)
        (N.seen network.old) (N.seen network.new)) }
    ensures begun { OnErr result (N.trying.Begins phase (script_turns (N.seen network.old).net (N.trying.tree_phase phase) client)
        (N.seen network.old) (N.seen network.new)) }
    ensures later { IsLater (N.seen network.old) (N.seen network.new) }
{
    for _ in 0..script_len(net, client) {
        if !make_command(network, client, phase)? {
            return Ok(());
        }
    }
    Ok(())
}

/// Makes the next of these, where there is one and it is permitted; answers whether it did.
fn make_command<N: Turning>(network: &mut N, client: u32, phase: u32) -> Result<bool, NoMemory>
    requires { (1 ≤ client) × (client ≤ length (N.seen network.old).net.clients) }
    ensures tried { OnOk result (N.trying.Tries phase (command_turn (N.seen network.old).net client ∷ [])
        (N.seen network.old) (N.seen network.new)) }
    ensures begun { OnErr result (N.trying.Begins phase (command_turn (N.seen network.old).net client ∷ [])
        (N.seen network.old) (N.seen network.new)) }
    ensures none { IfOk result (λ made. made ≡ false → N.seen network.new ≡ N.seen network.old) }
    ensures later { IsLater (N.seen network.old) (N.seen network.new) }
{
    if network.next_phase(client) != Some(phase) {
        return Ok(false);
    }
    network.make(Turn::Command(client))
}

/// Makes rounds until one makes nothing.
fn settle<N: Turning>(network: &mut N, tree: &Tree) -> Result<(), NoMemory>
    ensures tried { OnOk result ((phase : ℕ) → tree.now ≡ topology_at (N.seen network.old).net (N.trying.tree_phase phase)
        → N.trying.Tries phase (rounds_turns (N.seen network.old).net (N.trying.tree_phase phase)) (N.seen network.old) (N.seen network.new)) }
    ensures begun { OnErr result ((phase : ℕ) → tree.now ≡ topology_at (N.seen network.old).net (N.trying.tree_phase phase)
        → N.trying.Begins phase (rounds_turns (N.seen network.old).net (N.trying.tree_phase phase)) (N.seen network.old) (N.seen network.new)) }
    ensures later { IsLater (N.seen network.old) (N.seen network.new) }
{
    while make_round(network, tree)? {}
    Ok(())
}

/// Makes a round, in which each server receives a message from each neighbour that has sent one and then publishes what
/// is pending; answers whether there was something to do.
fn make_round<N: Turning>(network: &mut N, tree: &Tree) -> Result<bool, NoMemory>
    ensures tried { OnOk result ((phase : ℕ) → tree.now ≡ topology_at (N.seen network.old).net (N.trying.tree_phase phase)
        → N.trying.Tries phase (round_turns (N.seen network.old).net (N.trying.tree_phase phase)) (N.seen network.old) (N.seen network.new)) }
    ensures begun { OnErr result ((phase : ℕ) → tree.now ≡ topology_at (N.seen network.old).net (N.trying.tree_phase phase)
        → N.trying.Begins phase (round_turns (N.seen network.old).net (N.trying.tree_phase phase)) (N.seen network.old) (N.seen network.new)) }
    ensures bounded { (phase : ℕ) → length (N.seen network.old).journal
        < enough_rounds real (net_at real (phased_net (N.seen network.old).net) (N.trying.tree_phase phase)) }
    ensures some { IfOk result (λ some. some ≡ true → length (N.seen network.old).journal < length (N.seen network.new).journal) }
    ensures none { IfOk result (λ some. some ≡ false → N.seen network.new ≡ N.seen network.old) }
    ensures later { IsLater (N.seen network.old) (N.seen network.new) }
{
    let before = network.count();
    for server in 1..=tree.servers() {
        receive_each(network, server, tree.neighbours(server))?;
        network.make(Turn::TableUpdate(server))?;
    }
    Ok(network.count() > before)
}

/// Receives a message from each of these neighbours that has sent one.
fn receive_each<N: Turning>(
    network: &mut N,
    server: u32,
    neighbours: &[u32],
) -> Result<(), NoMemory>
    ensures tried { OnOk result ((phase : ℕ) → N.trying.Tries phase (receptions server neighbours.now) (N.seen network.old) (N.seen network.new)) }
    ensures begun { OnErr result ((phase : ℕ) → N.trying.Begins phase (receptions server neighbours.now) (N.seen network.old) (N.seen network.new)) }
    ensures later { IsLater (N.seen network.old) (N.seen network.new) }
{
    for from in neighbours {
        network.make(Turn::Receive {
            server,
            from: *from,
        })?;
    }
    Ok(())
}

/// How many commands a client has.
fn script_len(net: &Net, client: u32) -> usize
    requires { (1 ≤ client) × (client ≤ length net.now.clients) }
    ensures { result ≡ length (script_of net.now client) }
{
    net.clients[client as usize - 1].script.len()
}
