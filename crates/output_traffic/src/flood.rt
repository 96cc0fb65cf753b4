//! Counts what plain flooding puts on each link.
ghost use Rattle.std.specs.Prelude.{◌≡◌, ◌+◌, ◌≤◌, ◌<◌, ◌^◌, ℕ, List, [], ◌∷◌, drop, map, IfOk, OnOk};
ghost use Rattle.base.specs.Numbers.{count};
ghost use Rattle.base_tree.specs.Tree.{IsServer};
ghost use Rattle.law_routing.specs.Net.{Net as OneNet, PhasedCommand};
ghost use Rattle.law_routing.specs.Clients.{is_publish, adverts_step, refused_from};
ghost use Rattle.law_phases.specs.Trees.{net_at};
ghost use Rattle.net_model.specs.Real.{real};
ghost use Rattle.net_model.specs.Meaning.{command_of, phased_command};
ghost use Rattle.net_model.specs.Nets.{first_tree, of_clients, phased_net};
ghost use Rattle.net_model.specs.Sound.{IsAmong, IsSound};
ghost use Rattle.output_traffic.specs.Counts.{AreCounts, IsRaised};
ghost use Rattle.output_traffic.specs.Flood.{accepted_phases, flood_on, is_accepted, is_flooded, refused_of};
ghost use Rattle.output_traffic.specs.Going.{client_flood, is_first, phases_flood};

use crate::counts::Counts;
use base::NoMemory;
use base_tree::Tree;
use filter_text::Lists;
use net_model::{Client, Command, Net};
use std::alloc::Global;

// Whether it is a publish.
fn is_publish(command: &Command) -> bool
    ensures { result ≡ is_publish real (command_of command.now) }
{
    matches!(command, Command::Publish(_))
}

// Whether the ordinals from a place on begin with this one.
fn is_first(ordinals: &[u32], from: usize, ordinal: u64) -> bool
    ensures { result ≡ is_first (drop from ordinals.now) ordinal }
{
    match ordinals.get(from) {
        Some(first) => u64::from(*first) == ordinal,
        None => false,
    }
}

// How far a script is gone through: how many publishes are behind, and how many of those that are refused.
#[derive(Drop)]
struct Going {
    publishes: u64,
    refused: usize,
}

impl Going {
    // One command more, and whether it is a publish that is accepted, by the ordinals of those that are refused.
    fn step(&mut self, refused: &[u32], command: &Command) -> bool
        requires few { self.old.publishes < 2 ^ 62 }
        requires within { self.old.refused < 2 ^ 62 }
        ensures publishes { self.new.publishes ≤ self.old.publishes + 1 }
        ensures refused { self.new.refused ≤ self.old.refused + 1 }
        ensures step { (net : OneNet real) (adverts : List real.Advert) (phase : ℕ) (later : List (PhasedCommand real))
            → refused_from real net adverts self.old.publishes (phased_command (phase, command.now) ∷ later) ≡ drop self.old.refused refused.now
            → (result ≡ is_accepted real net adverts (command_of command.now))
            × (refused_from real net (adverts_step real adverts (command_of command.now)) self.new.publishes later ≡ drop self.new.refused refused.now) }
    {
        if !is_publish(command) {
            return false;
        }
        self.publishes += 1;
        if is_first(refused, self.refused, self.publishes) {
            self.refused += 1;
            return false;
        }
        true
    }
}

// The phases of the accepted publications of a script, by the ordinals of those that are refused.
fn accepted(alloc: Global, script: &[(u32, Command)], refused: &[u32]) -> Result<Vec<u32>, NoMemory>
    ensures { IfOk result (λ phases. (net : OneNet real) → refused.now ≡ refused_from real net [] 0 (map phased_command script.now)
        → phases.items ≡ accepted_phases real net [] (map phased_command script.now)) }
{
    let mut phases = Vec::new(alloc);
    let mut going = Going {
        publishes: 0,
        refused: 0,
    };
    for (phase, command) in script {
        if going.step(refused, command) {
            phases.push(*phase)?;
        }
    }
    Ok(phases)
}

// A publication of a server: once over each link of its tree, away from there.
fn add_publication(counts: &mut Counts, tree: &Tree, home: u32)
    requires { IsServer tree.now home }
    ensures { (from to : ℕ) → IsRaised counts.old counts.new from to (count (is_flooded tree.now home from to)) }
{
    tree.lemma_laws();
    for b in 1..tree.servers() + 1 {
        if b != home {
            counts.add(tree.next_hop(b, home), b);
        }
    }
}

// The publications of these phases, of a server.
fn add_phases(counts: &mut Counts, net: &Net, home: u32, phases: &[u32])
    requires sound { IsSound net.now }
    requires home { IsAmong (first_tree net.now.trees).count home }
    ensures { (from to : ℕ) → IsRaised counts.old counts.new from to (phases_flood net.now home phases.now from to) }
{
    for phase in phases {
        add_publication(counts, net.tree(*phase), home);
    }
}

// The publications of a client, by the ordinals of those that are refused.
fn add_client(
    alloc: Global,
    counts: &mut Counts,
    net: &Net,
    client: &Client,
    refused: &[u32],
) -> Result<(), NoMemory>
    requires sound { IsSound net.now }
    requires home { IsAmong (first_tree net.now.trees).count client.now.home }
    requires refused { refused.now ≡ refused_from real (net_at real (phased_net net.now) 0) [] 0 (map phased_command client.now.script) }
    ensures { OnOk result ((from to : ℕ) → IsRaised counts.old counts.new from to (client_flood net.now client.now from to)) }
{
    let phases = accepted(alloc, &client.script, refused)?;
    add_phases(counts, net, client.home, &phases);
    Ok(())
}

/// What plain flooding puts on each link of a net, by the ordinals of each client's refused publishes.
pub(crate) fn flooding(alloc: Global, net: &Net, refused: &[Lists<u32>]) -> Result<Counts, NoMemory>
    requires sound { IsSound net.now }
    requires refused { refused.now ≡ of_clients net.now (refused_of net.now) }
    ensures { IfOk result (λ counts. AreCounts counts (flood_on net.now)) }
{
    let mut counts = Counts::none(alloc)?;
    for (i, client) in net.clients.iter().enumerate() {
        add_client(alloc, &mut counts, net, client, refused[i].as_slice())?;
    }
    Ok(counts)
}
