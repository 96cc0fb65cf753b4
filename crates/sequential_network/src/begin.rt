//! Begins a later phase, all or nothing, and takes such a beginning back.
ghost use Rattle.std.specs.Prelude.{◌≡◌, ◌<◌, ◌^◌, ℕ, false, List, length, slice_get, Some, None, IfOk, OnErr};
ghost use Rattle.law_phases.specs.Trees.{State, is_one_tree, IsAtRestOn};
ghost use Rattle.law_phases.specs.Moments.{begun};
ghost use Rattle.net_model.specs.Real.{real};
ghost use Rattle.net_model.specs.Parts.{NetParts};
ghost use Rattle.net_model.specs.Nets.{phased_net};
ghost use Rattle.net_model.specs.Sound.{IsSound};
ghost use Rattle.server_control.specs.Held.{held_in, AreHeldIn};
ghost use Rattle.server_flow.specs.Homes.{NetHome};
ghost use Rattle.server_core.specs.Core.{CoreParts};
ghost use Rattle.server_core.specs.Linked.{AreHeldLinks};
ghost use Rattle.sequential_network.specs.Kept.{AreServers};
ghost use Rattle.sequential_network.specs.declared.relinking.Standing.{Standing};
ghost use Rattle.sequential_network.specs.Stepping.{greatest_clock, peers};
ghost use Rattle.sequential_network.specs.Begin.{CanAllTake, AreExchanged, Begins, IsUndoneBy, RepresentsHome, IsOnOtherLinks};

use crate::forwarding_server::ForwardingServer;
use crate::relinking::{OnLinks, Standing};
use crate::server::greatest_clock;
use base::NoMemory;
use law_routing::interface_of;
use net_tables::Tables;
use server_control::HeldLink;
use server_flow::{Home, flow, trees_come};
use std::alloc::Global;

/// For each server that its clock is raised.
fn raised<'a>(
    alloc: Global,
    clock: u64,
    places: &[ForwardingServer<'a>],
) -> Result<Vec<Standing<'a>>, NoMemory>
    ensures long { IfOk result (λ standings. length standings.items ≡ length places.now) }
    ensures raised { IfOk result (λ standings. (place : ℕ) (standing : Standing) → slice_get standings.items place ≡ Some standing
        → (standing.clock ≡ clock) × (standing.links ≡ None)) }
{
    let mut standings = Vec::with_capacity(alloc, places.len())?;
    for _ in places {
        standings.push(Standing { clock, links: None })?;
    }
    Ok(standings)
}

/// What the clients of a server have together.
fn home<'a>(alloc: Global, place: &ForwardingServer<'a>) -> Result<Home<'a>, NoMemory>
    ensures { IfOk result (λ home. RepresentsHome place.now home) }
{
    let core = place.core();
    let mut home = Home::new(alloc, core.tables())?;
    for client in core.clients() {
        let held = core.held(interface_of(*client))?;
        home.put(&held);
    }
    Ok(home)
}

/// Of each server what its clients have together.
fn homes<'a>(alloc: Global, places: &[ForwardingServer<'a>]) -> Result<Vec<Home<'a>>, NoMemory>
    ensures long { IfOk result (λ homes. length homes.items ≡ length places.now) }
    ensures homes { IfOk result (λ homes. (place : ℕ) (core : CoreParts) (home : NetHome) → slice_get places.now place ≡ Some core
        → slice_get homes.items place ≡ Some home → RepresentsHome core home) }
{
    let mut homes = Vec::with_capacity(alloc, places.len())?;
    for place in places {
        homes.push(home(alloc, place)?)?;
    }
    Ok(homes)
}

/// A server's standing on other links, where this is held from them.
fn moved<'a>(
    alloc: Global,
    clock: u64,
    place: &ForwardingServer<'a>,
    held: &[HeldLink<'a>],
) -> Result<Standing<'a>, NoMemory>
    requires held { AreHeldLinks (held_in held.now) }
    requires net { AreHeldIn place.now.net held.now }
    ensures clock { IfOk result (λ standing. standing.clock ≡ clock) }
    ensures links { IfOk result (λ standing. IsOnOtherLinks (held_in held.now) place.now standing) }
{
    let relinked = place.core().relinked(held)?;
    let links = Some(OnLinks::of(alloc, relinked)?);
    Ok(Standing { clock, links })
}

/// The standing of each server.
fn all_moved<'a>(
    alloc: Global,
    clock: u64,
    places: &[ForwardingServer<'a>],
    held: &[Vec<HeldLink<'a>>],
) -> Result<Vec<Standing<'a>>, NoMemory>
    requires long { length held.now ≡ length places.now }
    requires held { (place : ℕ) (links : _) → slice_get held.now place ≡ Some links → AreHeldLinks (held_in links.items) }
    requires net { (place : ℕ) (links : _) (core : CoreParts) → slice_get held.now place ≡ Some links → slice_get places.now place ≡ Some core
        → AreHeldIn core.net links.items }
    ensures long { IfOk result (λ standings. length standings.items ≡ length places.now) }
    ensures clock { IfOk result (λ standings. (place : ℕ) (standing : Standing) → slice_get standings.items place ≡ Some standing → standing.clock ≡ clock) }
    ensures links { IfOk result (λ standings. (place : ℕ) (links : _) (core : CoreParts) (standing : Standing) → slice_get held.now place ≡ Some links
        → slice_get places.now place ≡ Some core → slice_get standings.items place ≡ Some standing → IsOnOtherLinks (held_in links.items) core standing) }
{
    let mut standings = Vec::with_capacity(alloc, places.len())?;
    for (i, place) in places.iter().enumerate() {
        standings.push(moved(alloc, clock, place, &held[i])?)?;
    }
    Ok(standings)
}

/// For each server that its clock is raised, and that it stands on the tree of a phase.
fn on_tree<'a>(
    alloc: Global,
    tables: &'a Tables<'a>,
    clock: u64,
    places: &[ForwardingServer<'a>],
    phase: u32,
) -> Result<Vec<Standing<'a>>, NoMemory>
    requires sound { IsSound tables.now }
    requires greatest { clock ≡ greatest_clock peers places.now }
    requires low { clock < 2 ^ 62 }
    requires state { (last : ℕ) × (state : State real) × AreServers tables.now last state places.now × IsAtRestOn real (phased_net tables.now) last state }
    ensures { IfOk result (λ standings. (last : ℕ) (state : State real) → is_one_tree real (phased_net tables.now) last phase ≡ false
        → AreServers tables.now last state places.now → IsAtRestOn real (phased_net tables.now) last state
        → Begins tables.now last phase places.now standings.items) }
{
    let tree = tables.net().tree(phase);
    tree.lemma_laws();
    let homes = homes(alloc, places)?;
    let held = flow(alloc, tables, tree, &homes)?;
    all_moved(alloc, clock, places, &held)
}

/// The standings of a later phase, for all servers.
fn beginning<'a>(
    alloc: Global,
    tables: &'a Tables<'a>,
    places: &[ForwardingServer<'a>],
    last: u32,
    phase: u32,
) -> Result<Vec<Standing<'a>>, NoMemory>
    requires sound { IsSound tables.now }
    requires state { (state : State real) × AreServers tables.now last state places.now × IsAtRestOn real (phased_net tables.now) last state }
    ensures { IfOk result (λ standings. Begins tables.now last phase places.now standings.items) }
{
    let net = tables.net();
    let clock = greatest_clock(places);
    if trees_come(net, last) == trees_come(net, phase) {
        raised(alloc, clock, places)
    } else {
        on_tree(alloc, tables, clock, places, phase)
    }
}

/// Each server takes its standing on, which becomes what the server had. It takes no memory.
fn exchange<'a>(places: &mut Vec<ForwardingServer<'a>>, standings: &mut Vec<Standing<'a>>)
    requires { CanAllTake standings.old.items places.old.items }
    ensures { AreExchanged standings.old.items places.old.items standings.new.items places.new.items }
{
    for i in 0..places.len() {
        places[i].exchange(&mut standings[i]);
    }
}

/// Begins a later phase, where nothing is on its way or pending: raises every clock to the greatest, and where its tree
/// is another one sets each server on it. All that is new is made first; the answer is what it replaced at each server.
pub(crate) fn begin<'a>(
    alloc: Global,
    tables: &'a Tables<'a>,
    places: &mut Vec<ForwardingServer<'a>>,
    last: u32,
    phase: u32,
) -> Result<Vec<Standing<'a>>, NoMemory>
    requires sound { IsSound tables.now }
    requires state { (state : State real) × AreServers tables.now last state places.old.items × IsAtRestOn real (phased_net tables.now) last state }
    ensures begun { IfOk result (λ _. (state : State real) → AreServers tables.now last state places.old.items
        → IsAtRestOn real (phased_net tables.now) last state
        → AreServers tables.now phase (begun real (phased_net tables.now) last phase state) places.new.items) }
    ensures back { IfOk result (λ before. IsUndoneBy before.items places.old.items places.new.items) }
    ensures err { OnErr result (places.new.items ≡ places.old.items) }
{
    let mut standings = beginning(alloc, tables, places, last, phase)?;
    exchange(places, &mut standings);
    Ok(standings)
}

/// Takes the beginning of a phase back, where no server made a step since. It takes no memory.
pub(crate) fn take_back<'a>(places: &mut Vec<ForwardingServer<'a>>, mut before: Vec<Standing<'a>>)
    requires { (old : List CoreParts) × IsUndoneBy before.items old places.old.items }
    ensures { (old : List CoreParts) (net : NetParts) (last : ℕ) (state : State real) → IsUndoneBy before.entry.items old places.old.items
        → AreServers net last state old → AreServers net last state places.new.items }
{
    exchange(places, &mut before);
}
