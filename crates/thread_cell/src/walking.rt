//! Makes the turns of one server in the rest of a phase.
ghost use Rattle.std.specs.Prelude.{◌≡◌, ◌≤◌, false, length};
ghost use Rattle.net_model.specs.Nets.{script_of};
ghost use Rattle.thread_cell.specs.declared.turned.Turned.TheVariants.{Idle};

use crate::cell::Cell;
use crate::link::{place_in, settle_links};
use crate::naming::lives_at;
use crate::turned::Turned;
use base::NoMemory;
use net_model::{Act, Net};
use server_core::StepFault;
use std::sync::Wait;

impl<'a> Cell<'a> {
    ghost use Rattle.std.specs.Prelude.{◌≡◌, ◌<◌, ◌≤◌, ℕ, suc, true, false, [], length, OnOk, IfOk, IfSome, IfNone, IsErrOf};
    ghost use mathlib.Core.List.{IsPrefix};
    ghost use Rattle.base.specs.Sets.{Has};
    ghost use Rattle.net_model.specs.Nets.{clients_of};
    ghost use Rattle.thread_cell.specs.Links.{At, Both, IsNeighbour, IsOneLane, IsSameLink, IsSettledLane};
    ghost use Rattle.thread_cell.specs.LaneReceiving.{HasMissed, IsNextAt};
    ghost use Rattle.thread_cell.specs.Turns.{HasCommand, IsWornAt};
    ghost use Rattle.server_core.specs.Step.{last_stamp};
    ghost use Rattle.server_message.specs.declared.stamped.StampedLoad.{StampedLoad as ItemParts};
    ghost use Rattle.thread_cell.specs.Together.{HasNoCommand, root_links, sight};

    /// How many neighbours there are.
    pub(crate) fn neighbours(&self) -> usize
        ensures { result ≡ length self.now.held.links.items }
    {
        self.held.links.len()
    }

    /// The neighbour at a place.
    pub(crate) fn neighbour(&self, place: usize) -> u32
        requires { place < length self.now.held.links.items }
        ensures { IsNeighbour place result self.now.held.links.items }
    {
        self.held.links[place].neighbour
    }

    /// The place of a neighbour.
    pub(crate) fn place_of(&self, neighbour: u32) -> Option<usize>
        ensures some { IfSome result (λ place. IsNeighbour place neighbour self.now.held.links.items) }
        ensures none { IfNone result ((place : ℕ) → IsNeighbour place neighbour self.now.held.links.items → ⊥) }
    {
        place_in(&self.held.links, neighbour)
    }

    /// Brings all that was put on the lane to a neighbour, and not taken, to its taking end.
    pub(crate) fn settle_with(
        &mut self,
        to: usize,
        taker: &mut Cell<'_>,
        from: usize,
    ) -> Result<(), NoMemory>
        requires lane { At IsOneLane to (root_links self.old.root) from (root_links taker.old.root) }
        ensures giver { sight self.new ≡ sight self.old }
        ensures taker { sight taker.new ≡ sight taker.old }
        ensures settled { OnOk result (At IsSettledLane to self.new.held.links.items from taker.new.held.links.items) }
        ensures next { (item : ItemParts) → IsNextAt from item taker.old.held.links.items → IsNextAt from item taker.new.held.links.items }
    {
        settle_links(&mut self.held.links, to, &mut taker.held.links, from)
    }

    /// Takes from the neighbour at a place, where there is something; answers whether there was.
    pub(crate) fn take_from_place<R: Wait>(
        &mut self,
        rt: &R,
        place: usize,
    ) -> Result<bool, StepFault>
        requires { place < length self.old.held.links.items }
        ensures root { self.new.root ≡ self.old.root }
        ensures grown { IsPrefix self.old.journal self.new.journal }
        ensures idle { IfOk result (λ made. made ≡ false → (sight self.new ≡ sight self.old)
            × Both IsSameLink self.old.held.links.items self.new.held.links.items
            × HasMissed place self.old.held.links.items self.new.held.links.items) }
        ensures worn { (s : ℕ) → IsErrOf result (StepFault.StampsExhausted s) → (sight self.new ≡ sight self.old)
            × IsWornAt place self.new.held.core.clock s self.new.held.links.items }
    {
        self.lemma_kept();
        let turned = self.turn(rt, Act::Receive(self.neighbour(place)))?;
        Ok(was_made(turned))
    }

    /// Executes the commands of the phase that are left of a client that lives here; answers whether there were any.
    fn take_script<R: Wait>(&mut self, rt: &R, client: u32) -> Result<bool, StepFault>
        requires { Has client (clients_of self.old.root.net.value self.old.root.server) }
        ensures root { self.new.root ≡ self.old.root }
        ensures grown { IsPrefix self.old.journal self.new.journal }
        ensures idle { IfOk result (λ made. made ≡ false → (sight self.new ≡ sight self.old)
            × (HasCommand self.new.held.core client self.new.root.phase → ⊥)) }
        ensures worn { (s : ℕ) → IsErrOf result (StepFault.StampsExhausted s) → (s ≡ last_stamp) × (self.new.held.core.clock ≡ last_stamp) }
    {
        if !was_made(self.turn(rt, Act::Command(client))?) {
            return Ok(false);
        }
        for _ in 1..script_len(self.net(), client) {
            if !was_made(self.turn(rt, Act::Command(client))?) {
                return Ok(true);
            }
        }
        Ok(true)
    }

    /// Executes the commands of the phase that are left of the client at a place of the net, if it lives here; answers whether
    /// there were any.
    fn take_home<R: Wait>(&mut self, rt: &R, place: usize) -> Result<bool, StepFault>
        requires { place < length self.old.root.net.value.clients }
        ensures root { self.new.root ≡ self.old.root }
        ensures grown { IsPrefix self.old.journal self.new.journal }
        ensures idle { IfOk result (λ made. made ≡ false → (sight self.new ≡ sight self.old)
            × (Has (suc place) (clients_of self.old.root.net.value self.old.root.server)
            → HasCommand self.new.held.core (suc place) self.new.root.phase → ⊥)) }
        ensures worn { (s : ℕ) → IsErrOf result (StepFault.StampsExhausted s) → (s ≡ last_stamp) × (self.new.held.core.clock ≡ last_stamp) }
    {
        self.lemma_kept();
        let client = place as u32 + 1;
        if !lives_at(self.net(), client, self.number()) {
            return Ok(false);
        }
        self.take_script(rt, client)
    }

    /// Executes the commands of the phase that are left of the server's clients; answers whether there were any.
    pub(crate) fn take_commands<R: Wait>(&mut self, rt: &R) -> Result<bool, StepFault>
        ensures root { self.new.root ≡ self.old.root }
        ensures grown { IsPrefix self.old.journal self.new.journal }
        ensures idle { IfOk result (λ made. made ≡ false → (sight self.new ≡ sight self.old)
            × HasNoCommand self.new.held.core self.new.root.phase) }
        ensures worn { (s : ℕ) → IsErrOf result (StepFault.StampsExhausted s) → (s ≡ last_stamp) × (self.new.held.core.clock ≡ last_stamp) }
    {
        self.lemma_kept();
        let mut made = false;
        for place in 0..self.net().clients.len() {
            if self.take_home(rt, place)? {
                made = true;
            }
        }
        Ok(made)
    }

    /// Installs what is pending; answers whether something was.
    fn install_pending<R: Wait>(&mut self, rt: &R) -> Result<bool, StepFault>
        ensures root { self.new.root ≡ self.old.root }
        ensures grown { IsPrefix self.old.journal self.new.journal }
        ensures idle { IfOk result (λ made. made ≡ false → (sight self.new ≡ sight self.old) × (self.new.held.core.pending ≡ [])) }
        ensures worn { (s : ℕ) → IsErrOf result (StepFault.StampsExhausted s) → (s ≡ last_stamp) × (self.new.held.core.clock ≡ last_stamp) }
    {
        let turned = self.turn(rt, Act::TableUpdate)?;
        Ok(was_made(turned))
    }

    /// Installs what is pending, and executes the commands that are left; answers whether there was something to do.
    pub(crate) fn walk_tasks<R: Wait>(&mut self, rt: &R) -> Result<bool, StepFault>
        ensures root { self.new.root ≡ self.old.root }
        ensures grown { IsPrefix self.old.journal self.new.journal }
        ensures idle { IfOk result (λ made. made ≡ false → (sight self.new ≡ sight self.old)
            × (self.new.held.core.pending ≡ []) × HasNoCommand self.new.held.core self.new.root.phase) }
        ensures worn { (s : ℕ) → IsErrOf result (StepFault.StampsExhausted s) → (s ≡ last_stamp) × (self.new.held.core.clock ≡ last_stamp) }
    {
        let installed = self.install_pending(rt)?;
        let took = self.take_commands(rt)?;
        Ok(installed || took)
    }
}

/// Whether there was something to do.
fn was_made(turned: Turned) -> bool
    ensures { result ≡ false → turned ≡ Idle }
{
    match turned {
        Turned::Idle => false,
        _ => true,
    }
}

/// How many commands a client has.
fn script_len(net: &Net, client: u32) -> usize
    requires { (1 ≤ client) × (client ≤ length net.now.clients) }
    ensures { result ≡ length (script_of net.now client) }
{
    net.clients[client as usize - 1].script.len()
}
