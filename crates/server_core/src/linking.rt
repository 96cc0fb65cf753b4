//! Makes what a server holds on other links, and exchanges it at a change of tree without memory.
ghost use Rattle.std.specs.Prelude.{◌≡◌, ◌+◌, ◌≤◌, ℕ, [], map, IfOk, OnOk};
ghost use Rattle.base.specs.Sets.{Has};
ghost use Rattle.server_spec.specs.Control.{subs, advs};
ghost use Rattle.server_control.specs.Held.{held_in, AreHeldIn};
ghost use Rattle.server_core.specs.Linked.{AreHeldLinks, SuitsCore, IsLinked, IsOnLinks, ledger_of};
ghost use Rattle.server_core.specs.Putting.{ArePut, held_by_clients};

use crate::ledger::Ledger;
use crate::server::Core;
use crate::start::interfaces_of;
use base::NoMemory;
use law_routing::interface_of;
use server_control::HeldLink;
use std::alloc::Global;
use std::mem::replace;

/// The links of which something is given.
fn links_of<'a>(alloc: Global, held: &[HeldLink<'a>]) -> Result<Vec<u32>, NoMemory>
    ensures { IfOk result (λ links. links.items ≡ map (λ h. h.link) (held_in held.now)) }
{
    let mut links = Vec::with_capacity(alloc, held.len())?;
    for one in held {
        links.push(one.link())?;
    }
    Ok(links)
}

/// What is given of links is held from them too.
fn put_links<'a>(ledger: &mut Ledger<'a>, held: &[HeldLink<'a>]) -> Result<(), NoMemory>
    requires interfaces { (i : ℕ) → Has i (map (λ h. h.link) (held_in held.now)) → Has i ledger.old.interfaces }
    requires net { AreHeldIn ledger.old.net held.now }
    ensures { OnOk result (ArePut (held_in held.now) ledger.old ledger.new) }
{
    for one in held {
        ledger.put(one)?;
    }
    Ok(())
}

/// What is held from clients in one ledger is held from them in another one too.
fn put_clients<'a>(
    ledger: &mut Ledger<'a>,
    from: &Ledger<'a>,
    clients: &[u32],
) -> Result<(), NoMemory>
    requires few { (n : ℕ) → Has n clients.now → n ≤ 1024 }
    requires interfaces { (n : ℕ) → Has n clients.now → Has (64 + n) ledger.old.interfaces }
    requires net { from.now.net ≡ ledger.old.net }
    ensures { OnOk result (ArePut (held_by_clients from.now.control clients.now) ledger.old ledger.new) }
{
    for client in clients {
        let held = from.held(interface_of(*client))?;
        ledger.put(&held)?;
    }
    Ok(())
}

impl<'a> Core<'a> {
    /// What is held from an interface: its filters and its advertisements, by their numbers.
    pub fn held(&self, interface: u32) -> Result<HeldLink<'a>, NoMemory>
        ensures net { IfOk result (λ held. held.net ≡ self.now.net) }
        ensures link { IfOk result (λ held. held.held.link ≡ interface) }
        ensures filters { IfOk result (λ held. held.held.filters ≡ subs self.now.control interface) }
        ensures adverts { IfOk result (λ held. held.held.adverts ≡ advs self.now.control interface) }
    {
        self.ledger.held(interface)
    }

    /// What the core would have on other links, of which nothing is installed yet, so that its changes put all that is held;
    /// the core stays as it is.
    pub fn relinked(&self, held: &[HeldLink<'a>]) -> Result<Ledger<'a>, NoMemory>
        requires held { AreHeldLinks (held_in held.now) }
        requires net { AreHeldIn self.now.net held.now }
        ensures linked { IfOk result (λ r. IsLinked (held_in held.now) self.now.control r.control) }
        ensures suits { IfOk result (λ r. SuitsCore self.now r) }
        ensures installed { IfOk result (λ r. r.installed ≡ []) }
    {
        self.clients.lemma_sorted();
        self.ledger.lemma_sound();
        let links = links_of(self.alloc, held)?;
        let numbers = self.clients.numbers();
        let interfaces = interfaces_of(self.alloc, &links, numbers)?;
        let tables = self.ledger.tables();
        let semantics = self.ledger.semantics();
        let mut ledger = Ledger::new(self.alloc, tables, semantics, &interfaces, links.len())?;
        put_links(&mut ledger, held)?;
        put_clients(&mut ledger, &self.ledger, numbers)?;
        Ok(ledger)
    }

    /// Gives the core what was made for it since its last step, all of it installed; what it had comes back, so that a second
    /// call takes the change back. It takes no memory and leaves nothing pending.
    pub fn relink(&mut self, ledger: Ledger<'a>) -> Ledger<'a>
        requires pending { self.old.pending ≡ [] }
        requires suits { SuitsCore self.old ledger }
        ensures core { IsOnLinks ledger.entry self.old self.new }
        ensures back { result ≡ ledger_of self.old }
        ensures suits_back { SuitsCore self.new result }
    {
        let before = replace(&mut self.ledger, ledger);
        self.ledger.publish();
        before
    }
}
