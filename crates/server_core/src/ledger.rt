//! What a server holds from whom, what was installed of it, and what changed since.
ghost use Rattle.std.specs.Prelude.{◌≡◌, ◌<◌, ◌≤◌, ◌^◌, ℕ, nat_lt, true, List, [], ◌∷◌, length, take, IfOk, OnOk, OnErr};
ghost use Rattle.base.specs.Sets.{Has, IsRising};
ghost use Rattle.base_order.specs.Order.{picked};
ghost use Rattle.net_tables.specs.Known.{known_filters, known_adverts};
ghost use Rattle.filter_constraints.specs.Constraint.{ConstraintParts};
ghost use Rattle.server_spec.specs.Control.{by_adverts, subs, advs};
ghost use Rattle.server_spec.specs.Holdings.{held_from};
ghost use Rattle.net_model.specs.Real.{real};
ghost use Rattle.server_core.specs.Ledger.{FiltersSet, AdvertsSet};
ghost use Rattle.server_core.specs.Putting.{FiltersPut, AdvertsPut, ArePut, held_by};
ghost use Rattle.server_core.specs.Pending.{IsPending};

use crate::due::{advert_messages, filter_messages};
use crate::effective::{row_of, sieve};
use crate::staging::stage;
use base::NoMemory;
use filter_text::Semantics;
use match_routes::TableChange;
use net_tables::Tables;
use server_control::{Control, HeldLink};
use server_message::Sending;
use std::alloc::Global;
use std::marker::Model;
use std::snapshot::Snapshot;

/// What a server holds from whom, with what of it was installed, as contracts alone see it, and the changes since.
#[derive(Drop)]
pub struct Ledger<'a> {
    alloc: Global,
    tables: &'a Tables<'a>,
    links: Vec<u32>,
    control: Control<'a>,
    installed: Snapshot<Control<'a>>,
    pending: Vec<TableChange>,
}

impl<'a> Model for Ledger<'a> {
    ghost use Rattle.server_core.specs.Ledger.{LedgerParts};
    ghost use Rattle.server_core.specs.Showing.{shown};
    ghost use Rattle.server_core.specs.Keeps.{IsLedger};

    ghost Value = { LedgerParts };

    ghost view = { λ l. record {
      net = l.tables.now;
      interfaces = l.control.filters.interfaces;
      control = shown l.control;
      installed = (shown l.installed.value).filters;
      pending = l.pending.items;
    } };

    ghost invariant = { λ l. IsLedger l.tables.now l.links.items l.control l.installed.value l.pending.items };
}

impl<'a> Ledger<'a> {
    /// Nothing is held from these interfaces, of which the first are links, and nothing is installed. Advertisements steer the
    /// filters by the net's semantics, or not at all. All memory of what can be held is taken here.
    pub fn new(
        alloc: Global,
        tables: &'a Tables<'a>,
        semantics: Semantics,
        interfaces: &[u32],
        links: usize,
    ) -> Result<Ledger<'a>, NoMemory>
        requires semantics { by_adverts semantics ≡ true → semantics ≡ tables.now.semantics }
        requires rising { IsRising nat_lt interfaces.now }
        requires few { length interfaces.now < 2 ^ 32 }
        requires links { links ≤ length interfaces.now }
        ensures net { IfOk result (λ ledger. ledger.net ≡ tables.now) }
        ensures interfaces { IfOk result (λ ledger. ledger.interfaces ≡ interfaces.now) }
        ensures control { IfOk result (λ ledger. ledger.control
            ≡ record { semantics = semantics; links = take links interfaces.now; filters = []; adverts = [] }) }
        ensures installed { IfOk result (λ ledger. ledger.installed ≡ []) }
        ensures pending { IfOk result (λ ledger. ledger.pending ≡ []) }
    {
        let control = Control::new(
            alloc,
            semantics,
            tables.filters(),
            tables.adverts(),
            tables.overlaps(),
            interfaces,
            links as u32,
        )?;
        let links = interfaces[..links].to_vec(alloc)?;
        let installed = Snapshot::of(&control);
        Ok(Ledger {
            alloc,
            tables,
            links,
            control,
            installed,
            pending: Vec::new(alloc),
        })
    }

    /// The tables of the run.
    pub fn tables(&self) -> &'a Tables<'a>
        ensures { result.now ≡ self.now.net }
    {
        self.tables
    }

    /// The links, rising.
    pub fn links(&self) -> &[u32]
        ensures { result.now ≡ self.now.control.links }
    {
        &self.links
    }

    /// The interfaces, rising.
    pub fn interfaces(&self) -> &[u32]
        ensures interfaces { result.now ≡ self.now.interfaces }
        ensures rising { IsRising nat_lt self.now.interfaces }
        ensures few { length self.now.interfaces < 2 ^ 32 }
    {
        self.control.filters().lemma_sound();
        self.control.filters().interfaces()
    }

    /// Whether advertisements steer the filters.
    pub fn semantics(&self) -> Semantics
        ensures { result ≡ self.now.control.semantics }
    {
        self.control.semantics()
    }

    /// What changed since the last table update.
    pub fn pending(&self) -> &[TableChange]
        ensures changes { result.now ≡ self.now.pending }
        ensures pending { IsPending (known_filters self.now.net.clients) self.now.interfaces (λ i. held_from real.before i self.now.installed)
            (subs self.now.control) self.now.pending }
    {
        &self.pending
    }

    /// An interface holds the filters with the first numbers no more and then those with the second ones too, which is
    /// pending. The answer is the messages that this makes due, by link.
    pub fn set_filters(
        &mut self,
        interface: u32,
        out: &[u32],
        add: &[u32],
    ) -> Result<Vec<Sending<'a>>, NoMemory>
        requires interface { Has interface self.old.interfaces }
        requires out { (i : ℕ) → Has i out.now → i < length (known_filters self.old.net.clients) }
        requires add { (i : ℕ) → Has i add.now → i < length (known_filters self.old.net.clients) }
        requires apart { (i : ℕ) → Has i out.now → Has i add.now → ⊥ }
        ensures set { IfOk result (λ sent. FiltersSet interface (picked (known_filters self.old.net.clients) out.now)
            (picked (known_filters self.old.net.clients) add.now) self.old self.new sent.items) }
        ensures interfaces { self.new.interfaces ≡ self.old.interfaces }
        ensures err { OnErr result (self.new ≡ self.old) }
    {
        self.control.filters().lemma_sound();
        self.control.adverts().lemma_sound();
        let lost = sieve(self.alloc, self.control.filters(), interface, out, true)?;
        let won = sieve(self.alloc, self.control.filters(), interface, add, false)?;
        self.pending.reserve(lost.len() + won.len())?;
        self.control.change_filters(interface, &lost, &won);
        self.control.filters().lemma_sound();
        match filter_messages(self.alloc, self.tables, &self.links, self.control.filters()) {
            Ok(sent) => {
                stage(&mut self.pending, interface, &lost, &won);
                Ok(sent)
            }
            Err(fault) => {
                self.control.change_filters(interface, &won, &lost);
                self.control.filters().lemma_sound();
                Err(fault)
            }
        }
    }

    /// An interface holds the advertisements with the first numbers no more and then those with the second ones too, under
    /// advertisement semantics. The answer is the messages that this makes due, by link.
    pub fn set_adverts(
        &mut self,
        interface: u32,
        out: &[u32],
        add: &[u32],
    ) -> Result<Vec<Sending<'a>>, NoMemory>
        requires interface { Has interface self.old.interfaces }
        requires semantics { by_adverts self.old.control.semantics ≡ true }
        requires out { (i : ℕ) → Has i out.now → i < length (known_adverts self.old.net.clients) }
        requires add { (i : ℕ) → Has i add.now → i < length (known_adverts self.old.net.clients) }
        requires apart { (i : ℕ) → Has i out.now → Has i add.now → ⊥ }
        ensures set { IfOk result (λ sent. AdvertsSet interface (picked (known_adverts self.old.net.clients) out.now)
            (picked (known_adverts self.old.net.clients) add.now) self.old self.new sent.items) }
        ensures interfaces { self.new.interfaces ≡ self.old.interfaces }
        ensures err { OnErr result (self.new ≡ self.old) }
    {
        self.control.filters().lemma_sound();
        self.control.adverts().lemma_sound();
        let lost = sieve(self.alloc, self.control.adverts(), interface, out, true)?;
        let won = sieve(self.alloc, self.control.adverts(), interface, add, false)?;
        self.control.change_adverts(interface, &lost, &won);
        self.control.adverts().lemma_sound();
        match advert_messages(
            self.alloc,
            self.tables,
            &self.links,
            interface,
            self.control.filters(),
            self.control.adverts(),
        ) {
            Ok(sent) => Ok(sent),
            Err(fault) => {
                self.control.change_adverts(interface, &won, &lost);
                self.control.adverts().lemma_sound();
                Err(fault)
            }
        }
    }

    /// An interface holds the filters with these numbers too, which is pending. No message is made of it.
    fn put_filters(&mut self, interface: u32, add: &[u32]) -> Result<(), NoMemory>
        requires interface { Has interface self.old.interfaces }
        requires add { (i : ℕ) → Has i add.now → i < length (known_filters self.old.net.clients) }
        ensures { OnOk result (FiltersPut interface (picked (known_filters self.old.net.clients) add.now) self.old self.new) }
    {
        self.control.filters().lemma_sound();
        self.control.adverts().lemma_sound();
        let won = sieve(self.alloc, self.control.filters(), interface, add, false)?;
        self.pending.reserve(won.len())?;
        self.control.change_filters(interface, &[], &won);
        self.control.filters().lemma_sound();
        stage(&mut self.pending, interface, &[], &won);
        Ok(())
    }

    /// An interface holds the advertisements with these numbers too. No message is made of it.
    fn put_adverts(&mut self, interface: u32, add: &[u32]) -> Result<(), NoMemory>
        requires interface { Has interface self.old.interfaces }
        requires add { (i : ℕ) → Has i add.now → i < length (known_adverts self.old.net.clients) }
        ensures { OnOk result (AdvertsPut interface (picked (known_adverts self.old.net.clients) add.now) self.old self.new) }
    {
        self.control.filters().lemma_sound();
        self.control.adverts().lemma_sound();
        let won = sieve(self.alloc, self.control.adverts(), interface, add, false)?;
        self.control.change_adverts(interface, &[], &won);
        self.control.adverts().lemma_sound();
        Ok(())
    }

    /// What is given of an interface is held from it too. No message is made of it.
    pub(crate) fn put(&mut self, held: &HeldLink<'a>) -> Result<(), NoMemory>
        requires interface { Has held.now.held.link self.old.interfaces }
        requires net { held.now.net ≡ self.old.net }
        ensures { OnOk result (ArePut (held.now.held ∷ []) self.old self.new) }
    {
        let link = held.link();
        let adverts = held.adverts();
        adverts.lemma_sorted();
        let offered = adverts.members(self.alloc)?;
        self.put_adverts(link, &offered)?;
        let filters = held.filters();
        filters.lemma_sorted();
        let wanted = filters.members(self.alloc)?;
        self.put_filters(link, &wanted)?;
        Ok(())
    }

    /// Does nothing; by its contract what is held is held from one of the interfaces, and that the filters that are held
    /// are filters of the net.
    pub fn lemma_sound(&self)
        ensures known { (i : ℕ) (f : List ConstraintParts) → Has f (subs self.now.control i) → Has f (known_filters self.now.net.clients) }
        ensures filters { (i : ℕ) (x : List ConstraintParts) → Has x (subs self.now.control i) → Has i self.now.interfaces }
        ensures adverts { (i : ℕ) (x : List ConstraintParts) → Has x (advs self.now.control i) → Has i self.now.interfaces }
    {
        self.control.filters().lemma_sound();
        self.control.adverts().lemma_sound();
    }

    /// What is held from an interface.
    pub(crate) fn held(&self, interface: u32) -> Result<HeldLink<'a>, NoMemory>
        ensures net { IfOk result (λ held. held.net ≡ self.now.net) }
        ensures held { IfOk result (λ held. held.held ≡ held_by self.now.control interface) }
    {
        self.control.filters().lemma_sound();
        self.control.adverts().lemma_sound();
        let width = self.tables.filters().count();
        let filters = row_of(self.alloc, self.control.filters(), interface, width)?;
        let width = self.tables.adverts().count();
        let adverts = row_of(self.alloc, self.control.adverts(), interface, width)?;
        Ok(HeldLink::of(self.tables, interface, filters, adverts))
    }

    /// All that is held is installed. It takes no memory.
    pub fn publish(&mut self)
        ensures net { self.new.net ≡ self.old.net }
        ensures interfaces { self.new.interfaces ≡ self.old.interfaces }
        ensures control { self.new.control ≡ self.old.control }
        ensures installed { self.new.installed ≡ self.old.control.filters }
        ensures pending { self.new.pending ≡ [] }
    {
        self.installed = Snapshot::of(&self.control);
        self.pending.clear();
    }
}
