//! The type of the control of a server: what it holds by number, and how a change alters what it sends.
ghost use Rattle.std.specs.Prelude.{◌≡◌, ◌≢◌, ◌<◌, ◌≤◌, ◌^◌, ℕ, nat_lt, List, [], length, replicate, slice_get, Some, IfOk};
ghost use Rattle.base.specs.Sets.{Has, IsRising, union, minus};
ghost use Rattle.filter_constraints.specs.Constraint.{ConstraintParts};
ghost use Rattle.filter_types.specs.Before.{list_before};
ghost use Rattle.base_order.specs.Order.{picked};
ghost use Rattle.filter_text.specs.declared.semantics.Semantics.TheVariants.{Advertisement};
ghost use Rattle.filter_text.specs.Messages.{Lists};
ghost use Rattle.server_stock.specs.Sides.{Announced};
ghost use Rattle.server_stock.specs.Stock.{IsAnnounced};
ghost use Rattle.net_tables.specs.Related.{overlap_rows};
ghost use Rattle.server_control.specs.Control.{Offers, subs, advs, sent_filters, sent_adverts};

use crate::offering::offer_wanted;
use base::NoMemory;
use base_bits::Row;
use base_order::Order;
use filter_covering::{Ad, Sub};
use filter_text::Semantics;
use server_stock::Stock;
use std::alloc::Global;
use std::marker::Model;

/// What a server holds from each of its interfaces, filters and advertisements, by the numbers of a run.
///
/// Contracts see the semantics, and the items that its interfaces hold.
#[derive(Drop)]
pub struct Control<'a> {
    semantics: Semantics,
    overlaps: &'a [Row],
    filters: Stock<'a, Sub>,
    adverts: Stock<'a, Ad>,
    offered: Row,
}

impl<'a> Model for Control<'a> {
    ghost use Rattle.server_control.specs.Control.{Controlled, IsControl};

    ghost Value = { Controlled };

    ghost view = { λ c. record { semantics = c.semantics; filters = c.filters; adverts = c.adverts } };

    ghost invariant = { λ c. IsControl c.semantics c.overlaps.now c.filters c.adverts c.offered };
}

/// Offers nothing on any of so many links.
fn close_links<'a>(filters: &mut Stock<'a, Sub>, none: &Row, links: u32)
    requires links { links ≡ length filters.old.announced }
    requires width { none.now.width ≡ length filters.old.items }
    requires none { none.now.members ≡ [] }
    ensures items { filters.new.items ≡ filters.old.items }
    ensures interfaces { filters.new.interfaces ≡ filters.old.interfaces }
    ensures holdings { filters.new.holdings ≡ filters.old.holdings }
    ensures links { length filters.new.announced ≡ length filters.old.announced }
    ensures offered { (p : ℕ) (offered : Lists) → slice_get filters.new.offered p ≡ Some offered → offered ≡ [] }
{
    filters.lemma_sound();
    for p in 0..links {
        filters.offer(p as usize, none);
    }
    filters.lemma_sound();
}

/// Offers what is wanted where no advertisement is held, in place of all: under advertisement semantics nothing.
fn close_unwanted<'a>(semantics: Semantics, filters: &mut Stock<'a, Sub>, none: &Row, links: u32)
    requires links { links ≡ length filters.old.announced }
    requires width { none.now.width ≡ length filters.old.items }
    requires none { none.now.members ≡ [] }
    requires all { filters.old.offered ≡ replicate links filters.old.items }
    ensures items { filters.new.items ≡ filters.old.items }
    ensures interfaces { filters.new.interfaces ≡ filters.old.interfaces }
    ensures holdings { filters.new.holdings ≡ filters.old.holdings }
    ensures links { length filters.new.announced ≡ length filters.old.announced }
    ensures offered { (p : ℕ) (offered : Lists) → slice_get filters.new.offered p ≡ Some offered → Offers semantics [] filters.old.items offered }
{
    match semantics {
        Semantics::Subscription => {}
        Semantics::Advertisement => close_links(filters, none, links),
    }
}

impl<'a> Control<'a> {
    /// Nothing is held from these interfaces, of which the first so many are links. The rows of overlaps are those of the
    /// advertisements. All memory is taken here.
    pub fn new(
        alloc: Global,
        semantics: Semantics,
        filters: &'a Order<Sub>,
        adverts: &'a Order<Ad>,
        overlaps: &'a [Row],
        interfaces: &[u32],
        links: u32,
    ) -> Result<Self, NoMemory>
        requires rising { IsRising nat_lt interfaces.now }
        requires few { length interfaces.now < 2 ^ 32 }
        requires links { links ≤ length interfaces.now }
        requires overlaps { overlaps.now ≡ overlap_rows filters.now adverts.now }
        ensures semantics { IfOk result (λ control. control.semantics ≡ semantics) }
        ensures filter_items { IfOk result (λ control. control.filters.items ≡ filters.now) }
        ensures advert_items { IfOk result (λ control. control.adverts.items ≡ adverts.now) }
        ensures filter_interfaces { IfOk result (λ control. control.filters.interfaces ≡ interfaces.now) }
        ensures advert_interfaces { IfOk result (λ control. control.adverts.interfaces ≡ interfaces.now) }
        ensures links { IfOk result (λ control. length control.filters.announced ≡ links) }
        ensures filters { IfOk result (λ control. control.filters.holdings ≡ []) }
        ensures adverts { IfOk result (λ control. control.adverts.holdings ≡ []) }
    {
        let offered = Row::new(alloc, filters.count())?;
        let mut filters = Stock::new(alloc, filters, interfaces.to_vec(alloc)?, links)?;
        let adverts = Stock::new(alloc, adverts, interfaces.to_vec(alloc)?, links)?;
        close_unwanted(semantics, &mut filters, &offered, links);
        Ok(Control {
            semantics,
            overlaps,
            filters,
            adverts,
            offered,
        })
    }

    /// The semantics.
    pub fn semantics(&self) -> Semantics
        ensures { result ≡ self.now.semantics }
    {
        self.semantics
    }

    /// The filters that interfaces hold, by numbers; after a change of filters or of advertisements it announces for each link whose
    /// filters this can change what it changes of what is sent there.
    pub fn filters(&self) -> &Stock<'a, Sub>
        ensures { result.now ≡ self.now.filters }
    {
        &self.filters
    }

    /// The advertisements that interfaces hold, by numbers; after a change of them it announces for each link what it changes of what
    /// is sent there.
    pub fn adverts(&self) -> &Stock<'a, Ad>
        ensures { result.now ≡ self.now.adverts }
    {
        &self.adverts
    }

    /// An interface holds the filters with some numbers no more, and those with some others too. For each link it is announced then
    /// what this changes of the filters that are sent there. It takes no memory.
    pub fn change_filters(&mut self, interface: u32, out: &[u32], add: &[u32])
        requires interface { Has interface self.old.filters.interfaces }
        requires out { (i : ℕ) → Has i out.now → i < length self.old.filters.items }
        requires add { (i : ℕ) → Has i add.now → i < length self.old.filters.items }
        ensures semantics { self.new.semantics ≡ self.old.semantics }
        ensures adverts { self.new.adverts ≡ self.old.adverts }
        ensures items { self.new.filters.items ≡ self.old.filters.items }
        ensures interfaces { self.new.filters.interfaces ≡ self.old.filters.interfaces }
        ensures links { length self.new.filters.announced ≡ length self.old.filters.announced }
        ensures held { subs self.new interface ≡ union list_before (picked self.old.filters.items add.now)
            (minus list_before (subs self.old interface) (picked self.old.filters.items out.now)) }
        ensures others { (i : ℕ) → i ≢ interface → subs self.new i ≡ subs self.old i }
        ensures announced { (p link : ℕ) → p < length self.old.filters.announced → slice_get self.old.filters.interfaces p ≡ Some link
            → (t : Announced) × (slice_get self.new.filters.announced p ≡ Some t)
            × IsAnnounced list_before self.old.filters.items (sent_filters self.old link) (sent_filters self.new link) t }
    {
        self.filters.lemma_sound();
        self.filters.change(interface, out, add);
        self.filters.lemma_sound();
    }

    /// An interface holds the advertisements with some numbers no more, and those with some others too. For each link it is announced
    /// then what this changes of the advertisements that are sent there; and of the filters, under advertisement semantics, where
    /// the interface is a link itself. It takes no memory.
    pub fn change_adverts(&mut self, interface: u32, out: &[u32], add: &[u32])
        requires interface { Has interface self.old.adverts.interfaces }
        requires out { (i : ℕ) → Has i out.now → i < length self.old.adverts.items }
        requires add { (i : ℕ) → Has i add.now → i < length self.old.adverts.items }
        ensures semantics { self.new.semantics ≡ self.old.semantics }
        ensures items { self.new.adverts.items ≡ self.old.adverts.items }
        ensures interfaces { self.new.adverts.interfaces ≡ self.old.adverts.interfaces }
        ensures links { length self.new.adverts.announced ≡ length self.old.adverts.announced }
        ensures held { advs self.new interface ≡ union list_before (picked self.old.adverts.items add.now)
            (minus list_before (advs self.old interface) (picked self.old.adverts.items out.now)) }
        ensures others { (i : ℕ) → i ≢ interface → advs self.new i ≡ advs self.old i }
        ensures filter_items { self.new.filters.items ≡ self.old.filters.items }
        ensures filter_interfaces { self.new.filters.interfaces ≡ self.old.filters.interfaces }
        ensures filter_links { length self.new.filters.announced ≡ length self.old.filters.announced }
        ensures filters { self.new.filters.holdings ≡ self.old.filters.holdings }
        ensures announced { (p link : ℕ) → p < length self.old.adverts.announced → slice_get self.old.adverts.interfaces p ≡ Some link
            → (t : Announced) × (slice_get self.new.adverts.announced p ≡ Some t)
            × IsAnnounced list_before self.old.adverts.items (sent_adverts self.old link) (sent_adverts self.new link) t }
        ensures filters_announced { self.old.semantics ≡ Advertisement → (p : ℕ) → p < length self.old.filters.announced
            → slice_get self.old.filters.interfaces p ≡ Some interface → (t : Announced) × (slice_get self.new.filters.announced p ≡ Some t)
            × IsAnnounced list_before self.old.filters.items (sent_filters self.old interface) (sent_filters self.new interface) t }
    {
        self.filters.lemma_sound();
        self.adverts.lemma_sound();
        self.adverts.change(interface, out, add);
        self.adverts.lemma_sound();
        match self.semantics {
            Semantics::Subscription => {}
            Semantics::Advertisement => offer_wanted(
                &mut self.filters,
                &self.adverts,
                self.overlaps,
                interface,
                &mut self.offered,
            ),
        }
    }
}
