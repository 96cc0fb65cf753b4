//! What the interfaces of a server hold of the items of an order, and what it sends on its links.
ghost use Rattle.std.specs.Prelude.{◌≡◌, ◌≢◌, ◌↔◌, ℕ, true, ◌<◌, ◌≤◌, ◌^◌, nat_lt, List, [], length, replicate, set, slice_get, Some, IfOk, IfSome, IfNone};
ghost use Rattle.base.specs.Sets.{Has, IsRising, union, minus};
ghost use Rattle.base_order.specs.Order.{picked};
ghost use Rattle.server_stock.specs.Sides.{Announced};
ghost use Rattle.server_stock.specs.Stock.{Holding, held_from, sent, IsAnnounced};

use crate::holders::Holders;
use crate::sides::{Side, change, fresh_sides, offer};
use base::{Cover, NoMemory};
use base_bits::Row;
use base_order::Order;
use std::alloc::Global;
use std::marker::Model;

/// The items of an order that interfaces hold.
///
/// Contracts see the pairs of an interface and an item that is held from it. The first interfaces
/// are links: for each the roots are kept of what the others hold and is offered there. It is made
/// once, with all its memory; a change takes none.
#[derive(Drop)]
pub struct Stock<'a, T: Cover> {
    interfaces: Vec<u32>,
    order: &'a Order<T>,
    held: Holders,
    sides: Vec<Side>,
}

impl<'a, T: Cover> Model for Stock<'a, T> {
    ghost use Rattle.std.specs.Prelude.{map};
    ghost use Rattle.server_stock.specs.Sides.{offered_at, announced_of};
    ghost use Rattle.server_stock.specs.Stock.{Stocked, stocked_code, pairs_of, IsStock};

    ghost Value = { Stocked T };

    ghost coded = { stocked_code T.code };

    ghost view = { λ s. record {
      items = s.order.now;
      interfaces = s.interfaces.items;
      holdings = pairs_of s.order.now s.interfaces.items s.held.rows;
      offered = map (offered_at s.order.now) s.sides.items;
      announced = map announced_of s.sides.items;
    } };

    ghost invariant = { λ s. IsStock T.covering s.order.now s.interfaces.items s.held s.sides.items };
}

/// The place of an interface.
fn place(interfaces: &[u32], interface: u32) -> Option<usize>
    ensures some { IfSome result (λ p. slice_get interfaces.now p ≡ Some interface) }
    ensures none { IfNone result (Has interface interfaces.now → ⊥) }
{
    for p in 0..interfaces.len() {
        if interfaces[p] == interface {
            return Some(p);
        }
    }
    None
}

impl<'a, T: Cover> Stock<'a, T> {
    /// Nothing is held from these interfaces, of which so many are links. All memory is taken here.
    pub fn new(
        alloc: Global,
        order: &'a Order<T>,
        interfaces: Vec<u32>,
        links: u32,
    ) -> Result<Self, NoMemory>
        requires rising { IsRising nat_lt interfaces.items }
        requires few { length interfaces.items < 2 ^ 32 }
        requires links { links ≤ length interfaces.items }
        ensures items { IfOk result (λ stock. stock.items ≡ order.now) }
        ensures interfaces { IfOk result (λ stock. stock.interfaces ≡ interfaces.items) }
        ensures holdings { IfOk result (λ stock. stock.holdings ≡ []) }
        ensures links { IfOk result (λ stock. length stock.announced ≡ links) }
        ensures offered { IfOk result (λ stock. stock.offered ≡ replicate links order.now) }
    {
        order.lemma_sorted();
        let width = order.count();
        let held = Holders::new(alloc, width, interfaces.len() as u32)?;
        let sides = fresh_sides(alloc, width, links)?;
        Ok(Stock {
            interfaces,
            order,
            held,
            sides,
        })
    }

    /// The interfaces, rising, of which the links are the first.
    pub fn interfaces(&self) -> &[u32]
        ensures { result.now ≡ self.now.interfaces }
    {
        &self.interfaces
    }

    /// Does nothing; its contract says what each stock keeps: items and interfaces rise, the links are the first interfaces, and
    /// what is held is among the items, from one of the interfaces.
    pub fn lemma_sound(&self)
        ensures items { IsRising T.order self.now.items }
        ensures few { length self.now.items < 2 ^ 32 }
        ensures interfaces { IsRising nat_lt self.now.interfaces }
        ensures links { length self.now.announced ≤ length self.now.interfaces }
        ensures offered { length self.now.offered ≡ length self.now.announced }
        ensures held { (h : Holding T) → Has h self.now.holdings → Has h.item self.now.items }
        ensures held_from { (h : Holding T) → Has h self.now.holdings → Has h.interface self.now.interfaces }
    {
        self.order.lemma_sorted();
    }

    /// The place of an interface among the links, if it is one.
    pub fn link_place(&self, interface: u32) -> Option<usize>
        ensures some { IfSome result (λ p. (p < length self.now.announced) × (slice_get self.now.interfaces p ≡ Some interface)) }
        ensures none { IfNone result ((p : ℕ) → p < length self.now.announced → slice_get self.now.interfaces p ≢ Some interface) }
    {
        place(&self.interfaces[..self.sides.len()], interface)
    }

    /// An interface holds the items with some numbers no more, and those with some others too. For
    /// each link it is announced then what this changes of what is sent on it. It takes no memory.
    pub fn change(&mut self, interface: u32, out: &[u32], add: &[u32])
        requires interface { Has interface self.old.interfaces }
        requires out { (i : ℕ) → Has i out.now → i < length self.old.items }
        requires add { (i : ℕ) → Has i add.now → i < length self.old.items }
        ensures items { self.new.items ≡ self.old.items }
        ensures interfaces { self.new.interfaces ≡ self.old.interfaces }
        ensures held { held_from T.order interface self.new.holdings ≡ union T.order (picked self.old.items add.now)
            (minus T.order (held_from T.order interface self.old.holdings) (picked self.old.items out.now)) }
        ensures others { (i : ℕ) → i ≢ interface → held_from T.order i self.new.holdings ≡ held_from T.order i self.old.holdings }
        ensures links { length self.new.announced ≡ length self.old.announced }
        ensures offered { self.new.offered ≡ self.old.offered }
        ensures announced { (p link : ℕ) (offered : List T) → slice_get self.old.interfaces p ≡ Some link → slice_get self.old.offered p ≡ Some offered
            → (t : Announced) × (slice_get self.new.announced p ≡ Some t) × IsAnnounced T.order self.old.items
            (sent T.covering T.order offered link self.old.holdings) (sent T.covering T.order offered link self.new.holdings) t }
    {
        self.order.lemma_sorted();
        if let Some(p) = place(&self.interfaces, interface) {
            change(self.order, &mut self.held, p, out, add, &mut self.sides);
        }
    }

    /// The items with these numbers and no others are offered at the link at a place. It is announced then what this changes of
    /// what is sent there. It takes no memory.
    pub fn offer(&mut self, place: usize, offered: &Row)
        requires place { place < length self.old.announced }
        requires width { offered.now.width ≡ length self.old.items }
        ensures items { self.new.items ≡ self.old.items }
        ensures interfaces { self.new.interfaces ≡ self.old.interfaces }
        ensures holdings { self.new.holdings ≡ self.old.holdings }
        ensures offered { self.new.offered ≡ set self.old.offered place (picked self.old.items offered.now.members) }
        ensures links { length self.new.announced ≡ length self.old.announced }
        ensures announced { (link : ℕ) (before : List T) → slice_get self.old.interfaces place ≡ Some link → slice_get self.old.offered place ≡ Some before
            → (t : Announced) × (slice_get self.new.announced place ≡ Some t) × IsAnnounced T.order self.old.items
            (sent T.covering T.order before link self.old.holdings)
            (sent T.covering T.order (picked self.old.items offered.now.members) link self.old.holdings) t }
    {
        self.order.lemma_sorted();
        offer(
            self.order,
            &self.held,
            place,
            offered,
            &mut self.sides[place],
        );
    }

    /// Whether the item with a number is held from an interface.
    pub fn holds(&self, interface: u32, i: u32) -> bool
        requires { i < length self.now.items }
        ensures { (x : _) → slice_get self.now.items i ≡ Some x → (result ≡ true) ↔ Has x (held_from T.order interface self.now.holdings) }
    {
        self.order.lemma_sorted();
        match place(&self.interfaces, interface) {
            Some(p) => {
                self.held.lemma_sorted(p);
                self.held.row(p).has(i)
            }
            None => false,
        }
    }

    /// The numbers of what is held from an interface, if it is one.
    pub fn held(&self, interface: u32) -> Option<&Row>
        ensures some { IfSome result (λ row. picked self.now.items row.now.members ≡ held_from T.order interface self.now.holdings) }
        ensures width { IfSome result (λ row. row.now.width ≡ length self.now.items) }
        ensures none { IfNone result (Has interface self.now.interfaces → ⊥) }
    {
        self.order.lemma_sorted();
        match place(&self.interfaces, interface) {
            Some(p) => {
                self.held.lemma_sorted(p);
                Some(self.held.row(p))
            }
            None => None,
        }
    }

    /// The numbers of what is sent on the link at a place.
    pub fn sent(&self, place: usize) -> &Row
        requires { place < length self.now.announced }
        ensures { (link : ℕ) (offered : List T) → slice_get self.now.interfaces place ≡ Some link → slice_get self.now.offered place ≡ Some offered
            → picked self.now.items result.now.members ≡ sent T.covering T.order offered link self.now.holdings }
    {
        self.order.lemma_sorted();
        &self.sides[place].roots
    }

    /// The numbers that the last change withdrew on the link at a place.
    pub fn withdrawn(&self, place: usize) -> &Row
        requires { place < length self.now.announced }
        ensures members { (t : Announced) → slice_get self.now.announced place ≡ Some t → result.now.members ≡ t.withdrawn }
        ensures width { result.now.width ≡ length self.now.items }
    {
        &self.sides[place].withdrawn
    }

    /// The numbers that the last change added on the link at a place.
    pub fn added(&self, place: usize) -> &Row
        requires { place < length self.now.announced }
        ensures members { (t : Announced) → slice_get self.now.announced place ≡ Some t → result.now.members ≡ t.added }
        ensures width { result.now.width ≡ length self.now.items }
    {
        &self.sides[place].added
    }
}
