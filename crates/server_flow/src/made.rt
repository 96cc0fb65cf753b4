//! What a server is to hold of each neighbour, link by link.
ghost use Rattle.std.specs.Prelude.{◌≡◌, ◌↔◌, ◌-◌, ◌≤◌, ℕ, List, true, false, [], length, Some, slice_get, IfOk, OnOk};
ghost use Rattle.base.specs.Sets.{Has};
ghost use Rattle.filter_constraints.specs.Constraint.{ConstraintParts};
ghost use Rattle.filter_types.specs.Before.{list_before};
ghost use Rattle.filter_types.specs.Cover.{filter_covers, advert_covers};
ghost use Rattle.base_order.specs.Order.{picked};
ghost use Rattle.base_tree.specs.Tree.{IsServer, links_of};
ghost use Rattle.net_tables.specs.Known.{known_filters, known_adverts};
ghost use Rattle.server_spec.specs.Control.{by_adverts, is_wanted};
ghost use Rattle.server_flow.specs.Homes.{homes_in};
ghost use Rattle.server_flow.specs.Rows.{IsFlowing, row_at, IsNeededItem, IsWantedToo, PicksRootsOf, AreAdverts, AreFilters};

use crate::gather::needed;
use crate::home::Home;
use crate::table::Table;
use base::{Cover, NoMemory};
use base_bits::Row;
use base_order::Order;
use base_tree::Tree;
use filter_text::Semantics;
use net_tables::Tables;
use server_control::unite;
use std::alloc::Global;

/// What flows over a tree: one home for each server, and all links of the tree, each behind those that its row is made of.
#[derive(Drop)]
pub(crate) struct Flowing<'a, 'b> {
    pub(crate) alloc: Global,
    pub(crate) tables: &'a Tables<'a>,
    pub(crate) tree: &'b Tree,
    pub(crate) homes: &'b [Home<'a>],
    pub(crate) order: &'b [(u32, u32)],
}

/// The numbers of the roots of the items with these numbers.
fn roots_of<T: Cover>(alloc: Global, items: &Order<T>, due: &Row) -> Result<Row, NoMemory>
    requires { due.now.width ≡ length items.now }
    ensures width { IfOk result (λ row. row.width ≡ length items.now) }
    ensures roots { IfOk result (λ row. PicksRootsOf T.covering T.order items.now row.members (λ x. Has x (picked items.now due.now.members))) }
{
    items.lemma_sorted();
    items.lemma_roots();
    due.lemma_sorted();
    let mut row = Row::new(alloc, items.count())?;
    items.roots(due, &mut row);
    Ok(row)
}

/// Keeps of what is due what is wanted by who offers advertisements with these numbers.
fn keep_wanted(
    alloc: Global,
    tables: &Tables<'_>,
    offered: &Row,
    due: &mut Row,
) -> Result<(), NoMemory>
    requires offered { offered.now.width ≡ length (known_adverts tables.now.clients) }
    requires due { due.old.width ≡ length (known_filters tables.now.clients) }
    ensures width { OnOk result (due.new.width ≡ due.old.width) }
    ensures members { OnOk result ((k : ℕ) (x : List ConstraintParts) → slice_get (known_filters tables.now.clients) k ≡ Some x → Has k due.new.members
        ↔ (Has k due.old.members × (is_wanted tables.now.semantics (picked (known_adverts tables.now.clients) offered.now.members) x ≡ true))) }
{
    let filters = tables.filters();
    filters.lemma_sorted();
    match tables.semantics() {
        Semantics::Subscription => Ok(()),
        Semantics::Advertisement => {
            let mut wanted = Row::new(alloc, filters.count())?;
            unite(offered, tables.overlaps(), &mut wanted);
            due.keep_all(&wanted);
            Ok(())
        }
    }
}

impl<'a, 'b> Flowing<'a, 'b> {
    /// What the clients of a server have together.
    fn home(&self, server: u32) -> &'b Home<'a>
        requires from { 1 ≤ server }
        requires to { server ≤ length self.now.homes.now }
        ensures { slice_get self.now.homes.now (server - 1) ≡ Some result.now }
    {
        &self.homes[server as usize - 1]
    }

    /// The numbers of the advertisements that a neighbour sends to a server: none under subscription semantics.
    fn advert_row(&self, home: &Home<'a>, table: &Table, at: u32, of: u32) -> Result<Row, NoMemory>
        requires of { IsServer self.now.tree.now of }
        requires net { home.now.net ≡ self.now.tables.now }
        requires wide { (c : ℕ) → Has c (links_of self.now.tree.now of) → (c ≡ at → ⊥)
            → (row_at table.now of c).width ≡ length (known_adverts self.now.tables.now.clients) }
        ensures width { IfOk result (λ row. row.width ≡ length (known_adverts self.now.tables.now.clients)) }
        ensures steering { by_adverts self.now.tables.now.semantics ≡ true → IfOk result (λ row. PicksRootsOf advert_covers list_before
            (known_adverts self.now.tables.now.clients) row.members
            (IsNeededItem self.now.tree.now (known_adverts self.now.tables.now.clients) home.now.home.adverts table.now at of)) }
        ensures silent { by_adverts self.now.tables.now.semantics ≡ false → IfOk result (λ row. row.members ≡ []) }
    {
        let adverts = self.tables.adverts();
        match self.tables.semantics() {
            Semantics::Subscription => Row::new(self.alloc, adverts.count()),
            Semantics::Advertisement => {
                let due = needed(self.alloc, self.tree, home.adverts(), table, at, of)?;
                roots_of(self.alloc, adverts, &due)
            }
        }
    }

    /// The numbers of the filters that a neighbour sends to a server of which it holds these advertisements.
    fn filter_row(
        &self,
        home: &Home<'a>,
        table: &Table,
        offered: &Row,
        at: u32,
        of: u32,
    ) -> Result<Row, NoMemory>
        requires of { IsServer self.now.tree.now of }
        requires net { home.now.net ≡ self.now.tables.now }
        requires wide { (c : ℕ) → Has c (links_of self.now.tree.now of) → (c ≡ at → ⊥)
            → (row_at table.now of c).width ≡ length (known_filters self.now.tables.now.clients) }
        requires offered { offered.now.width ≡ length (known_adverts self.now.tables.now.clients) }
        ensures width { IfOk result (λ row. row.width ≡ length (known_filters self.now.tables.now.clients)) }
        ensures roots { IfOk result (λ row. PicksRootsOf filter_covers list_before (known_filters self.now.tables.now.clients) row.members
            (IsWantedToo (IsNeededItem self.now.tree.now (known_filters self.now.tables.now.clients) home.now.home.filters table.now at of)
            (is_wanted self.now.tables.now.semantics (picked (known_adverts self.now.tables.now.clients) offered.now.members)))) }
    {
        let mut due = needed(self.alloc, self.tree, home.filters(), table, at, of)?;
        keep_wanted(self.alloc, self.tables, offered, &mut due)?;
        roots_of(self.alloc, self.tables.filters(), &due)
    }

    /// What each server holds of each neighbour of advertisements.
    pub(crate) fn advert_table(&self) -> Result<Table, NoMemory>
        requires { IsFlowing self.now.tables.now self.now.tree.now self.now.homes.now self.now.order.now }
        ensures { IfOk result (λ table. AreAdverts self.now.tables.now self.now.tree.now (homes_in self.now.homes.now) table) }
    {
        self.tree.lemma_laws();
        let mut table = Table::blank(self.alloc)?;
        for (at, of) in self.order {
            let row = self.advert_row(self.home(*of), &table, *at, *of)?;
            table.set(*at, *of, row);
        }
        Ok(table)
    }

    /// What each server holds of each neighbour of filters, where these are the advertisements.
    pub(crate) fn filter_table(&self, offers: &Table) -> Result<Table, NoMemory>
        requires flowing { IsFlowing self.now.tables.now self.now.tree.now self.now.homes.now self.now.order.now }
        requires offers { AreAdverts self.now.tables.now self.now.tree.now (homes_in self.now.homes.now) offers.now }
        ensures { IfOk result (λ table. AreFilters self.now.tables.now self.now.tree.now (homes_in self.now.homes.now) table) }
    {
        self.tree.lemma_laws();
        let mut table = Table::blank(self.alloc)?;
        for (at, of) in self.order {
            let offered = offers.row(*of, *at);
            let row = self.filter_row(self.home(*of), &table, offered, *at, *of)?;
            table.set(*at, *of, row);
        }
        Ok(table)
    }
}
