//! Finds what each server holds from each neighbour.
ghost use Rattle.std.specs.Prelude.{◌≡◌, ℕ, suc, map, length, Some, slice_get, IfOk};
ghost use Rattle.base.specs.Sets.{Has};
ghost use Rattle.base_tree.specs.Tree.{IsServer, links_of};
ghost use Rattle.net_tables.specs.Known.{known_filters, known_adverts};
ghost use Rattle.server_spec.specs.declared.control.HeldLink.{HeldLink as Held};
ghost use Rattle.server_spec.specs.Flow.{IsFlow, AreGivenLinks};
ghost use Rattle.server_control.specs.Held.{NetHeld, held_in, AreHeldIn};
ghost use Rattle.server_flow.specs.Homes.{homes_in, AreHomesIn};
ghost use Rattle.server_flow.specs.Rows.{AreWideOn, RepresentsHeld};

use crate::gather::copied;
use crate::home::Home;
use crate::made::Flowing;
use crate::order::ordered;
use crate::table::Table;
use base::NoMemory;
use base_tree::Tree;
use net_tables::Tables;
use server_control::HeldLink;
use std::alloc::Global;

/// What a server holds of its neighbours, by the rows of the links.
fn held_links<'a>(
    alloc: Global,
    tables: &'a Tables<'a>,
    tree: &Tree,
    table: &Table,
    offers: &Table,
    at: u32,
) -> Result<Vec<HeldLink<'a>>, NoMemory>
    requires at { IsServer tree.now at }
    requires filters { AreWideOn tree.now (length (known_filters tables.now.clients)) table.now }
    requires adverts { AreWideOn tree.now (length (known_adverts tables.now.clients)) offers.now }
    ensures links { IfOk result (λ links. map (λ link. link.link) (held_in links.items) ≡ links_of tree.now at) }
    ensures held { IfOk result (λ links. (link : NetHeld) → Has link links.items → RepresentsHeld tables.now table.now offers.now at link) }
{
    tree.lemma_laws();
    let mut links = Vec::new(alloc);
    for of in tree.neighbours(at) {
        let filters = copied(alloc, table.row(at, *of))?;
        let adverts = copied(alloc, offers.row(at, *of))?;
        links.push(HeldLink::of(tables, *of, filters, adverts))?;
    }
    Ok(links)
}

/// What each server holds of its neighbours, by the rows of the links.
fn all_links<'a>(
    alloc: Global,
    tables: &'a Tables<'a>,
    tree: &Tree,
    table: &Table,
    offers: &Table,
) -> Result<Vec<Vec<HeldLink<'a>>>, NoMemory>
    requires filters { AreWideOn tree.now (length (known_filters tables.now.clients)) table.now }
    requires adverts { AreWideOn tree.now (length (known_adverts tables.now.clients)) offers.now }
    ensures servers { IfOk result (λ held. length held.items ≡ tree.now.count) }
    ensures links { IfOk result (λ held. (place : ℕ) (links : _) → slice_get held.items place ≡ Some links
        → map (λ link. link.link) (held_in links.items) ≡ links_of tree.now (suc place)) }
    ensures held { IfOk result (λ held. (place : ℕ) (links : _) → slice_get held.items place ≡ Some links
        → (link : NetHeld) → Has link links.items → RepresentsHeld tables.now table.now offers.now (suc place) link) }
{
    let mut held = Vec::new(alloc);
    for at in 1..=tree.servers() {
        let links = held_links(alloc, tables, tree, table, offers, at)?;
        held.push(links)?;
    }
    Ok(held)
}

/// For each server, by its number, what it holds of each of its neighbours, rising, once the tree comes into force. There is
/// one home for each server.
///
/// Each link is computed once, from what its neighbour holds of its other neighbours: a union of rows, and one pass over its
/// members for the roots. Out of memory is the only refusal.
pub fn flow<'a>(
    alloc: Global,
    tables: &'a Tables<'a>,
    tree: &Tree,
    homes: &[Home<'a>],
) -> Result<Vec<Vec<HeldLink<'a>>>, NoMemory>
    requires homes { length homes.now ≡ tree.now.count }
    requires net { AreHomesIn tables.now homes.now }
    ensures servers { IfOk result (λ held. length held.items ≡ tree.now.count) }
    ensures net { IfOk result (λ held. (place : ℕ) (links : _) → slice_get held.items place ≡ Some links → AreHeldIn tables.now links.items) }
    ensures links { IfOk result (λ held. (place : ℕ) (links : _) → slice_get held.items place ≡ Some links
        → map (λ link. link.link) (held_in links.items) ≡ links_of tree.now (suc place)) }
    ensures flow { IfOk result (λ held. (place : ℕ) (links : _) → slice_get held.items place ≡ Some links
        → (link : Held) → Has link (held_in links.items) → IsFlow tables.now.semantics tree.now (homes_in homes.now) (suc place) link) }
    ensures given { IfOk result (λ held. (place : ℕ) (links : _) → slice_get held.items place ≡ Some links → AreGivenLinks (held_in links.items)) }
{
    tree.lemma_laws();
    let order = ordered(alloc, tree)?;
    let flowing = Flowing {
        alloc,
        tables,
        tree,
        homes,
        order: &order,
    };
    let offers = flowing.advert_table()?;
    let table = flowing.filter_table(&offers)?;
    let held = all_links(alloc, tables, tree, &table, &offers)?;
    Ok(held)
}
