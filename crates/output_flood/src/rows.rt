//! Gathers the rows of each client out of those of the publications.
ghost use Rattle.std.specs.Prelude.{◌≡◌, ◌≤◌, ◌<◌, ◌++◌, ℕ, [], nat_eq, length, map, IfOk, OnOk};
ghost use Rattle.std.specs.List.Sorted.{IsStrictlyIncreasing};
ghost use Rattle.base.specs.Numbers.{sum_over};
ghost use Rattle.net_model.specs.Sound.{publishes};
ghost use Rattle.output_flood.specs.Publications.{accepted_of, all_rows_of, all_refusals_of};
ghost use Rattle.output_flood.specs.Tables.{is_found, ArePlacesRising, AllMeet};
ghost use Rattle.output_flood.specs.Rows.{rows_at, once, rows_by};

use crate::meeting::{Met, all_met};
use crate::owed::OwedRow;
use crate::publication::{Publication, push_accepted, refusals};
use base::NoMemory;
use filter_text::Lists;
use net_model::{Client, Command, Semantics};
use net_tables::Catalogue;
use std::alloc::Global;

// Puts a row at the end of those of the client at a place, where there is one.
fn push_at(all: &mut Vec<Vec<OwedRow>>, place: usize, row: OwedRow) -> Result<(), NoMemory>
    ensures count { OnOk result (length all.new.items ≡ length all.old.items) }
    ensures rows { OnOk result ((i : ℕ) → i < length all.old.items
        → rows_at all.new.items i ≡ rows_at all.old.items i ++ once (nat_eq place i) row) }
{
    if place < all.len() {
        all[place].push(row)?;
    }
    Ok(())
}

// Puts a row at the end of those of the clients at these places.
fn push_row(all: &mut Vec<Vec<OwedRow>>, places: &[u32], row: OwedRow) -> Result<(), NoMemory>
    requires { IsStrictlyIncreasing places.now }
    ensures count { OnOk result (length all.new.items ≡ length all.old.items) }
    ensures rows { OnOk result ((i : ℕ) → i < length all.old.items
        → rows_at all.new.items i ≡ rows_at all.old.items i ++ once (is_found i places.now) row) }
{
    for place in places {
        push_at(all, *place as usize, row)?;
    }
    Ok(())
}

// Puts the row of a publication at the end of those of the clients that it meets.
fn push_rows(
    all: &mut Vec<Vec<OwedRow>>,
    publication: &Publication,
    met: &Met,
) -> Result<(), NoMemory>
    requires { ArePlacesRising met.now }
    ensures count { OnOk result (length all.new.items ≡ length all.old.items) }
    ensures rows { OnOk result ((i : ℕ) → i < length all.old.items
        → rows_at all.new.items i ≡ rows_at all.old.items i ++ rows_by i publication.now met.now) }
{
    let owed = OwedRow {
        id: publication.id,
        must: publication.advertised,
    };
    push_row(all, met.every.interfaces(), owed)?;
    let allowed = OwedRow {
        id: publication.id,
        must: false,
    };
    push_row(all, &met.others, allowed)
}

// Counts each of these places once more.
fn count_all(counts: &mut [usize], places: &[u32])
    ensures { length counts.new ≡ length counts.old }
{
    for place in places {
        let place = *place as usize;
        if place < counts.len() {
            counts[place] = counts[place].saturating_add(1);
        }
    }
}

// How many rows each of so many clients gets: room for just as many is taken before they come.
fn counted(alloc: Global, count: usize, mets: &[Met]) -> Result<Vec<usize>, NoMemory>
    ensures { IfOk result (λ counts. length counts.items ≡ count) }
{
    let mut counts = vec![in alloc; 0; count]?;
    for met in mets {
        count_all(&mut counts, met.every.interfaces());
        count_all(&mut counts, &met.others);
    }
    Ok(counts)
}

// No rows yet of each client, with room for so many.
fn no_rows(alloc: Global, counts: &[usize]) -> Result<Vec<Vec<OwedRow>>, NoMemory>
    ensures count { IfOk result (λ all. length all.items ≡ length counts.now) }
    ensures none { IfOk result (λ all. (i : ℕ) → rows_at all.items i ≡ []) }
{
    let mut all = Vec::with_capacity(alloc, counts.len())?;
    for count in counts {
        let rows = Vec::with_capacity(alloc, *count)?;
        all.push(rows)?;
    }
    Ok(all)
}

// The rows of each client, by whom the publications meet.
fn rows_of_each(
    alloc: Global,
    clients: &[Client],
    publications: &[Publication],
    mets: &[Met],
) -> Result<Vec<Vec<OwedRow>>, NoMemory>
    requires { AllMeet clients.now publications.now mets.now }
    ensures { IfOk result (λ all. map (λ rows. rows.items) all.items ≡ all_rows_of clients.now publications.now) }
{
    let counts = counted(alloc, clients.len(), mets)?;
    let mut all = no_rows(alloc, &counts)?;
    for (k, publication) in publications.iter().enumerate() {
        push_rows(&mut all, publication, &mets[k])?;
    }
    Ok(all)
}

/// The accepted publications of all clients, by publisher and ordinal.
pub(crate) fn accepted(
    alloc: Global,
    semantics: Semantics,
    clients: &[Client],
) -> Result<Vec<Publication>, NoMemory>
    requires few { length clients.now ≤ 1024 }
    requires publishes { sum_over publishes clients.now ≤ 100000 }
    ensures { IfOk result (λ accepted. accepted.items ≡ accepted_of semantics 1 clients.now) }
{
    let mut accepted = Vec::new(alloc);
    for (i, client) in clients.iter().enumerate() {
        push_accepted(
            alloc,
            &mut accepted,
            semantics,
            i as u32 + 1,
            &client.script,
        )?;
    }
    Ok(accepted)
}

// The rows of each client as lists.
fn lists_of(alloc: Global, all: Vec<Vec<OwedRow>>) -> Result<Vec<Lists<OwedRow>>, NoMemory>
    ensures { IfOk result (λ lists. lists.items ≡ map (λ rows. rows.items) all.items) }
{
    let mut lists = Vec::with_capacity(alloc, all.len())?;
    for rows in all {
        lists.push(Lists::of(rows))?;
    }
    Ok(lists)
}

/// The rows of all clients.
pub(crate) fn all_rows(
    alloc: Global,
    catalogue: &Catalogue,
    publications: &[Publication],
) -> Result<Vec<Lists<OwedRow>>, NoMemory>
    ensures { IfOk result (λ rows. rows.items ≡ all_rows_of catalogue.now.clients publications.now) }
{
    let mets = all_met(alloc, catalogue, publications)?;
    let all = rows_of_each(alloc, &catalogue.net().clients, publications, &mets)?;
    lists_of(alloc, all)
}

/// The refused ordinals of all clients.
pub(crate) fn all_refusals(
    alloc: Global,
    semantics: Semantics,
    clients: &[Client],
) -> Result<Vec<Lists<u32>>, NoMemory>
    requires { sum_over publishes clients.now ≤ 100000 }
    ensures { IfOk result (λ refused. refused.items ≡ all_refusals_of semantics clients.now) }
{
    let mut all = Vec::with_capacity(alloc, clients.len())?;
    for client in clients {
        all.push(Lists::of(refusals(alloc, semantics, &client.script)?))?;
    }
    Ok(all)
}
