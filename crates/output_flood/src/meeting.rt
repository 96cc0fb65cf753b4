//! Finds whom publications meet: the clients of whose filters one matches.
ghost use Rattle.std.specs.Prelude.{◌≡◌, ◌<◌, ◌≤◌, List, Some, not, filter, length, slice_get, IfOk, IsPermutation};
ghost use Rattle.std.specs.List.Sorted.{IsStrictlyIncreasing};
ghost use Rattle.net_model.specs.Parts.{ClientParts};
ghost use Rattle.net_tables.specs.Known.{known_filters};
ghost use Rattle.net_tables.specs.Numbered.{AllNumbered, catalogued};
ghost use Rattle.output_flood.specs.Numbers.{Steps};
ghost use Rattle.output_flood.specs.Tables.{IsRoom, AreTables, is_found, AreOthers, Meets, AllMeet, ordered_from};

use crate::publication::Publication;
use crate::tables::{Room, Tables, enter_phase, first_tables, make_room};
use base::NoMemory;
use base_bits::Set;
use match_filters::Matcher;
use match_routes::Route;
use net_tables::Catalogue;
use std::alloc::Global;

/// The places of the clients that a publication meets, rising.
#[derive(Drop)]
pub(crate) struct Met {
    /// Those that have a matching filter at every moment of its phase.
    pub every: Route,
    /// The others that have one at some moment of it.
    pub others: Vec<u32>,
}

// Whether the place is among these.
fn is_found(place: u32, places: &[u32]) -> bool
    requires { IsStrictlyIncreasing places.now }
    ensures { result ≡ is_found place places.now }
{
    places.binary_search(&place).is_ok()
}

// The places that are not among the others.
fn without(alloc: Global, places: &[u32], others: &[u32]) -> Result<Vec<u32>, NoMemory>
    requires { IsStrictlyIncreasing others.now }
    ensures { IfOk result (λ left. left.items ≡ filter (λ x. not (is_found x others.now)) places.now) }
{
    let mut left = Vec::new(alloc);
    for place in places {
        if !is_found(*place, others) {
            left.push(*place)?;
        }
    }
    Ok(left)
}

// Those that have a matching filter at some moment of the tables' phase and not at every moment.
fn others_met(
    alloc: Global,
    tables: &Tables,
    matched: &Set<'_>,
    every: &[u32],
) -> Result<Vec<u32>, NoMemory>
    requires rising { IsStrictlyIncreasing every.now }
    requires width { matched.now.width ≡ tables.now.ever.width }
    ensures { IfOk result (λ others. AreOthers tables.now matched.now.members every.now others.items) }
{
    if tables.steady {
        return Ok(Vec::new(alloc));
    }
    let ever = tables.ever.route(alloc, matched)?;
    without(alloc, ever.interfaces(), every)
}

// Whom a publication of the tables' phase meets.
fn met_by(
    alloc: Global,
    tables: &Tables,
    matcher: &Matcher,
    room: &mut Room,
    publication: &Publication,
) -> Result<Met, NoMemory>
    requires every { tables.now.every.width ≡ length matcher.now }
    requires ever { tables.now.ever.width ≡ length matcher.now }
    requires room { IsRoom (length matcher.now) room.old }
    ensures room { IsRoom (length matcher.now) room.new }
    ensures met { (clients : List ClientParts) (scripts : List Steps) → matcher.now ≡ known_filters clients → AllNumbered (catalogued clients) 1 scripts clients
        → AreTables matcher.now scripts tables.now → tables.now.phase ≡ Some publication.now.phase → IfOk result (Meets clients publication.now) }
{
    let _ = publication.notice.attributes();
    tables.every.lemma_bounded();
    tables.ever.lemma_bounded();
    matcher.matched(&publication.notice, &mut room.counting, &mut room.matched)?;
    let matched = room.matched.as_set();
    let every = tables.every.route(alloc, &matched)?;
    let others = others_met(alloc, tables, &matched, every.interfaces())?;
    Ok(Met { every, others })
}

// The places of publications with their phases, by phase.
fn by_phase(alloc: Global, publications: &[Publication]) -> Result<Vec<(u32, usize)>, NoMemory>
    ensures { IfOk result (λ order. IsPermutation (ordered_from 0 publications.now) order.items) }
{
    let mut order = Vec::with_capacity(alloc, publications.len())?;
    for (place, publication) in publications.iter().enumerate() {
        order.push((publication.phase, place))?;
    }
    order.sort()?;
    Ok(order)
}

// So many that meet nobody.
fn nobody(alloc: Global, count: usize) -> Result<Vec<Met>, NoMemory>
    ensures { IfOk result (λ mets. length mets.items ≡ count) }
{
    let mut mets = Vec::with_capacity(alloc, count)?;
    for _ in 0..count {
        mets.push(Met {
            every: Route::nowhere(alloc),
            others: Vec::new(alloc),
        })?;
    }
    Ok(mets)
}

// The publication at a place.
fn publication_at(publications: &[Publication], place: usize) -> &Publication
    requires { place < length publications.now }
    ensures { slice_get publications.now place ≡ Some result.now }
{
    &publications[place]
}

/// Whom each publication meets. They are gone through by phase, and from phase to phase the tables change only where a
/// client's filters do.
pub(crate) fn all_met(
    alloc: Global,
    catalogue: &Catalogue,
    publications: &[Publication],
) -> Result<Vec<Met>, NoMemory>
    ensures { IfOk result (λ mets. AllMeet catalogue.now.clients publications.now mets.items) }
{
    catalogue.lemma_sound();
    let filters = catalogue.filters();
    let scripts = catalogue.scripts();
    let order = by_phase(alloc, publications)?;
    let mut mets = nobody(alloc, publications.len())?;
    let mut room = make_room(alloc, filters.len() as u32)?;
    let mut tables = first_tables(alloc, filters, scripts)?;
    for (_, place) in &order {
        let publication = publication_at(publications, *place);
        enter_phase(&mut tables, filters, scripts, publication.phase, &mut room);
        mets[*place] = met_by(alloc, &tables, catalogue.matcher(), &mut room, publication)?;
    }
    Ok(mets)
}
