//! Finds what a run has of its publications: the filters that each matches, and the text of its notice.
ghost use Rattle.std.specs.Prelude.{◌≡◌, ◌≤◌, map, length, IfOk};
ghost use Rattle.net_tables.specs.Found.{delivery_of, matched_row};

use crate::publication::Publication;
use base::NoMemory;
use base_bits::{Row, Sets};
use filter_text::write_notice;
use match_filters::{Matcher, Scratch};
use net_inbox::{Deliveries, DeliveriesBuilder};
use net_model::{Client, client_name};
use std::alloc::Global;

/// Publications of these clients as they are delivered.
pub(crate) fn deliveries(
    alloc: Global,
    clients: &[Client],
    publications: &[Publication],
) -> Result<Deliveries, NoMemory>
    ensures { IfOk result (λ deliveries. deliveries ≡ map delivery_of publications.now) }
{
    let mut builder = DeliveriesBuilder::new(alloc, publications.len())?;
    for known in publications {
        let name = client_name(clients, known.id.publisher);
        builder.push(alloc, known.id, name, &write_notice(alloc, &known.notice)?)?;
    }
    builder.build(alloc)
}

/// The filters that each of these publications matches.
pub(crate) fn find_all(
    alloc: Global,
    matcher: &Matcher,
    publications: &[Publication],
) -> Result<Sets, NoMemory>
    ensures { IfOk result (λ sets. sets.rows ≡ map (matched_row matcher.now) publications.now) }
{
    let mut scratch = Scratch::new(alloc);
    let mut row = Row::new(alloc, matcher.len() as u32)?;
    let mut sets = Sets::new(alloc, matcher.len() as u32);
    for known in publications {
        matcher.matched(&known.notice, &mut scratch, &mut row)?;
        sets.push(alloc, &row.as_set())?;
    }
    Ok(sets)
}
