//! Lists of deliveries in the order that is wanted.
ghost use Rattle.std.specs.Prelude.{◌≡◌, map, IfOk};
ghost use Rattle.output_report.specs.Deliveries.{by_id, ordered};

use crate::sorted::by_id;
use base::NoMemory;
use net_inbox::Inbox;
use std::alloc::Global;

// What a client received by its ids.
fn list_by_id(alloc: Global, inbox: &Inbox) -> Result<Inbox, NoMemory>
    ensures { IfOk result (λ list. list ≡ by_id inbox.now) }
{
    let received = inbox.received();
    let numbers = by_id(alloc, received.deliveries, received.numbers)?;
    Ok(Inbox::of(received.deliveries.share()?, numbers))
}

// Each list by its ids.
fn lists_by_id(alloc: Global, received: &[Inbox]) -> Result<Vec<Inbox>, NoMemory>
    ensures { IfOk result (λ lists. lists.items ≡ map by_id received.now) }
{
    let mut lists = Vec::with_capacity(alloc, received.len())?;
    for inbox in received {
        lists.push(list_by_id(alloc, inbox)?)?;
    }
    Ok(lists)
}

/// Each list as it is, or by publisher and ordinal where that is wanted.
pub fn ordered(alloc: Global, received: Vec<Inbox>, sorted: bool) -> Result<Vec<Inbox>, NoMemory>
    ensures { IfOk result (λ lists. lists.items ≡ map (ordered sorted) received.items) }
{
    if sorted {
        lists_by_id(alloc, &received)
    } else {
        Ok(received)
    }
}
