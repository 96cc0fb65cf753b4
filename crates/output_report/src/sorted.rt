//! Sorts deliveries by their ids.
ghost use Rattle.std.specs.Prelude.{◌≡◌, map, IfOk};
ghost use Rattle.net_inbox.specs.Inbox.{at_numbers, delivery_at};
ghost use Rattle.output_report.specs.Deliveries.{by_id};

use base::NoMemory;
use filter_text::Id;
use net_inbox::Deliveries;
use std::alloc::Global;

/// The number of a delivery, with its id.
#[derive(Drop)]
struct Keyed {
    id: Id,
    number: u32,
}

// These numbers with their ids.
fn with_ids(alloc: Global, deliveries: &Deliveries, numbers: &[u32]) -> Result<Vec<Keyed>, NoMemory>
    ensures { IfOk result (λ keyed. keyed.items ≡ map (λ n. record { id = (delivery_at deliveries.now n).id; number = n }) numbers.now) }
{
    let mut keyed = Vec::with_capacity(alloc, numbers.len())?;
    for number in numbers {
        let id = deliveries.at(*number).id;
        keyed.push(Keyed {
            id,
            number: *number,
        })?;
    }
    Ok(keyed)
}

// The numbers without their ids.
fn numbers_of(alloc: Global, keyed: &[Keyed]) -> Result<Vec<u32>, NoMemory>
    ensures { IfOk result (λ numbers. numbers.items ≡ map (λ one. one.number) keyed.now) }
{
    let mut numbers = Vec::with_capacity(alloc, keyed.len())?;
    for one in keyed {
        numbers.push(one.number)?;
    }
    Ok(numbers)
}

/// The numbers of deliveries by publisher and ordinal; those of one publication in their order.
pub(crate) fn by_id(
    alloc: Global,
    deliveries: &Deliveries,
    numbers: &[u32],
) -> Result<Vec<u32>, NoMemory>
    ensures { IfOk result (λ sorted. at_numbers deliveries.now sorted.items ≡ by_id (at_numbers deliveries.now numbers.now)) }
{
    let mut keyed = with_ids(alloc, deliveries, numbers)?;
    keyed.sort_by_key(|one| one.id)?;
    numbers_of(alloc, &keyed)
}
