//! Writes what clients received, line by line.
ghost use Rattle.std.specs.Prelude.{◌≡◌, ◌++◌, OnOk};
ghost use Rattle.output_report.specs.Deliveries.{delivery_line};

use crate::lines::push_publication;
use base::NoMemory;
use filter_text::Delivery;
use net_model::Client;

/// The line of a delivery.
#[tactic(auto, unfolding(crate::specs::Deliveries::delivery_line))]
pub fn push_delivery(
    out: &mut Vec<u8>,
    clients: &[Client],
    delivery: &Delivery<'_>,
) -> Result<(), NoMemory>
    ensures { OnOk result (out.new.items ≡ out.old.items ++ delivery_line clients.now delivery.now) }
{
    push_publication(out, b"deliver ", clients, delivery.id, delivery.bytes)
}
