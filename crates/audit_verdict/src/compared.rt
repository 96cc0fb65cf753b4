//! Compares the deliveries that an output claims with what the clients received.
ghost use Rattle.std.specs.Prelude.{◌≡◌, ◌≤◌, false, length, OnOk};
ghost use Rattle.std.specs.List.{flat_map};
ghost use Rattle.net_model.specs.Nets.{of_clients};
ghost use Rattle.net_inbox.specs.Inbox.{in_order};
ghost use Rattle.sequential_network.specs.Ruling.{refused_by};
ghost use Rattle.output_report.specs.Deliveries.{deliveries_text, delivery_line, delivery_section};
ghost use Rattle.audit_verdict.specs.Comparing.{GoesOn};

use crate::comparing::Comparing;
use base::NoMemory;
use filter_text::Delivery;
use net_inbox::Received;
use net_model::{Client, Net};
use output_report::{push_client, push_delivery, push_refused};
use sequential_network::{Kept, Networked, RuledNetwork};
use std::alloc::Global;

// The line of a delivery, put together in a buffer.
fn compare_delivery(
    text: &mut Comparing<'_>,
    line: &mut Vec<u8>,
    clients: &[Client],
    delivery: &Delivery<'_>,
) -> Result<(), NoMemory>
    ensures { OnOk result (GoesOn text.old text.new (delivery_line clients.now delivery.now)) }
{
    line.clear();
    push_delivery(line, clients, delivery)?;
    text.compare(line);
    Ok(())
}

// The lines of deliveries, in their order.
fn compare_received(
    text: &mut Comparing<'_>,
    line: &mut Vec<u8>,
    clients: &[Client],
    received: Received<'_>,
) -> Result<(), NoMemory>
    ensures { OnOk result (GoesOn text.old text.new (flat_map (delivery_line clients.now) (in_order received.entry))) }
{
    for number in received.numbers {
        compare_delivery(text, line, clients, &received.deliveries.at(*number))?;
    }
    Ok(())
}

// A client with what it received.
#[tactic(auto, unfolding(output_report::specs::Deliveries::delivery_section))]
fn compare_section(
    text: &mut Comparing<'_>,
    line: &mut Vec<u8>,
    clients: &[Client],
    client: &Client,
    refused: &[u32],
    received: Received<'_>,
) -> Result<(), NoMemory>
    ensures { OnOk result (GoesOn text.old text.new (delivery_section clients.now false client.now refused.now (in_order received.entry))) }
{
    line.clear();
    push_client(line, &client.name)?;
    push_refused(line, refused)?;
    text.compare(line);
    compare_received(text, line, clients, received)
}

/// Compares what the clients of a network have received, client by client in the order of its net, each delivery in the order received.
pub fn compare_deliveries<'a, P: Networked<'a>>(
    alloc: Global,
    text: &mut Comparing<'_>,
    net: &Net,
    network: &RuledNetwork<'a, P, Kept>,
) -> Result<(), NoMemory>
    requires few { length net.now.clients ≤ 1024 }
    requires same { network.now.net ≡ net.now }
    ensures { OnOk result (GoesOn text.old text.new (deliveries_text net.now
        (of_clients net.now (refused_by P.ruling net.now network.now.journal)) (of_clients net.now (P.ruling.received_by net.now network.now.journal)) false)) }
{
    let mut line = Vec::new(alloc);
    for (i, client) in net.clients.iter().enumerate() {
        let number = i as u32 + 1;
        compare_section(
            text,
            &mut line,
            &net.clients,
            client,
            network.refused(number),
            network.received(number),
        )?;
    }
    Ok(())
}
