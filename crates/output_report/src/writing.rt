//! What clients received, line by line on its way to a sink. No call takes memory.
ghost use Rattle.std.specs.Prelude.{◌≡◌, false, length};
ghost use Rattle.std.specs.List.{flat_map};
ghost use Rattle.std.specs.Fmt.{decimal};
ghost use Rattle.base_devices.specs.Pending.{outlet, Went};
ghost use Rattle.net_inbox.specs.Inbox.{delivery_at, in_order};
ghost use Rattle.output_report.specs.Lines.{client_line, refused_line, publication_line};
ghost use Rattle.output_report.specs.Deliveries.{delivery_line, delivery_section, deliveries_text};

use base_devices::{Pending, Sink};
use filter_text::{Id, Lists};
use filter_values::Name;
use itoa::Buffer;
use net_inbox::{Deliveries, Inbox, Received};
use net_model::{Client, Net, client_name};

// A number in decimal.
fn put_number<K: Sink>(out: &mut Pending, sink: &mut K, number: u64)
    ensures { Went (outlet (K.state sink.old) out.old) (outlet (K.state sink.new) out.new) (decimal number) }
{
    let mut buffer = Buffer::new();
    out.put(sink, buffer.format(number).as_bytes())
}

/// The line before what a client receives.
pub(crate) fn put_client<K: Sink>(out: &mut Pending, sink: &mut K, name: &Name)
    ensures { Went (outlet (K.state sink.old) out.old) (outlet (K.state sink.new) out.new) (client_line name.now) }
{
    out.put(sink, b"client ");
    out.put(sink, name.bytes());
    out.put(sink, b"\n")
}

// The line of a refused publish.
fn put_refusal<K: Sink>(out: &mut Pending, sink: &mut K, ordinal: u32)
    ensures { Went (outlet (K.state sink.old) out.old) (outlet (K.state sink.new) out.new) (refused_line ordinal) }
{
    out.put(sink, b"refused ");
    put_number(out, sink, u64::from(ordinal));
    out.put(sink, b" unadvertised\n")
}

/// A line for each refused publish.
pub(crate) fn put_refused<K: Sink>(out: &mut Pending, sink: &mut K, ordinals: &[u32])
    ensures { Went (outlet (K.state sink.old) out.old) (outlet (K.state sink.new) out.new)
        (flat_map refused_line ordinals.now) }
{
    for ordinal in ordinals {
        put_refusal(out, sink, *ordinal);
    }
}

/// A line of a publication: a word, its publisher's name, its ordinal and the text of its notice.
pub(crate) fn put_publication<K: Sink>(
    out: &mut Pending,
    sink: &mut K,
    word: &[u8],
    clients: &[Client],
    id: Id,
    text: &[u8],
)
    ensures { Went (outlet (K.state sink.old) out.old) (outlet (K.state sink.new) out.new)
        (publication_line word.now clients.now id text.now) }
{
    out.put(sink, word);
    out.put(sink, client_name(clients, id.publisher));
    out.put(sink, b" ");
    put_number(out, sink, u64::from(id.ordinal));
    out.put(sink, b" ");
    out.put(sink, text);
    out.put(sink, b"\n")
}

// The line of a delivery by its number: the one that stands in memory, which has the name of its publisher.
#[tactic(auto, unfolding(crate::specs::Deliveries::delivery_line))]
fn put_delivery<K: Sink>(
    out: &mut Pending,
    sink: &mut K,
    clients: &[Client],
    deliveries: &Deliveries,
    number: u32,
)
    ensures { Went (outlet (K.state sink.old) out.old) (outlet (K.state sink.new) out.new)
        (delivery_line clients.now (delivery_at deliveries.now number)) }
{
    let delivery = deliveries.at(number);
    let name = client_name(clients, delivery.id.publisher);
    match deliveries.line(number, name) {
        Some(line) => out.put(sink, line),
        None => put_publication(out, sink, b"deliver ", clients, delivery.id, delivery.bytes),
    }
}

// The lines of deliveries, in their order.
fn put_received<K: Sink>(
    out: &mut Pending,
    sink: &mut K,
    clients: &[Client],
    received: Received<'_>,
)
    ensures { Went (outlet (K.state sink.old) out.old) (outlet (K.state sink.new) out.new)
        (flat_map (delivery_line clients.now) (in_order received.entry)) }
{
    for number in received.numbers {
        put_delivery(out, sink, clients, received.deliveries, *number);
    }
}

// A client with what it received.
fn put_section<K: Sink>(
    out: &mut Pending,
    sink: &mut K,
    clients: &[Client],
    client: &Client,
    refused: &[u32],
    received: Received<'_>,
)
    ensures { Went (outlet (K.state sink.old) out.old) (outlet (K.state sink.new) out.new)
        (delivery_section clients.now false client.now refused.now (in_order received.entry)) }
{
    put_client(out, sink, &client.name);
    put_refused(out, sink, refused);
    put_received(out, sink, clients, received)
}

/// What the clients received, client by client in the order of the net: its refused publishes, and a line for each
/// delivery, in the order of its list. It takes no memory.
pub fn put_deliveries<K: Sink>(
    out: &mut Pending,
    sink: &mut K,
    net: &Net,
    refused: &[Lists<u32>],
    received: &[Inbox],
)
    requires refused { length refused.now ≡ length net.now.clients }
    requires received { length received.now ≡ length net.now.clients }
    ensures { Went (outlet (K.state sink.old) out.old) (outlet (K.state sink.new) out.new)
        (deliveries_text net.now refused.now received.now false) }
{
    for (i, client) in net.clients.iter().enumerate() {
        put_section(
            out,
            sink,
            &net.clients,
            client,
            refused[i].as_slice(),
            received[i].received(),
        );
    }
}
