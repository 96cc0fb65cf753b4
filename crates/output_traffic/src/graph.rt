//! Writes the graph of the traffic to a sink. No call takes memory.
ghost use Rattle.std.specs.Prelude.{◌≡◌, ◌++◌, ◌≤◌, codes, true};
ghost use Rattle.std.specs.List.{flat_map};
ghost use Rattle.base_devices.specs.Pending.{outlet, Went};
ghost use Rattle.base_tree.specs.Graph.{servers_to};
ghost use Rattle.output_traffic.specs.Text.{client_node, client_nodes, link_printed, server_node};
ghost use Rattle.output_traffic.specs.Printed.{loads_by};

use crate::directions::put_links;
use crate::line::put_labelled;
use crate::loads::LoadCounts;
use base_devices::{Pending, Sink};
use net_model::Client;

// The node of a server.
fn put_server<K: Sink>(out: &mut Pending, sink: &mut K, server: u32)
    ensures { Went (outlet (K.state sink.old) out.old) (outlet (K.state sink.new) out.new)
        (server_node server) }
{
    put_labelled(out, sink, b"  ", u64::from(server));
    out.put(sink, b" [shape=circle];\n")
}

// The nodes of servers, which are numbered from 1.
fn put_servers<K: Sink>(out: &mut Pending, sink: &mut K, count: u32)
    requires { count ≤ 64 }
    ensures { Went (outlet (K.state sink.old) out.old) (outlet (K.state sink.new) out.new)
        (flat_map server_node (servers_to count)) }
{
    for server in 1..count + 1 {
        put_server(out, sink, server);
    }
}

// The node of a client, tied to that of its server.
fn put_client<K: Sink>(out: &mut Pending, sink: &mut K, number: u64, client: &Client)
    ensures { Went (outlet (K.state sink.old) out.old) (outlet (K.state sink.new) out.new)
        (client_node number client.now) }
{
    put_labelled(out, sink, b"  c", number);
    out.put(sink, b" [shape=box, label=\"");
    out.put(sink, client.name.bytes());
    out.put(sink, b"\"];\n");
    put_labelled(out, sink, b"  c", number);
    put_labelled(out, sink, b" -> ", u64::from(client.home));
    out.put(sink, b" [dir=none];\n")
}

// The nodes of clients, which are numbered from 1.
fn put_clients<K: Sink>(out: &mut Pending, sink: &mut K, clients: &[Client])
    ensures { Went (outlet (K.state sink.old) out.old) (outlet (K.state sink.new) out.new)
        (client_nodes 1 clients.now) }
{
    for (i, client) in clients.iter().enumerate() {
        put_client(out, sink, i as u64 + 1, client);
    }
}

/// The nodes of servers and clients, and the arrows of links.
pub(crate) fn put_graph<K: Sink>(
    out: &mut Pending,
    sink: &mut K,
    servers: u32,
    clients: &[Client],
    loads: &LoadCounts,
    links: &[(u32, u32)],
)
    requires { servers ≤ 64 }
    ensures { Went (outlet (K.state sink.old) out.old) (outlet (K.state sink.new) out.new)
        (codes "digraph traffic {\n" ++ flat_map server_node (servers_to servers) ++ client_nodes 1 clients.now
        ++ flat_map (link_printed true (loads_by loads.now)) links.now ++ codes "}\n") }
{
    out.put(sink, b"digraph traffic {\n");
    put_servers(out, sink, servers);
    put_clients(out, sink, clients);
    put_links(out, sink, true, loads, links);
    out.put(sink, b"}\n")
}
