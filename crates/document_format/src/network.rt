//! Writes the lines of trees and clients to a sink. No call takes memory.
ghost use Rattle.std.specs.List.{flat_map};
ghost use Rattle.base_devices.specs.Pending.{outlet, Went};
ghost use Rattle.base_tree.specs.Tree.{servers_of};
ghost use Rattle.document_format.specs.DocumentText.{client_line, ended, phase_lines, trees_lines};
ghost use Rattle.document_format.specs.Writing.{edge_text, server_text};

use crate::line::{put_named, put_numbered, put_pair};
use base_devices::{Pending, Sink};
use base_tree::Tree;
use net_model::Client;

// The edge to a neighbour, where it is greater.
fn put_edge<K: Sink>(out: &mut Pending, sink: &mut K, a: u32, b: u32)
    ensures { Went (outlet (K.state sink.old) out.old) (outlet (K.state sink.new) out.new)
        (edge_text a b) }
{
    if a < b {
        put_pair(out, sink, b"edge ", a, b)
    }
}

// The edges of a server to its greater neighbours.
fn put_edges<K: Sink>(out: &mut Pending, sink: &mut K, a: u32, neighbours: &[u32])
    ensures { Went (outlet (K.state sink.old) out.old) (outlet (K.state sink.new) out.new)
        (flat_map (edge_text a) neighbours.now) }
{
    for b in neighbours {
        put_edge(out, sink, a, *b);
    }
}

// A tree by its edges.
fn put_tree<K: Sink>(out: &mut Pending, sink: &mut K, tree: &Tree)
    ensures { Went (outlet (K.state sink.old) out.old) (outlet (K.state sink.new) out.new)
        (flat_map (server_text tree.now) (servers_of tree.now)) }
{
    for a in 1..tree.servers() + 1 {
        put_edges(out, sink, a, tree.neighbours(a));
    }
}

// A later tree, with its first phase.
fn put_phase<K: Sink>(out: &mut Pending, sink: &mut K, phase: u32, tree: &Tree)
    ensures { Went (outlet (K.state sink.old) out.old) (outlet (K.state sink.new) out.new)
        (flat_map ended (phase_lines (phase, tree.now))) }
{
    put_numbered(out, sink, b"phase ", phase);
    put_tree(out, sink, tree)
}

// Later trees.
fn put_phases<K: Sink>(out: &mut Pending, sink: &mut K, trees: &[(u32, Tree)])
    ensures { Went (outlet (K.state sink.old) out.old) (outlet (K.state sink.new) out.new)
        (flat_map (λ tree. flat_map ended (phase_lines tree)) trees.now) }
{
    for tree in trees {
        put_phase(out, sink, tree.0, &tree.1);
    }
}

/// The trees, in the order of their phases.
pub(crate) fn put_trees<K: Sink>(out: &mut Pending, sink: &mut K, trees: &[(u32, Tree)])
    ensures { Went (outlet (K.state sink.old) out.old) (outlet (K.state sink.new) out.new)
        (flat_map ended (trees_lines trees.now)) }
{
    match trees {
        [first, later @ ..] => {
            put_tree(out, sink, &first.1);
            put_phases(out, sink, later)
        }
        [] => {}
    }
}

/// The clients.
pub(crate) fn put_clients<K: Sink>(out: &mut Pending, sink: &mut K, clients: &[Client])
    ensures { Went (outlet (K.state sink.old) out.old) (outlet (K.state sink.new) out.new)
        (flat_map (λ client. ended (client_line client)) clients.now) }
{
    for client in clients {
        put_named(out, sink, b"client ", client.name.bytes(), client.home);
    }
}
