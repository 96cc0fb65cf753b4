//! Writes the canonical text of a net to a sink. No call takes memory.
ghost use Rattle.std.specs.Prelude.{◌≡◌};
ghost use Rattle.std.specs.List.{flat_map};
ghost use Rattle.base_devices.specs.Pending.{outlet, Went};
ghost use Rattle.net_model.specs.Nets.{first_tree};
ghost use Rattle.document_format.specs.DocumentText.{document_text, ended, first_lines, schedule_lines, script_lines, semantics_word, turn_line};

use crate::line::{put_line, put_numbered, put_pair};
use crate::network::{put_clients, put_trees};
use crate::script::put_script;
use base_devices::{Pending, Sink};
use base_tree::Tree;
use net_model::{Client, Net, Semantics, Turn, client_name};

// The word of a semantics.
fn semantics_word(semantics: Semantics) -> &'static [u8]
    ensures { result.now ≡ semantics_word semantics }
{
    match semantics {
        Semantics::Subscription => b"subscription",
        Semantics::Advertisement => b"advertisement",
    }
}

// How many servers the first tree has.
fn servers_of(trees: &[(u32, Tree)]) -> u32
    ensures { result ≡ (first_tree trees.now).count }
{
    match trees {
        [first, ..] => first.1.servers(),
        [] => 0,
    }
}

// The first three lines.
fn put_first<K: Sink>(out: &mut Pending, sink: &mut K, net: &Net)
    ensures { Went (outlet (K.state sink.old) out.old) (outlet (K.state sink.new) out.new)
        (flat_map ended (first_lines net.now)) }
{
    put_numbered(out, sink, b"siena ", net.version);
    put_line(out, sink, b"semantics ", semantics_word(net.semantics));
    put_numbered(out, sink, b"servers ", servers_of(&net.trees))
}

// The scripts of clients.
fn put_scripts<K: Sink>(out: &mut Pending, sink: &mut K, clients: &[Client])
    ensures { Went (outlet (K.state sink.old) out.old) (outlet (K.state sink.new) out.new)
        (flat_map (λ client. flat_map ended (script_lines client)) clients.now) }
{
    for client in clients {
        put_script(out, sink, client);
    }
}

// A turn.
fn put_turn<K: Sink>(out: &mut Pending, sink: &mut K, clients: &[Client], turn: Turn)
    ensures { Went (outlet (K.state sink.old) out.old) (outlet (K.state sink.new) out.new)
        (ended (turn_line clients.now turn)) }
{
    match turn {
        Turn::Command(client) => put_line(out, sink, b"command ", client_name(clients, client)),
        Turn::Receive { server, from } => put_pair(out, sink, b"take ", server, from),
        Turn::TableUpdate(server) => put_numbered(out, sink, b"version ", server),
    }
}

// Turns.
fn put_turns<K: Sink>(out: &mut Pending, sink: &mut K, clients: &[Client], schedule: &[(u32, Turn)])
    ensures { Went (outlet (K.state sink.old) out.old) (outlet (K.state sink.new) out.new)
        (flat_map (λ turn. ended (turn_line clients.now turn.1)) schedule.now) }
{
    for turn in schedule {
        put_turn(out, sink, clients, turn.1);
    }
}

// The schedule, where it has turns.
fn put_schedule<K: Sink>(
    out: &mut Pending,
    sink: &mut K,
    clients: &[Client],
    schedule: &[(u32, Turn)],
)
    ensures { Went (outlet (K.state sink.old) out.old) (outlet (K.state sink.new) out.new)
        (flat_map ended (schedule_lines clients.now schedule.now)) }
{
    if schedule.is_empty() {
        return;
    }
    out.put(sink, b"schedule\n");
    put_turns(out, sink, clients, schedule)
}

/// Puts the canonical text of a net behind what waits, line by line. It takes no memory.
pub fn put_document<K: Sink>(out: &mut Pending, sink: &mut K, net: &Net)
    ensures { Went (outlet (K.state sink.old) out.old) (outlet (K.state sink.new) out.new)
        (document_text net.now) }
{
    put_first(out, sink, net);
    put_trees(out, sink, &net.trees);
    put_clients(out, sink, &net.clients);
    put_scripts(out, sink, &net.clients);
    put_schedule(out, sink, &net.clients, &net.schedule)
}
