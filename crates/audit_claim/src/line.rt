//! Reads one line of a trace: an entry with its turn, or a message.
ghost use Rattle.std.specs.Prelude.{◌≡◌, ◌≤◌, ◌<◌, ◌&&◌, IfSome, length, nat_eq, nat_le};
ghost use Rattle.std.specs.List.{list_any, position};
ghost use Rattle.base_tree.specs.Tree.{links_of};
ghost use Rattle.net_model.specs.Sound.{IsSound};
ghost use Rattle.audit_claim.specs.Trace.{act_turn, are_joined, begins_trace, command_turn, entry_turn, is_server, is_trace_head, lives_as, take_turn};
ghost use Rattle.audit_claim.specs.Trace.{trace_line};

use crate::number::{decimal_number, is_decimal};
use crate::output::at_space;
use base_tree::Tree;
use document_reader::next_word;
use net_model::{Client, Net, Turn};

/// What a line of a trace shows.
#[derive(Clone, Copy, Debug, PartialEq, Eq)]
pub enum TraceLine {
    /// The turn of an entry.
    Entry(Turn),
    /// A message of the entry before.
    Message,
}

// Whether it is a server of the net.
fn is_server(net: &Net, server: u64) -> bool
    ensures { result ≡ is_server net.now server }
{
    match net.trees.first() {
        Some((_, tree)) => 1 <= server && server <= u64::from(tree.servers()),
        None => false,
    }
}

// Whether the number is in the list.
fn is_among(list: &[u32], number: u32) -> bool
    ensures { result ≡ list_any (λ near. nat_eq near number) list.now }
{
    for near in list {
        if *near == number {
            return true;
        }
    }
    false
}

// Whether two servers are neighbours in a tree.
fn joins(tree: &Tree, a: u32, b: u32) -> bool
    requires { 1 ≤ a }
    ensures { result ≡ (nat_le a tree.now.count && list_any (λ near. nat_eq near b) (links_of tree.now a)) }
{
    a <= tree.servers() && is_among(tree.neighbours(a), b)
}

// Whether they are so in some tree of the net.
fn are_joined(net: &Net, a: u32, b: u32) -> bool
    requires { 1 ≤ a }
    ensures { result ≡ are_joined net.now a b }
{
    for (_, tree) in &net.trees {
        if joins(tree, a, b) {
            return true;
        }
    }
    false
}

// Whether a client of this name lives at this server.
fn lives_as(client: &Client, server: u32, name: &[u8]) -> bool
    ensures { result ≡ lives_as server name.now client.now }
{
    client.home == server && client.name.bytes() == name
}

// The place of the client of this name that lives at this server, from 0.
#[tactic(auto, using(crate::proofs::Places::place_within))]
fn place_of(clients: &[Client], server: u32, name: &[u8]) -> Option<usize>
    ensures value { result ≡ position (lives_as server name.now) clients.now }
    ensures within { IfSome result (λ place. place < length clients.now) }
{
    clients
        .iter()
        .position(|client| lives_as(client, server, name))
}

// The turn of `command NAME`, by the name.
#[tactic(auto, unfolding(crate::specs::Trace::command_turn))]
fn command_turn(net: &Net, server: u32, name: &[u8]) -> Option<Turn>
    requires { IsSound net.now }
    ensures { result ≡ command_turn net.now server name.now }
{
    match place_of(&net.clients, server, name) {
        Some(place) => Some(Turn::Command(place as u32 + 1)),
        None => None,
    }
}

// The turn of `take NEIGHBOUR`, by the number.
#[tactic(auto, unfolding(crate::specs::Trace::take_turn))]
fn take_turn(net: &Net, server: u32, word: &[u8]) -> Option<Turn>
    requires sound { IsSound net.now }
    requires there { 1 ≤ server }
    ensures { result ≡ take_turn net.now server word.now }
{
    let Some(from) = decimal_number(word) else {
        return None;
    };
    if !is_server(net, from) {
        return None;
    }
    let from = from as u32;
    if are_joined(net, server, from) {
        Some(Turn::Receive { server, from })
    } else {
        None
    }
}

// The turn of what a server did.
#[tactic(auto, unfolding(crate::specs::Trace::act_turn))]
fn act_turn(net: &Net, server: u32, text: &[u8]) -> Option<Turn>
    requires sound { IsSound net.now }
    requires there { 1 ≤ server }
    ensures { result ≡ act_turn net.now server text.now }
{
    if text == b"version".as_slice() {
        return Some(Turn::TableUpdate(server));
    }
    let Some((word, rest)) = at_space(text) else {
        return None;
    };
    if word == b"command".as_slice() {
        command_turn(net, server, rest)
    } else if word == b"take".as_slice() {
        take_turn(net, server, rest)
    } else {
        None
    }
}

// The turn of an entry, by what stands behind `entry`.
#[tactic(auto, unfolding(crate::specs::Trace::entry_turn))]
fn entry_turn(net: &Net, text: &[u8]) -> Option<Turn>
    requires { IsSound net.now }
    ensures { result ≡ entry_turn net.now text.now }
{
    let Some((stamp, rest)) = at_space(text) else {
        return None;
    };
    let Some(stamp) = decimal_number(stamp) else {
        return None;
    };
    if stamp >= 1 << 62 {
        return None;
    }
    let Some((server, act)) = at_space(rest) else {
        return None;
    };
    let Some(server) = decimal_number(server) else {
        return None;
    };
    if !is_server(net, server) {
        return None;
    }
    act_turn(net, server as u32, act)
}

/// What a line of a trace shows; `None` where it is not of its form.
#[tactic(auto, unfolding(crate::specs::Trace::trace_line))]
pub fn trace_line(net: &Net, line: &[u8]) -> Option<TraceLine>
    requires { IsSound net.now }
    ensures { result ≡ trace_line net.now line.now }
{
    let Some((word, rest)) = at_space(line) else {
        return None;
    };
    if word == b"out".as_slice() {
        Some(TraceLine::Message)
    } else if word == b"entry".as_slice() {
        match entry_turn(net, rest) {
            Some(turn) => Some(TraceLine::Entry(turn)),
            None => None,
        }
    } else {
        None
    }
}

/// Whether a trace begins at the line: its first word is `trace`.
#[tactic(auto, unfolding(crate::specs::Trace::begins_trace))]
pub fn begins_trace(line: &[u8]) -> bool
    ensures { result ≡ begins_trace line.now }
{
    match next_word(line) {
        Some((word, _)) => word == b"trace".as_slice(),
        None => false,
    }
}

/// Whether the line is `trace` and a number.
#[tactic(auto, unfolding(crate::specs::Trace::is_trace_head))]
pub fn is_trace_head(line: &[u8]) -> bool
    ensures { result ≡ is_trace_head line.now }
{
    match at_space(line) {
        Some((word, count)) => word == b"trace".as_slice() && is_decimal(count),
        None => false,
    }
}
