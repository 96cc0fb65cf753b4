//! Reads the lines of servers, trees and clients.
ghost use Rattle.std.specs.Prelude.{◌≡◌, false};
ghost use Rattle.document_reader.specs.Lines.{words};
ghost use Rattle.document_reader.specs.Answer.{StepsByRule};
ghost use Rattle.document_reader.specs.Drawn.{are_servers, is_apart, is_server};
ghost use Rattle.document_reader.specs.Rules.{client_rule, edge_rule, header_rule, phase_rule, semantics_named, semantics_rule, servers_rule};

use crate::answer::{need, want};
use crate::fault::{Fault, LineFault, Ruled};
use crate::state::{Place, State};
use crate::trees::Trees;
use crate::version::version_named;
use crate::words::{name_and_number, one, one_number, two_numbers};
use base_tree::EdgeFault;
use document_script::is_same;
use filter_text::Semantics;
use std::alloc::Global;

/// Whether the number is a server's.
pub fn is_server(servers: u32, a: u64) -> bool
    ensures { result ≡ is_server servers a }
{
    0 < a && a <= servers as u64
}

/// Whether both numbers are servers'.
pub fn are_servers(servers: u32, a: u64, b: u64) -> bool
    ensures { result ≡ are_servers servers (a, b) }
{
    is_server(servers, a) && is_server(servers, b)
}

fn semantics_named(word: &[u8]) -> Option<Semantics>
    ensures { result ≡ semantics_named word.now }
{
    if is_same(word, b"subscription") {
        Some(Semantics::Subscription)
    } else if is_same(word, b"advertisement") {
        Some(Semantics::Advertisement)
    } else {
        None
    }
}

/// `siena 1`, `siena 2`.
#[tactic(auto, unfolding(crate::specs::Rules::header_rule))]
pub fn header(state: &mut State, word: &[u8], rest: &[u8]) -> Ruled<()>
    ensures { StepsByRule result state.new (header_rule state.old word.now (words rest.now)) }
{
    need(is_same(word, b"siena"), Fault::Header)?;
    let word = want(one(rest), Fault::Header)?;
    let version = want(version_named(word), Fault::Header)?;
    state.place = Place::Semantics;
    state.version = version;
    Ok(())
}

/// `semantics subscription`, `semantics advertisement`.
#[tactic(auto, unfolding(crate::specs::Rules::semantics_rule))]
pub fn semantics(state: &mut State, word: &[u8], rest: &[u8]) -> Ruled<()>
    ensures { StepsByRule result state.new (semantics_rule state.old word.now (words rest.now)) }
{
    need(is_same(word, b"semantics"), Fault::Order)?;
    let word = want(one(rest), Fault::Words)?;
    let semantics = want(semantics_named(word), Fault::Words)?;
    state.place = Place::Servers;
    state.semantics = semantics;
    Ok(())
}

/// `servers N`.
#[tactic(auto, unfolding(crate::specs::Rules::servers_rule))]
pub fn servers(alloc: Global, state: &mut State, word: &[u8], rest: &[u8]) -> Ruled<()>
    ensures { StepsByRule result state.new (servers_rule state.old word.now (words rest.now)) }
{
    need(is_same(word, b"servers"), Fault::Order)?;
    let n = want(one_number(rest), Fault::Words)?;
    need(is_server(64, n), Fault::Range)?;
    state.place = Place::Edges;
    state.trees = Trees::new(alloc, n as u32);
    Ok(())
}

/// `edge A B`.
#[tactic(auto, unfolding(crate::specs::Rules::edge_rule, crate::specs::Drawn::edge_fault))]
pub fn edge(state: &mut State, rest: &[u8]) -> Ruled<()>
    ensures { StepsByRule result state.new (edge_rule state.old (words rest.now)) }
{
    let (a, b) = want(two_numbers(rest), Fault::Words)?;
    need(are_servers(state.trees.servers(), a, b), Fault::Range)?;
    match state.trees.join(a as u32, b as u32)? {
        Some(EdgeFault::Twice) => Err(LineFault::Kind(Fault::Twice)),
        Some(EdgeFault::Loop) => Err(LineFault::Kind(Fault::Loop)),
        None => Ok(()),
    }
}

/// `phase K`, where the edges before join all servers.
#[tactic(auto, unfolding(crate::specs::Rules::phase_rule))]
pub fn phase(alloc: Global, state: &mut State, rest: &[u8]) -> Ruled<()>
    requires { is_apart state.old.trees ≡ false }
    ensures { StepsByRule result state.new (phase_rule state.old (words rest.now)) }
{
    let k = want(one_number(rest), Fault::Words)?;
    need(k > state.trees.phase() as u64 && k <= 4095, Fault::Range)?;
    state.trees.begin(alloc, k as u32)?;
    Ok(())
}

/// `client NAME SERVER`.
#[tactic(auto, unfolding(crate::specs::Rules::client_rule))]
pub fn client(alloc: Global, state: &mut State, rest: &[u8]) -> Ruled<()>
    ensures { StepsByRule result state.new (client_rule state.old (words rest.now)) }
{
    let (name, server) = want(name_and_number(rest), Fault::Words)?;
    need(is_server(state.trees.servers(), server), Fault::Range)?;
    need(state.clients.find(name).is_none(), Fault::Name)?;
    need(state.clients.count() < 1024, Fault::Count)?;
    state.clients.add(alloc, name, server as u32)?;
    state.place = Place::Clients;
    Ok(())
}
