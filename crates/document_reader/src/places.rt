//! Chooses the rule by which a line is read, by the section in which it stands.
ghost use Rattle.std.specs.Prelude.{◌≡◌, ◌≤◌, ◌&&◌, ℕ, Err, List, None, OnOk, Some, codes, false, length, nat_eq};
ghost use Rattle.std.specs.Str.{bytes_eq};
ghost use Rattle.document_reader.specs.Rules.{version_number};
ghost use Rattle.document_script.specs.Tokens.{first_word, tokens};
ghost use Rattle.document_reader.specs.Lines.{words};
ghost use Rattle.document_reader.specs.Answer.{StepsByRule};
ghost use Rattle.document_reader.specs.declared.fault.Fault.{Fault as Kind};
ghost use Rattle.document_reader.specs.Drawn.{is_apart};
ghost use Rattle.document_reader.specs.Places.{at_clients, at_edges, at_place, at_schedule, at_section, end_rule, has_servers, is_script, is_skipped, line_rule, next_section};
ghost use Rattle.document_script.specs.Form.{verb_named};

use crate::answer::need;
use crate::cut::{is_blank, next_word};
use crate::fault::{Fault, LineFault, Ruled};
use crate::network::{client, edge, header, phase, semantics, servers};
use crate::schedule::{command_turn, take_turn, version_turn};
use crate::scripts::{barrier, command, schedule, script};
use crate::state::{Place, State};
use crate::version::Version;
use document_script::{Line, is_same, verb_named};
use std::alloc::Global;

// A script or the schedule, where this word begins it.
fn next_section(state: &mut State, token: &[u8], word: &[u8], rest: &[u8]) -> Ruled<()>
    ensures { StepsByRule result state.new (next_section state.old token.now word.now (words rest.now) (Err Kind.Order)) }
{
    if is_same(token, b"script") {
        script(state, word, rest)
    } else if is_same(token, b"schedule") {
        schedule(state, word, rest)
    } else {
        Err(LineFault::Kind(Fault::Order))
    }
}

// Behind a client.
#[tactic(auto, unfolding(crate::specs::Places::at_clients))]
fn at_clients(alloc: Global, state: &mut State, word: &[u8], rest: &[u8]) -> Ruled<()>
    ensures { StepsByRule result state.new (at_clients state.old word.now (words rest.now)) }
{
    if is_same(word, b"client") {
        client(alloc, state, rest)
    } else {
        next_section(state, word, word, rest)
    }
}

// Whether the word begins the next tree, in a document that has trees by phase.
fn begins_phase(version: Version, word: &[u8]) -> bool
    ensures { result ≡ (bytes_eq word.now (codes "phase") && nat_eq (version_number version) 2) }
{
    is_same(word, b"phase") && version.number() == 2
}

// Behind `servers`, an edge or a phase.
#[tactic(auto, unfolding(crate::specs::Places::at_edges))]
fn at_edges(alloc: Global, state: &mut State, word: &[u8], rest: &[u8]) -> Ruled<()>
    ensures { StepsByRule result state.new (at_edges state.old word.now (words rest.now)) }
{
    if is_same(word, b"edge") {
        return edge(state, rest);
    }
    need(!state.trees.is_apart(), Fault::Apart)?;
    if begins_phase(state.version, word) {
        return phase(alloc, state, rest);
    }
    at_clients(alloc, state, word, rest)
}

// In a script, by the words of a line whose first token is this word and no command's first word.
#[tactic(auto, unfolding(crate::specs::Places::at_token))]
fn at_section(state: &mut State, token: &[u8], line: &[u8]) -> Ruled<()>
    requires { verb_named token.now ≡ None }
    ensures { StepsByRule result state.new (at_section state.old line.now (Some token.now) (words line.now)) }
{
    let Some((word, rest)) = next_word(line) else {
        return Ok(());
    };
    if is_same(token, b"barrier") {
        return barrier(state, word, rest);
    }
    next_section(state, token, word, rest)
}

// In a script, a line that isn't skipped.
fn in_script(alloc: Global, state: &mut State, line: &[u8]) -> Ruled<()>
    requires short { length line.now ≤ 4194304 }
    requires kept { is_skipped (words line.now) ≡ false }
    ensures { StepsByRule result state.new (at_section state.old line.now (first_word (tokens line.now)) (words line.now)) }
{
    let cut = Line::cut(alloc, line)?;
    match cut.first_word() {
        Some(token) => {
            if verb_named(token).is_some() {
                command(alloc, state, cut, line.len())
            } else {
                at_section(state, token, line)
            }
        }
        None => Err(LineFault::Kind(Fault::Order)),
    }
}

// In the schedule.
#[tactic(auto, unfolding(crate::specs::Places::at_schedule))]
fn at_schedule(state: &mut State, number: u32, word: &[u8], rest: &[u8]) -> Ruled<()>
    ensures { StepsByRule result state.new (at_schedule state.old number word.now (words rest.now)) }
{
    if is_same(word, b"command") {
        command_turn(state, number, rest)
    } else if is_same(word, b"take") {
        take_turn(state, number, rest)
    } else if is_same(word, b"version") {
        version_turn(state, number, rest)
    } else {
        Err(LineFault::Kind(Fault::Order))
    }
}

fn is_script(place: Place) -> bool
    ensures { result ≡ is_script place }
{
    match place {
        Place::Scripts => true,
        Place::Header | Place::Semantics | Place::Servers => false,
        Place::Edges | Place::Clients | Place::Schedule => false,
    }
}

// Whether a line has no words or is a comment.
fn is_skipped(line: &[u8]) -> bool
    ensures { result ≡ is_skipped (words line.now) }
{
    for (i, b) in line.iter().enumerate() {
        if !is_blank(*b) {
            return *b == b'#';
        }
    }
    true
}

// Outside of scripts, a line by its words.
fn by_words(alloc: Global, state: &mut State, number: u32, word: &[u8], rest: &[u8]) -> Ruled<()>
    requires { is_script state.old.place ≡ false }
    ensures { (line : List ℕ) → StepsByRule result state.new (at_place state.old.place state.old number line word.now (words rest.now)) }
{
    match state.place {
        Place::Header => header(state, word, rest),
        Place::Semantics => semantics(state, word, rest),
        Place::Servers => servers(alloc, state, word, rest),
        Place::Edges => at_edges(alloc, state, word, rest),
        Place::Clients => at_clients(alloc, state, word, rest),
        Place::Scripts => Err(LineFault::Kind(Fault::Order)),
        Place::Schedule => at_schedule(state, number, word, rest),
    }
}

/// Takes a line with its number, or answers its first fault.
pub fn line(alloc: Global, state: &mut State, number: u32, line: &[u8]) -> Ruled<()>
    requires { length line.now ≤ 4194304 }
    ensures { StepsByRule result state.new (line_rule state.old number line.now) }
{
    if is_skipped(line) {
        return Ok(());
    }
    if is_script(state.place) {
        return in_script(alloc, state, line);
    }
    match next_word(line) {
        Some((word, rest)) => by_words(alloc, state, number, word, rest),
        None => Ok(()),
    }
}

fn has_servers(place: Place) -> bool
    ensures { result ≡ has_servers place }
{
    match place {
        Place::Header | Place::Semantics | Place::Servers => false,
        Place::Edges | Place::Clients | Place::Scripts | Place::Schedule => true,
    }
}

/// Takes the end, or answers its first fault.
#[tactic(auto, unfolding(crate::specs::Places::end_rule))]
pub fn end(state: &State) -> Ruled<()>
    ensures steps { StepsByRule result state.now (end_rule state.now) }
    ensures whole { OnOk result (is_apart state.now.trees ≡ false) }
{
    need(has_servers(state.place), Fault::Ended)?;
    need(!state.trees.is_apart(), Fault::Apart)?;
    Ok(())
}
