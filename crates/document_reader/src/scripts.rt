//! Reads the lines of scripts: their commands and barriers.
ghost use Rattle.std.specs.Prelude.{◌≡◌, ◌≤◌, length};
ghost use Rattle.document_reader.specs.Lines.{words};
ghost use Rattle.document_reader.specs.Answer.{GivesByRule, StepsByRule};
ghost use Rattle.document_reader.specs.Commands.{Tells, command_of};
ghost use Rattle.document_reader.specs.Rules.{barrier_rule, command_rule, count_rule, is_alone, schedule_rule, script_rule, version_number};

use crate::answer::{need, want};
use crate::cut::next_word;
use crate::fault::{Fault, LineFault, Ruled};
use crate::state::{Place, State};
use crate::tally::Tally;
use crate::version::Version;
use crate::words::one_name;
use document_script::{Line, ScriptFault, is_same};
use filter_text::Command;
use std::alloc::Global;

/// `script NAME`.
#[tactic(auto, unfolding(crate::specs::Rules::script_rule))]
pub fn script(state: &mut State, word: &[u8], rest: &[u8]) -> Ruled<()>
    ensures { StepsByRule result state.new (script_rule state.old word.now (words rest.now)) }
{
    need(is_same(word, b"script"), Fault::Words)?;
    let name = want(one_name(rest), Fault::Words)?;
    let client = want(state.clients.find(name), Fault::Name)?;
    need(!state.clients.has_script(client), Fault::Name)?;
    state.clients.begin_script(client);
    state.place = Place::Scripts;
    state.client = client;
    Ok(())
}

// Whether a line is this word alone.
fn is_alone(word: &[u8], text: &[u8], rest: &[u8]) -> bool
    ensures { result ≡ is_alone text.now word.now (words rest.now) }
{
    is_same(word, text) && next_word(rest).is_none()
}

/// `barrier`.
#[tactic(auto, unfolding(crate::specs::Rules::barrier_rule))]
pub fn barrier(state: &mut State, word: &[u8], rest: &[u8]) -> Ruled<()>
    ensures { StepsByRule result state.new (barrier_rule state.old word.now (words rest.now)) }
{
    need(is_alone(word, b"barrier", rest), Fault::Words)?;
    need(state.clients.barriers(state.client) < 4095, Fault::Count)?;
    state.clients.add_barrier(state.client);
    Ok(())
}

/// `schedule`.
#[tactic(auto, unfolding(crate::specs::Rules::schedule_rule))]
pub fn schedule(state: &mut State, word: &[u8], rest: &[u8]) -> Ruled<()>
    ensures { StepsByRule result state.new (schedule_rule state.old word.now (words rest.now)) }
{
    need(is_alone(word, b"schedule", rest), Fault::Words)?;
    state.place = Place::Schedule;
    Ok(())
}

// A fault of a command line, as one of a document.
fn line_fault(fault: ScriptFault) -> LineFault<Fault>
    ensures { Tells result fault }
{
    match fault {
        ScriptFault::Syntax => LineFault::Kind(Fault::Syntax),
        ScriptFault::Value => LineFault::Kind(Fault::Value),
        ScriptFault::Operand => LineFault::Kind(Fault::Operand),
        ScriptFault::Count => LineFault::Kind(Fault::Count),
        ScriptFault::Repeat => LineFault::Kind(Fault::Repeat),
        ScriptFault::NoMemory => LineFault::NoMemory,
    }
}

// The command of a line whose first token is cut off.
fn command_of(alloc: Global, version: Version, line: Line<'_>) -> Ruled<Command>
    ensures { GivesByRule result (command_of (version_number version) line.entry) }
{
    match line.command(alloc, version.number()) {
        Ok(command) => Ok(command),
        Err(fault) => Err(line_fault(fault)),
    }
}

// Counts the command, on a line of so many bytes, if that is within the limits.
fn count(tally: &mut Tally, command: &Command, bytes: u64, servers: u64, clients: u64) -> Ruled<()>
    requires short { bytes ≤ 4194304 }
    requires servers { servers ≤ 64 }
    requires clients { clients ≤ 1024 }
    ensures { StepsByRule result tally.new (count_rule tally.old command.now bytes servers clients) }
{
    match command {
        Command::Subscribe(_) | Command::Advertise(_) => tally.add_control(false, bytes, servers),
        Command::Unsubscribe(_) | Command::Unadvertise(_) => {
            tally.add_control(true, bytes, servers)
        }
        Command::Publish(_) => tally.add_publish(bytes, clients),
    }
}

/// A command, by its line of so many bytes, whose first token is cut off.
#[tactic(auto, unfolding(crate::specs::Rules::command_rule))]
pub fn command(alloc: Global, state: &mut State, line: Line<'_>, bytes: usize) -> Ruled<()>
    requires bytes { bytes ≡ length line }
    requires short { bytes ≤ 4194304 }
    ensures { StepsByRule result state.new (command_rule state.old line.entry) }
{
    let command = command_of(alloc, state.version, line)?;
    let servers = state.trees.servers() as u64;
    let clients = state.clients.count() as u64;
    count(&mut state.tally, &command, bytes as u64, servers, clients)?;
    state.clients.add_command(state.client, command)?;
    Ok(())
}
