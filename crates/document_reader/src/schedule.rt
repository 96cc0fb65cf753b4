//! Reads the lines of the schedule: a turn for each line.
ghost use Rattle.std.specs.Prelude.{◌≡◌};
ghost use Rattle.document_reader.specs.Lines.{words};
ghost use Rattle.document_reader.specs.Answer.{StepsByRule};
ghost use Rattle.document_reader.specs.Rules.{command_turn, take_turn, version_turn};

use crate::answer::{need, want};
use crate::fault::{Fault, Ruled};
use crate::network::{are_servers, is_server};
use crate::state::State;
use crate::words::{one_name, one_number, two_numbers};
use net_model::Turn;

/// `command NAME`.
#[tactic(auto, unfolding(crate::specs::Rules::command_turn))]
pub fn command_turn(state: &mut State, line: u32, rest: &[u8]) -> Ruled<()>
    ensures { StepsByRule result state.new (command_turn state.old line (words rest.now)) }
{
    let name = want(one_name(rest), Fault::Words)?;
    let client = want(state.clients.find(name), Fault::Name)?;
    state
        .schedule
        .push((line, Turn::Command(client as u32 + 1)))?;
    Ok(())
}

/// `take A B`.
#[tactic(auto, unfolding(crate::specs::Rules::take_turn))]
pub fn take_turn(state: &mut State, line: u32, rest: &[u8]) -> Ruled<()>
    ensures { StepsByRule result state.new (take_turn state.old line (words rest.now)) }
{
    let (a, b) = want(two_numbers(rest), Fault::Words)?;
    need(are_servers(state.trees.servers(), a, b), Fault::Range)?;
    let (server, from) = (a as u32, b as u32);
    need(state.trees.are_neighbours(server, from), Fault::Range)?;
    state.schedule.push((line, Turn::Receive { server, from }))?;
    Ok(())
}

/// `version A`.
#[tactic(auto, unfolding(crate::specs::Rules::version_turn))]
pub fn version_turn(state: &mut State, line: u32, rest: &[u8]) -> Ruled<()>
    ensures { StepsByRule result state.new (version_turn state.old line (words rest.now)) }
{
    let a = want(one_number(rest), Fault::Words)?;
    need(is_server(state.trees.servers(), a), Fault::Range)?;
    state.schedule.push((line, Turn::TableUpdate(a as u32)))?;
    Ok(())
}
