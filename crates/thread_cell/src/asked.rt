//! Answers what is asked of a server in hand.
ghost use Rattle.std.specs.Prelude.{◌≡◌, ◌↔◌, ℕ, IfOk, IfSome, OnErr, IsErrOf, IsTrue};
ghost use Rattle.base.specs.Sets.{Has};
ghost use Rattle.server_core.specs.Clients.{client_numbers};
ghost use Rattle.thread_cell.specs.Kept.{IsSomeServer};
ghost use Rattle.thread_cell.specs.Cell.{IsServerInHand};
ghost use Rattle.thread_cell.specs.Turns.{HasCommand, IsStill};
ghost use Rattle.thread_cell.specs.Asked.{IsWorn, SuitsHeld};
ghost use Rattle.thread_cell.specs.Ahead.{AnswersBy, IsJudged};

use crate::choice::{Matched, choose_next};
use crate::held::ServerInHand;
use crate::link::place_in;
use crate::turn::{turn_command, turn_receive, turn_update};
use crate::turned::Turned;
use net_journal::Journal;
use net_model::Act;
use server_core::{Core, StepFault};
use std::alloc::Global;
use std::sync::Wait;

/// Whether the next command of a client that lives here is of this phase.
pub(crate) fn is_of_phase(core: &Core<'_>, phase: u32, client: u32) -> bool
    requires lives { Has client (client_numbers core.now.clients) }
    requires stands { IsSomeServer core.now }
    ensures { IsTrue result ↔ HasCommand core.now client phase }
{
    match core.session(client).next() {
        Some((own, _)) => own == phase,
        None => false,
    }
}

/// One step that is asked for, whose publication may have been matched ahead. After a fault all is as before, but that some of
/// what is pending may have been handed to the publisher, which has installed none of it.
pub(crate) fn turn_held<R: Wait>(
    rt: &R,
    alloc: Global,
    held: &mut ServerInHand<'_>,
    journal: &mut Journal,
    server: u32,
    phase: u32,
    what: Act,
    matched: Option<Matched<'_>>,
) -> Result<Turned, StepFault>
    requires server { held.old.core.server ≡ server }
    requires held { IsServerInHand held.old }
    requires stands { IsSomeServer held.old.core }
    requires suits { SuitsHeld what held.old }
    requires judged { IfSome matched (IsJudged held.old.publisher) }
    ensures answers { IfOk result (AnswersBy phase what matched.entry held.old held.new journal.old.entries journal.new.entries) }
    ensures still { OnErr result (IsStill held.old held.new journal.old.entries journal.new.entries) }
    ensures kept { journal.new.kept ≡ journal.old.kept }
    ensures worn { (s : ℕ) → IsErrOf result (StepFault.StampsExhausted s) → IsWorn what s held.old held.new }
    ensures held { IsServerInHand held.new }
{
    match what {
        Act::Command(client) => {
            if !is_of_phase(&held.core, phase, client) {
                return Ok(Turned::Idle);
            }
            let choice = choose_next(held, matched, client);
            turn_command(alloc, held, journal, server, client, choice.route())?;
            Ok(choice.turned())
        }
        Act::Receive(from) => {
            let Some(place) = place_in(&held.links, from) else {
                unreachable!()
            };
            turn_receive(rt, alloc, held, journal, server, place, matched)
        }
        Act::TableUpdate => turn_update(rt, alloc, held, journal, server),
    }
}
