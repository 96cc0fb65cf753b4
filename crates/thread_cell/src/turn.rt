//! Makes one turn of a cell: a command, a reception or a table update.
ghost use Rattle.std.specs.Prelude.{◌≡◌, ◌↔◌, ◌<◌, ◌^◌, ◌++◌, [], ℕ, length, IfOk, OnOk, OnErr, IsErrOf, IsTrue, IfSome};
ghost use Rattle.base.specs.Sets.{Has};
ghost use Rattle.law_machine.specs.Machine.{Does};
ghost use Rattle.law_routing.specs.Step.{NextCommand, TableUpdate};
ghost use Rattle.net_model.specs.declared.turn.Act.TheVariants as acts;
ghost use Rattle.server_spec.specs.Session.{SessionParts};
ghost use Rattle.server_core.specs.Clients.{client_numbers};
ghost use Rattle.server_core.specs.Step.{MakesStep, last_stamp};
ghost use Rattle.server_core.specs.Routed.{RoutesNext};
ghost use Rattle.thread_versions.specs.Ends.{pending, installed, IsSamePublisher};
ghost use Rattle.thread_cell.specs.Kept.{IsSomeServer};
ghost use Rattle.thread_cell.specs.Cell.{IsServerInHand, IsInstalledBy};
ghost use Rattle.thread_cell.specs.Turns.{HasCommand, IsCellTurn, IsStill, IsWornAt};
ghost use Rattle.thread_cell.specs.Asked.{Answers};
ghost use Rattle.thread_cell.specs.Ahead.{IsJudged, IsReceptionBy};

use crate::choice::{Matched, choose_of};
use crate::held::ServerInHand;
use crate::reception::{look_at, next_at, receive_at};
use crate::routing::{receive_heard, take_command};
use crate::step::{enter, make_room};
use crate::table_update::{hand_over, mend};
use crate::turned::Turned;
use base::NoMemory;
use match_routes::Route;
use net_journal::Journal;
use net_model::Act;
use server_core::{Core, LAST_STAMP, Step, StepFault};
use std::alloc::Global;
use std::sync::Wait;

/// Executes the next command of a client that lives here and has one left; a publish that is accepted goes by the route that
/// is known, if one is. After a fault all is as before.
pub(crate) fn turn_command(
    alloc: Global,
    held: &mut ServerInHand<'_>,
    journal: &mut Journal,
    server: u32,
    client: u32,
    known: Option<&Route>,
) -> Result<(), StepFault>
    requires server { held.old.core.server ≡ server }
    requires held { IsServerInHand held.old }
    requires stands { IsSomeServer held.old.core }
    requires lives { Has client (client_numbers held.old.core.clients) }
    requires left { (s : SessionParts) → Has s held.old.core.clients → s.client ≡ client → s.taken < length s.script }
    requires known { IfSome known (λ r. RoutesNext held.old.core client r.now) }
    ensures made { (phase : ℕ) → HasCommand held.old.core client phase
        → OnOk result (IsCellTurn phase (Does (NextCommand client)) (acts.Command client) held.old held.new journal.old.entries journal.new.entries) }
    ensures still { OnErr result (IsStill held.old held.new journal.old.entries journal.new.entries) }
    ensures kept { journal.new.kept ≡ journal.old.kept }
    ensures worn { (s : ℕ) → IsErrOf result (StepFault.StampsExhausted s) → (held.old.core.clock ≡ last_stamp) × (s ≡ last_stamp) }
    ensures held { IsServerInHand held.new }
{
    let outs = make_room(alloc, &mut held.links, journal)?;
    let step = take_command(alloc, &mut held.core, &held.publisher, client, known)?;
    enter(
        &mut held.links,
        journal,
        server,
        Act::Command(client),
        step,
        outs,
    );
    Ok(())
}

/// Receives the next message from the neighbour at a place, where there is one; a publication goes by the route that was matched
/// ahead for it, if that is the route of what is installed. After a fault all is as before.
pub(crate) fn turn_receive<R: Wait>(
    rt: &R,
    alloc: Global,
    held: &mut ServerInHand<'_>,
    journal: &mut Journal,
    server: u32,
    place: usize,
    matched: Option<Matched<'_>>,
) -> Result<Turned, StepFault>
    requires server { held.old.core.server ≡ server }
    requires place { place < length held.old.links.items }
    requires held { IsServerInHand held.old }
    requires stands { IsSomeServer held.old.core }
    requires judged { IfSome matched (IsJudged held.old.publisher) }
    ensures taken { (phase : ℕ) → IfOk result (IsReceptionBy phase place matched.entry held.old held.new journal.old.entries journal.new.entries) }
    ensures still { OnErr result (IsStill held.old held.new journal.old.entries journal.new.entries) }
    ensures kept { journal.new.kept ≡ journal.old.kept }
    ensures worn { (s : ℕ) → IsErrOf result (StepFault.StampsExhausted s) → IsWornAt place held.old.core.clock s held.new.links.items }
    ensures held { IsServerInHand held.new }
{
    if !look_at(rt, &mut held.links, place) {
        return Ok(Turned::Idle);
    }
    let outs = make_room(alloc, &mut held.links, journal)?;
    let from = held.links[place].neighbour;
    let next = next_at(&held.links, place);
    let load = next.load();
    let choice = choose_of(&held.core, matched, load);
    let step = receive_heard(
        alloc,
        &mut held.core,
        &held.publisher,
        from,
        next.stamp(),
        load,
        choice.route(),
    )?;
    receive_at(rt, &mut held.links, place);
    enter(
        &mut held.links,
        journal,
        server,
        Act::Receive(from),
        step,
        outs,
    );
    Ok(choice.turned())
}

/// A step that sends nothing.
fn silent<'a>(alloc: Global, stamp: u64) -> Step<'a>
    ensures { (result.stamp ≡ stamp) × (result.sent.items ≡ []) }
{
    Step {
        stamp,
        sent: Vec::new(alloc),
    }
}

/// Whether nothing is pending.
fn is_calm(core: &Core<'_>) -> bool
    ensures { IsTrue result ↔ (core.now.pending ≡ []) }
{
    core.pending().is_empty()
}

/// Installs what is pending, where something is. After a fault all is as before, but that some of what is pending may have
/// been handed to the publisher, which has installed none of it.
pub(crate) fn turn_update<R: Wait>(
    rt: &R,
    alloc: Global,
    held: &mut ServerInHand<'_>,
    journal: &mut Journal,
    server: u32,
) -> Result<Turned, StepFault>
    requires server { held.old.core.server ≡ server }
    requires held { IsServerInHand held.old }
    requires stands { IsSomeServer held.old.core }
    ensures answers { (phase : ℕ) → IfOk result (Answers phase Act.TableUpdate held.old held.new journal.old.entries journal.new.entries) }
    ensures still { OnErr result (IsStill held.old held.new journal.old.entries journal.new.entries) }
    ensures kept { journal.new.kept ≡ journal.old.kept }
    ensures worn { (s : ℕ) → IsErrOf result (StepFault.StampsExhausted s) → (held.old.core.clock ≡ last_stamp) × (s ≡ last_stamp) }
    ensures held { IsServerInHand held.new }
{
    if is_calm(&held.core) {
        return Ok(Turned::Idle);
    }
    if held.core.clock() == LAST_STAMP {
        return Err(StepFault::StampsExhausted(LAST_STAMP));
    }
    let outs = make_room(alloc, &mut held.links, journal)?;
    let stamp = publish(rt, alloc, held)?;
    let step = silent(alloc, stamp);
    enter(
        &mut held.links,
        journal,
        server,
        Act::TableUpdate,
        step,
        outs,
    );
    Ok(Turned::Made)
}

/// Hands what is pending to the publisher, which installs it, and has the core install it.
fn publish<R: Wait>(rt: &R, alloc: Global, held: &mut ServerInHand<'_>) -> Result<u64, NoMemory>
    requires handed { pending held.old.publisher ≡ installed held.old.publisher ++ held.old.handed.items }
    requires shown { IsInstalledBy held.old.publisher held.old.core }
    requires stands { IsSomeServer held.old.core }
    requires some { (held.old.core.pending ≡ []) → ⊥ }
    requires low { held.old.core.clock < last_stamp }
    ensures links { held.new.links ≡ held.old.links }
    ensures publisher { IsSamePublisher held.old.publisher held.new.publisher }
    ensures step { IfOk result (λ stamp. MakesStep (Does TableUpdate) 0 held.old.core held.new.core stamp []) }
    ensures low { IfOk result (λ stamp. stamp < 2 ^ 62) }
    ensures handed { pending held.new.publisher ≡ installed held.new.publisher ++ held.new.handed.items }
    ensures shown { IsInstalledBy held.new.publisher held.new.core }
    ensures err { OnErr result ((held.new.core ≡ held.old.core) × (installed held.new.publisher ≡ installed held.old.publisher)) }
{
    held.core.lemma_sound();
    mend(alloc, &mut held.publisher, &mut held.handed, &held.core)?;
    hand_over(&mut held.publisher, &mut held.handed, held.core.pending())?;
    held.publisher.publish(rt)?;
    held.handed.clear();
    match held.core.publish() {
        Ok(stamp) => Ok(stamp),
        Err(_) => unreachable!(),
    }
}
