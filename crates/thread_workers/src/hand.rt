//! Makes the turns of a worker with the cell in hand.
ghost use Rattle.std.specs.Prelude.{◌≡◌, ◌≤◌, ◌<◌, ℕ, suc, length, IfOk, IfSome, IfNone, IsErrOf, IsTrue, IsFalse};
ghost use mathlib.Core.List.{IsPrefix};
ghost use Rattle.net_model.specs.Sound.{IsSound};
ghost use Rattle.thread_versions.specs.Ends.{IsAheadBy, IsSameViewer};
ghost use Rattle.thread_cell.specs.Asked.{Suits};
ghost use Rattle.thread_cell.specs.Cell.{IsPast};
ghost use Rattle.thread_workers.specs.WorkerHandles.{CanMatch, IsTried, IsOfWorker};
ghost use Rattle.thread_workers.specs.Journals.{HasCommands, IsWornBy};

use crate::made::Made;
use crate::tried::Tried;
use base_devices::WorkerRole;
use net_model::{Act, Net};
use server_core::StepFault;
use std::sync::Wait;
use thread_cell::{Cell, Turned};
use thread_versions::{Ahead, Viewer};

// So many turns at most are made before the cell is put back.
const TURNS: u32 = 64;

/// Whether a client lives at the cell's server and has a command of its phase, or of one below it, left.
fn is_waiting(cell: &Cell<'_>, client: u32) -> bool
    ensures lives { IsTrue result → Suits (Act.Command client) cell.now.root }
    ensures past { IsFalse result → Suits (Act.Command client) cell.now.root → IsPast (suc cell.now.root.phase) client cell.now.held.core.clients }
{
    if !cell.suits(Act::Command(client)) {
        return false;
    }
    cell.lemma_kept();
    match cell.core().session(client).next() {
        Some((own, _)) => own <= cell.phase(),
        None => false,
    }
}

/// The first client that waits, of the numbers from one to below another.
fn first_waiting(cell: &Cell<'_>, from: u32, to: u32) -> Option<u32>
    ensures lives { IfSome result (λ client. Suits (Act.Command client) cell.now.root) }
    ensures past { IfNone result ((client : ℕ) → from ≤ client → client < to → Suits (Act.Command client) cell.now.root
        → IsPast (suc cell.now.root.phase) client cell.now.held.core.clients) }
{
    for client in from..to {
        if is_waiting(cell, client) {
            return Some(client);
        }
    }
    None
}

/// How many clients a net has.
fn clients(net: &Net) -> u32
    requires { IsSound net.now }
    ensures count { result ≡ length net.now.clients }
    ensures few { result ≤ 1024 }
{
    net.clients.len() as u32
}

/// The next client in turn that waits, after this one, by the order of the document. Where none waits, all commands are executed.
fn next_in_turn(cell: &Cell<'_>, last: u32) -> Option<u32>
    ensures lives { IfSome result (λ client. Suits (Act.Command client) cell.now.root) }
    ensures done { IfNone result (HasCommands cell.now.root.phase cell.now.root cell.now.journal) }
{
    cell.lemma_kept();
    let end = clients(cell.core().tables().net()) + 1;
    match first_waiting(cell, last.wrapping_add(1), end) {
        Some(client) => Some(client),
        None => first_waiting(cell, 1, end),
    }
}

/// The number of the publication of a client's next command, where that is a publish that will be accepted.
fn next_publication(cell: &Cell<'_>, client: u32) -> Option<u32>
    requires { Suits (Act.Command client) cell.now.root }
    ensures { IfSome result (CanMatch cell.now.root) }
{
    cell.lemma_kept();
    cell.core().next_publication(client)
}

/// The neighbour at a place in the tree of the cell's phase.
fn neighbour_at(cell: &Cell<'_>, server: u32, place: usize) -> Option<u32>
    requires { cell.now.root.server ≡ server }
    ensures { IfSome result (λ from. Suits (Act.Receive from) cell.now.root) }
{
    cell.lemma_kept();
    let neighbours = cell
        .core()
        .tables()
        .net()
        .tree(cell.phase())
        .neighbours(server);
    if place >= neighbours.len() {
        return None;
    }
    Some(neighbours[place])
}

/// One turn.
fn make_turn<R: Wait>(rt: &R, cell: &mut Cell<'_>, what: Act) -> Result<Turned, StepFault>
    requires { Suits what cell.old.root }
    ensures root { cell.new.root ≡ cell.old.root }
    ensures grows { IsPrefix cell.old.journal cell.new.journal }
    ensures worn { (client s : ℕ) → what ≡ Act.Command client → IsErrOf result (StepFault.StampsExhausted s) → IsWornBy s cell.new.root cell.new.journal }
{
    cell.lemma_kept();
    cell.turn(rt, what)
}

/// One try of the worker for commands, who took one of this client last: the next command of the next client in turn, where a
/// publish is to be matched ahead.
fn try_command<R: Wait>(rt: &R, cell: &mut Cell<'_>, at: &mut u32) -> Result<Tried, StepFault>
    ensures root { cell.new.root ≡ cell.old.root }
    ensures grows { IsPrefix cell.old.journal cell.new.journal }
    ensures tried { IfOk result (λ tried. IsTried WorkerRole.Commands tried cell.new.root cell.new.journal) }
    ensures worn { (s : ℕ) → IsErrOf result (StepFault.StampsExhausted s) → IsWornBy s cell.new.root cell.new.journal }
{
    let Some(client) = next_in_turn(cell, *at) else {
        return Ok(Tried::Done);
    };
    *at = client;
    if let Some(number) = next_publication(cell, client) {
        return Ok(Tried::Ahead(Act::Command(client), number));
    }
    match make_turn(rt, cell, Act::Command(client)) {
        Ok(turned) => Ok(Tried::Turned(turned)),
        Err(fault) => Err(fault),
    }
}

/// A reception from a neighbour; a publication is to be matched ahead.
fn look_from<R: Wait>(rt: &R, cell: &mut Cell<'_>, from: u32) -> Result<Tried, StepFault>
    requires { Suits (Act.Receive from) cell.old.root }
    ensures root { cell.new.root ≡ cell.old.root }
    ensures grows { IsPrefix cell.old.journal cell.new.journal }
    ensures tried { IfOk result (λ tried. IsTried WorkerRole.Links tried cell.new.root cell.new.journal) }
{
    cell.lemma_kept();
    if let Some(number) = cell.look(rt, from) {
        return Ok(Tried::Ahead(Act::Receive(from), number));
    }
    let turned = make_turn(rt, cell, Act::Receive(from))?;
    Ok(Tried::Turned(turned))
}

/// One try of the worker for links: a reception from the neighbour at this place, or behind the last one a table update.
fn try_link<R: Wait>(
    rt: &R,
    cell: &mut Cell<'_>,
    server: u32,
    at: &mut u32,
) -> Result<Tried, StepFault>
    requires { cell.old.root.server ≡ server }
    ensures root { cell.new.root ≡ cell.old.root }
    ensures grows { IsPrefix cell.old.journal cell.new.journal }
    ensures tried { IfOk result (λ tried. IsTried WorkerRole.Links tried cell.new.root cell.new.journal) }
{
    match neighbour_at(cell, server, *at as usize) {
        Some(from) => {
            *at = at.wrapping_add(1);
            look_from(rt, cell, from)
        }
        None => {
            *at = 0;
            let turned = make_turn(rt, cell, Act::TableUpdate)?;
            Ok(Tried::Turned(turned))
        }
    }
}

/// Commands one after the other, so many at most, until a publication is to be matched ahead or none is left.
fn make_commands<R: Wait>(
    rt: &R,
    cell: &mut Cell<'_>,
    at: &mut u32,
    made: &mut Made,
) -> Result<Tried, StepFault>
    ensures root { cell.new.root ≡ cell.old.root }
    ensures grows { IsPrefix cell.old.journal cell.new.journal }
    ensures tried { IfOk result (λ tried. IsTried WorkerRole.Commands tried cell.new.root cell.new.journal) }
    ensures worn { (s : ℕ) → IsErrOf result (StepFault.StampsExhausted s) → IsWornBy s cell.new.root cell.new.journal }
{
    for _ in 0..TURNS {
        match try_command(rt, cell, at) {
            Ok(Tried::Turned(turned)) => made.count(turned),
            other => return other,
        }
    }
    Ok(Tried::Turned(Turned::Made))
}

/// Receptions from the neighbours in turn and table updates, so many at most, until a publication is to be matched ahead, or until from
/// each neighbour in turn nothing came and nothing was installed.
fn make_receptions<R: Wait>(
    rt: &R,
    cell: &mut Cell<'_>,
    server: u32,
    at: &mut u32,
    made: &mut Made,
) -> Result<Tried, StepFault>
    requires { cell.old.root.server ≡ server }
    ensures root { cell.new.root ≡ cell.old.root }
    ensures grows { IsPrefix cell.old.journal cell.new.journal }
    ensures tried { IfOk result (λ tried. IsTried WorkerRole.Links tried cell.new.root cell.new.journal) }
{
    let mut still = *at == 0;
    for _ in 0..TURNS {
        match try_link(rt, cell, server, at) {
            Ok(Tried::Turned(turned)) => {
                made.count(turned);
                still = still && turned == Turned::Idle;
                if *at == 0 {
                    if still {
                        return Ok(Tried::Turned(Turned::Idle));
                    }
                    still = true;
                }
            }
            other => return other,
        }
    }
    Ok(Tried::Turned(Turned::Made))
}

/// Turns of a worker one after the other.
pub(crate) fn make_turns<R: Wait>(
    rt: &R,
    cell: &mut Cell<'_>,
    server: u32,
    worker: WorkerRole,
    at: &mut u32,
    made: &mut Made,
) -> Result<Tried, StepFault>
    requires server { cell.old.root.server ≡ server }
    ensures root { cell.new.root ≡ cell.old.root }
    ensures grows { IsPrefix cell.old.journal cell.new.journal }
    ensures tried { IfOk result (λ tried. IsTried worker tried cell.new.root cell.new.journal) }
    ensures worn { (s : ℕ) → worker ≡ WorkerRole.Commands → IsErrOf result (StepFault.StampsExhausted s) → IsWornBy s cell.new.root cell.new.journal }
{
    match worker {
        WorkerRole::Commands => make_commands(rt, cell, at, made),
        WorkerRole::Links => make_receptions(rt, cell, server, at, made),
    }
}

/// The turn whose publication was matched ahead, and turns after it.
pub(crate) fn make_ahead<R: Wait>(
    rt: &R,
    cell: &mut Cell<'_>,
    server: u32,
    worker: WorkerRole,
    viewer: &mut Viewer,
    what: Act,
    ahead: &Ahead,
    at: &mut u32,
    made: &mut Made,
) -> Result<Tried, StepFault>
    requires server { cell.old.root.server ≡ server }
    requires suits { Suits what cell.old.root }
    requires own { IsOfWorker worker what }
    requires viewer { IsSameViewer cell.old.root.viewer.value viewer.old }
    requires ahead { IsAheadBy cell.old.root.viewer.value ahead.now }
    ensures root { cell.new.root ≡ cell.old.root }
    ensures grows { IsPrefix cell.old.journal cell.new.journal }
    ensures tried { IfOk result (λ tried. IsTried worker tried cell.new.root cell.new.journal) }
    ensures worn { (s : ℕ) → worker ≡ WorkerRole.Commands → IsErrOf result (StepFault.StampsExhausted s) → IsWornBy s cell.new.root cell.new.journal }
    ensures viewer { IsSameViewer viewer.old viewer.new }
{
    cell.lemma_kept();
    match cell.turn_ahead(rt, what, viewer, ahead) {
        Ok(turned) => {
            made.count(turned);
            make_turns(rt, cell, server, worker, at, made)
        }
        Err(fault) => Err(fault),
    }
}
