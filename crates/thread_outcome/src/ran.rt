//! Collects what a run over cells leaves.
ghost use Rattle.std.specs.Prelude.{◌≡◌, ◌≤◌, ℕ, [], length, map, vec_capacity, IfOk};
ghost use Rattle.filter_text.specs.MessageText.{Each};
ghost use Rattle.net_model.specs.Nets.{phases_of, of_clients};
ghost use Rattle.net_turns.specs.Network.{network_parts, received_by, refused_by};
ghost use Rattle.net_turns.specs.Sessions.{IsSessionOf};
ghost use Rattle.thread_cell.specs.Entered.{AreThrough};
ghost use Rattle.thread_cell.specs.Together.{keepings};
ghost use Rattle.thread_outcome.specs.Outcome.{StandBetween, AreInHand, IsEndOf, IsRanBy, cores_of, journals_by};

use crate::inboxes::{home, take_inboxes};
use crate::law::lemma_whole_run;
use base::NoMemory;
use filter_text::Lists;
use net_journal::{Journal, Ran, Record};
use net_model::Net;
use server_core::Core;
use server_session::Session;
use std::alloc::Global;
use std::sync::Wait;
use thread_cell::Cell;

/// What cells are taken apart into: the core and the journal of each.
struct Parts<'a> {
    cores: Vec<Core<'a>>,
    journals: Vec<Journal>,
}

/// Ends the cells.
pub fn end_all<R: Wait>(rt: &R, mut cells: Vec<Cell<'_>>) {
    while let Some(cell) = cells.pop() {
        cell.end(rt);
    }
    cells.destroy_empty();
}

/// Takes the cells apart, for whose parts there is room.
fn take_apart<'a, R: Wait>(rt: &R, mut cells: Vec<Cell<'a>>, parts: &mut Parts<'a>)
    requires empty { (parts.old.cores.items ≡ []) × (parts.old.journals.items ≡ []) }
    requires room { (length cells.items ≤ vec_capacity parts.old.cores) × (length cells.items ≤ vec_capacity parts.old.journals) }
    ensures cores { parts.new.cores.items ≡ cores_of cells.entry.items }
    ensures journals { map (λ journal. journal.entries) parts.new.journals.items ≡ journals_by cells.entry.items }
    ensures kept { map (λ journal. journal.kept) parts.new.journals.items ≡ keepings cells.entry.items }
{
    while !cells.is_empty() {
        let (core, journal) = cells.remove(0).into_parts(rt);
        parts.cores.push_reserved(core);
        parts.journals.push_reserved(journal);
    }
    cells.destroy_empty();
}

impl<'a> Parts<'a> {
    /// Room for the parts of so many cells.
    fn make(alloc: Global, count: usize) -> Result<Parts<'a>, NoMemory>
        ensures empty { IfOk result (λ parts. (parts.cores.items ≡ []) × (parts.journals.items ≡ [])) }
        ensures room { IfOk result (λ parts. (count ≤ vec_capacity parts.cores) × (count ≤ vec_capacity parts.journals)) }
    {
        let cores = Vec::with_capacity(alloc, count)?;
        let journals = Vec::with_capacity(alloc, count)?;
        Ok(Parts { cores, journals })
    }

    /// The parts of these cells. Where it finds no memory it ends them.
    fn of<R: Wait>(alloc: Global, rt: &R, cells: Vec<Cell<'a>>) -> Result<Parts<'a>, NoMemory>
        ensures cores { IfOk result (λ parts. parts.cores.items ≡ cores_of cells.entry.items) }
        ensures journals { IfOk result (λ parts. map (λ journal. journal.entries) parts.journals.items ≡ journals_by cells.entry.items) }
        ensures kept { IfOk result (λ parts. map (λ journal. journal.kept) parts.journals.items ≡ keepings cells.entry.items) }
    {
        match Parts::make(alloc, cells.len()) {
            Ok(mut parts) => {
                take_apart(rt, cells, &mut parts);
                Ok(parts)
            }
            Err(fault) => {
                end_all(rt, cells);
                Err(fault)
            }
        }
    }
}

/// The end of a run: its net, the cores of its servers, and the journal of all of them.
#[derive(Drop)]
struct End<'e, 'a> {
    net: &'e Net,
    cores: &'e [Core<'a>],
    journal: &'e Record,
}

/// The session of a client at its home.
fn session<'e, 'a>(end: &End<'e, 'a>, client: u32) -> &'e Session<'a>
    requires end { IsEndOf end.now.net.now end.now.cores.now end.now.journal.now.entries }
    requires client { (1 ≤ client) × (client ≤ length end.now.net.now.clients) }
    ensures { IsSessionOf (network_parts end.now.net.now end.now.journal.now.entries) client result.now.session }
{
    let cores = end.cores;
    let home = home(end.net, client);
    cores[home as usize - 1].session(client)
}

/// How many clients the net has.
fn clients(end: &End<'_, '_>) -> u32
    requires { IsEndOf end.now.net.now end.now.cores.now end.now.journal.now.entries }
    ensures { result ≡ length end.now.net.now.clients }
{
    let net = end.net;
    net.clients.len() as u32
}

/// The ordinals of a client's refused publishes.
fn refused_of(alloc: Global, end: &End<'_, '_>, client: u32) -> Result<Lists<u32>, NoMemory>
    requires end { IsEndOf end.now.net.now end.now.cores.now end.now.journal.now.entries }
    requires client { (1 ≤ client) × (client ≤ length end.now.net.now.clients) }
    ensures { IfOk result (λ list. list ≡ refused_by end.now.net.now end.now.journal.now.entries client) }
{
    Ok(Lists::of(session(end, client).refused().to_vec(alloc)?))
}

/// Of each client the ordinals of its refused publishes.
fn refused(alloc: Global, end: &End<'_, '_>) -> Result<Vec<Lists<u32>>, NoMemory>
    requires { IsEndOf end.now.net.now end.now.cores.now end.now.journal.now.entries }
    ensures { IfOk result (λ lists. lists.items
        ≡ of_clients end.now.net.now (refused_by end.now.net.now end.now.journal.now.entries)) }
{
    let mut lists = Vec::new(alloc);
    for place in 0..clients(end) {
        lists.push(refused_of(alloc, end, place + 1)?)?;
    }
    Ok(lists)
}

/// What a run leaves with this journal, at whose end these are the cores. It takes the inboxes out of them.
fn leave(
    alloc: Global,
    net: &Net,
    mut cores: Vec<Core<'_>>,
    journal: Record,
) -> Result<Ran, NoMemory>
    requires { IsEndOf net.now cores.items journal.entries }
    ensures entries { IfOk result (λ ran. ran.journal.entries ≡ journal.entries) }
    ensures kept { IfOk result (λ ran. ran.journal.kept ≡ journal.kept) }
    ensures refused { IfOk result (λ ran. ran.refused.items ≡ of_clients net.now (refused_by net.now ran.journal.entries)) }
    ensures received { IfOk result (λ ran. ran.received.items ≡ of_clients net.now (received_by net.now ran.journal.entries)) }
{
    let end = End {
        net,
        cores: &cores,
        journal: &journal,
    };
    let refused = refused(alloc, &end)?;
    let received = take_inboxes(alloc, net, &mut cores)?;
    Ok(Ran {
        journal,
        refused,
        received,
    })
}

/// What a run leaves whose cells stand between two phases with no command left: what the servers did, by stamp and then by
/// server, and what each client has. It takes the cells apart, and may wait for a viewer that is inside a match. Where the cells
/// let their entries pass nothing is merged.
pub fn collect<R: Wait>(
    alloc: Global,
    rt: &R,
    net: &Net,
    cells: Vec<Cell<'_>>,
    keeps: bool,
) -> Result<Ran, NoMemory>
    requires stand { (last next : ℕ) × StandBetween net.now last next cells.items × AreInHand net.now last cells.items }
    requires through { AreThrough (phases_of net.now) cells.items }
    requires keeps { Each (λ keep. keep ≡ keeps) (keepings cells.items) }
    ensures ran { IfOk result (IsRanBy net.now cells.entry.items) }
    ensures kept { IfOk result (λ ran. ran.journal.kept ≡ keeps) }
{
    lemma_whole_run();
    let Parts { cores, journals } = Parts::of(alloc, rt, cells)?;
    let journal = Record::merged(alloc, journals, keeps)?;
    leave(alloc, net, cores, journal)
}
