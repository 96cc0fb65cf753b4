//! Runs the network of a document, by its schedule and the walk.
ghost use Rattle.std.specs.Prelude.{◌≡◌, ◌≤◌, ℕ, true, [], length, IfOk, IsErrOf};
ghost use Rattle.net_model.specs.Sound.{IsSound};
ghost use Rattle.net_turns.specs.Network.{IsLegal, refused_by};
ghost use Rattle.program_sequential.specs.Runs.{turns_first};
ghost use Rattle.program_sequential.specs.Ran.{IsRan, IsRunThrough};
ghost use Rattle.program_sequential.specs.Words.{is_quiet};
ghost use Rattle.program_sequential.specs.Faults.{StopsAtLine, fault_of_turn};
ghost use Rattle.net_model.specs.Nets.{of_clients};

use crate::words::Schedule;
use base::NoMemory;
use document_reader::{Fault, InputFault};
use filter_text::Lists;
use net_journal::{Ran, Record};
use net_model::{Net, Turn};
use net_tables::Tables;
use net_turns::ReplayFault;
use sequential_network::{Keeping, Network};
use std::alloc::Global;

// The turns that come before the walk.
fn turns_first(net: &Net, schedule: Schedule) -> &[(u32, Turn)]
    ensures { result.now ≡ turns_first schedule net.now }
{
    match schedule {
        Schedule::Walk => &[],
        Schedule::Replay => &net.schedule,
        Schedule::Threads => &[],
    }
}

// A schedule that stops, as a fault of its document.
fn told(fault: ReplayFault) -> InputFault
    ensures { result ≡ fault_of_turn fault }
{
    match fault {
        ReplayFault::BadTurn(line) => InputFault::Bad {
            line,
            kind: Fault::BadTurn,
        },
        ReplayFault::NoMemory => InputFault::NoMemory,
    }
}

// The network after the turns of a schedule and the walk.
fn through<'a, K: Keeping>(
    alloc: Global,
    tables: &'a Tables<'a>,
    schedule: Schedule,
) -> Result<Network<'a, K>, InputFault>
    requires sound { IsSound tables.now }
    requires quiet { is_quiet schedule ≡ true }
    ensures through { IfOk result (λ network. IsRunThrough schedule tables.now network) }
    ensures bad { (line : ℕ) (kind : Fault) → IsErrOf result (InputFault.Bad line kind)
        → (kind ≡ Fault.BadTurn) × StopsAtLine tables.now [] (turns_first schedule tables.now) line }
{
    let mut network = Network::start(alloc, tables)?;
    match network.replay(turns_first(tables.net(), schedule)) {
        Ok(()) => {}
        Err(fault) => return Err(told(fault)),
    }
    network.walk()?;
    Ok(network)
}

// Of each client the ordinals of its refused publishes.
fn refused<K: Keeping>(
    alloc: Global,
    network: &Network<'_, K>,
    clients: u32,
) -> Result<Vec<Lists<u32>>, NoMemory>
    requires { length network.now.net.clients ≡ clients }
    ensures { IfOk result (λ lists. lists.items ≡ of_clients network.now.net (refused_by network.now.net network.now.journal)) }
{
    let mut lists = Vec::new(alloc);
    for place in 0..clients {
        let ordinals = network.refused(place + 1).to_vec(alloc)?;
        lists.push(Lists::of(ordinals))?;
    }
    Ok(lists)
}

/// How many clients a net has.
pub fn clients(net: &Net) -> u32
    requires { IsSound net.now }
    ensures { result ≡ length net.now.clients }
{
    net.clients.len() as u32
}

/// The walk of a net, whose entries are kept or pass.
pub fn walked<K: Keeping>(alloc: Global, net: &Net) -> Result<Ran, NoMemory>
    requires { IsSound net.now }
    ensures ran { IfOk result (λ ran. IsRan Schedule.Walk net.now ran) }
    ensures kept { IfOk result (λ ran. ran.journal.kept ≡ K.keeps) }
{
    match make_run::<K>(alloc, net, Schedule::Walk) {
        Ok(ran) => Ok(ran),
        Err(InputFault::NoMemory) => Err(NoMemory),
        // The walk has no turn of a schedule that could be barred.
        Err(InputFault::Bad { .. }) => unreachable!(),
    }
}

/// The run of a net on one thread, by the turns of a schedule and the walk, whose entries are kept or pass.
pub fn make_run<K: Keeping>(alloc: Global, net: &Net, schedule: Schedule) -> Result<Ran, InputFault>
    requires sound { IsSound net.now }
    requires quiet { is_quiet schedule ≡ true }
    ensures ran { IfOk result (λ ran. IsRan schedule net.now ran) }
    ensures kept { IfOk result (λ ran. ran.journal.kept ≡ K.keeps) }
    ensures bad { (line : ℕ) (kind : Fault) → IsErrOf result (InputFault.Bad line kind)
        → (kind ≡ Fault.BadTurn) × StopsAtLine net.now [] (turns_first schedule net.now) line }
{
    let tables = Tables::of(alloc, net)?;
    let network = through::<K>(alloc, &tables, schedule)?;
    let refused = refused(alloc, &network, clients(tables.net()))?;
    let (journal, received) = network.into_parts()?;
    Ok(Ran {
        journal: Record::of(journal),
        refused,
        received,
    })
}
