//! What the links of a document carry in its walk.
ghost use Rattle.std.specs.Prelude.{ℕ, List, IfOk};
ghost use Rattle.net_model.specs.Sound.{IsSound};
ghost use Rattle.net_turns.specs.Network.{IsLegal};
ghost use Rattle.net_turns.specs.Told.{told_by};
ghost use Rattle.document_reader.specs.Net.{IsNetOf};
ghost use Rattle.output_traffic.specs.Tallied.{Carries};
ghost use Rattle.program_sequential.specs.Traffic.{IsTrafficOf};

use crate::body::Body;
use crate::printed::Printed;
use crate::ran::walked;
use base::NoMemory;
use net_journal::Ran;
use net_model::{Entry, Net};
use net_tables::Tables;
use net_turns::turn_of;
use output_traffic::law::lemma_beside_flooding;
use output_traffic::{Carried, Traffic};
use sequential_network::{Kept, Network, Passed};
use std::alloc::Global;

// What the entries of a journal put on each link, found turn by turn, by the tables of its run.
fn carried_over(alloc: Global, tables: &Tables<'_>, journal: &[Entry]) -> Result<Carried, NoMemory>
    requires sound { IsSound tables.now }
    requires legal { IsLegal tables.now journal.now }
    ensures { IfOk result (λ carried. Carries carried journal.now (told_by tables.now journal.now)) }
{
    let mut network: Network<'_, Passed> = Network::start(alloc, tables)?;
    let mut carried = Carried::none(alloc)?;
    for entry in journal {
        network.turn(turn_of(entry))?;
        let sent = network.last_told()?;
        carried.add(alloc, entry, sent.as_slice())?;
    }
    Ok(carried)
}

// What the entries of a journal put on each link.
fn carried(alloc: Global, net: &Net, journal: &[Entry]) -> Result<Carried, NoMemory>
    requires sound { IsSound net.now }
    requires legal { IsLegal net.now journal.now }
    ensures { IfOk result (λ carried. Carries carried journal.now (told_by net.now journal.now)) }
{
    let tables = Tables::of(alloc, net)?;
    carried_over(alloc, &tables, journal)
}

/// What each link of a document's net carries in its walk, beside what plain flooding would have put there.
pub fn traffic(alloc: Global, net: Net, graph: bool) -> Result<Printed, NoMemory>
    requires { IsSound net }
    ensures { IfOk result (λ p. (input : List ℕ) → IsNetOf input net → IsTrafficOf graph input p.text p.journal) }
{
    lemma_beside_flooding();
    net_model::law::lemma_lawful_net();
    let Ran {
        journal,
        refused,
        received: _,
    } = walked::<Kept>(alloc, &net)?;
    let carried = carried(alloc, &net, journal.entries())?;
    let traffic = Traffic::make(alloc, net, &refused, carried, graph)?;
    Printed::make(alloc, Body::Carried(traffic), Vec::new(alloc), journal)
}
