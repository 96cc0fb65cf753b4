//! Finds the messages of a journal by making its turns again.
ghost use Rattle.std.specs.Prelude.{◌≡◌, [], IfOk};
ghost use Rattle.net_turns.specs.Network.{network_parts};
ghost use Rattle.net_turns.specs.Retold.{turn_of_entry};

use crate::turning::Turning;
use base::NoMemory;
use filter_text::Lists;
use net_model::{Act, Entry, Sent, Turn};
use std::alloc::Global;

/// For each entry of a journal that is a legal run, the texts of its messages by rising neighbour: written by a network before its
/// first turn, which makes the turns again.
pub fn retold<N: Turning>(
    alloc: Global,
    network: &mut N,
    journal: &[Entry],
) -> Result<Vec<Lists<Sent>>, NoMemory>
    requires start { N.seen network.old ≡ network_parts (N.seen network.old).net [] }
    requires legal { N.trying.IsLegal (N.seen network.old).net journal.now }
    ensures { IfOk result (λ told. told.items ≡ N.telling.told_by (N.seen network.old).net journal.now) }
{
    let mut told = Vec::with_capacity(alloc, journal.len())?;
    for entry in journal {
        network.make(turn_of(entry))?;
        let texts = network.last()?;
        told.push(texts)?;
    }
    Ok(told)
}

/// The turn of an entry.
pub fn turn_of(entry: &Entry) -> Turn
    ensures { result ≡ turn_of_entry entry.now }
{
    match entry.act {
        Act::Command(client) => Turn::Command(client),
        Act::Receive(from) => Turn::Receive {
            server: entry.server,
            from,
        },
        Act::TableUpdate => Turn::TableUpdate(entry.server),
    }
}
