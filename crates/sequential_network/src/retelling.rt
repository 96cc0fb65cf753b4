//! Finds the messages of a journal by making its turns again.
ghost use Rattle.std.specs.Prelude.{◌≡◌, IfOk};
ghost use Rattle.net_model.specs.Sound.{IsSound};

use crate::keeping::Passed;
use crate::network::RuledNetwork;
use crate::ruled::Networked;
use base::NoMemory;
use filter_text::Lists;
use net_model::{Entry, Sent};
use net_tables::Tables;
use net_turns::retold;
use std::alloc::Global;

/// For each entry of a journal that is a legal run of the net of these tables, by the rules of a kind of servers, the texts of
/// its messages by rising neighbour.
pub fn retell<'a, P: Networked<'a>>(
    alloc: Global,
    tables: &'a Tables<'a>,
    journal: &[Entry],
) -> Result<Vec<Lists<Sent>>, NoMemory>
    requires sound { IsSound tables.now }
    requires legal { P.trying.IsLegal tables.now journal.now }
    ensures { IfOk result (λ told. told.items ≡ P.telling.told_by tables.now journal.now) }
{
    let mut network: RuledNetwork<'a, P, Passed> = RuledNetwork::start(alloc, tables)?;
    retold(alloc, &mut network, journal)
}
