//! Finds the messages of a run again: as those of a network of peers, or of a network of a hierarchy.
ghost use Rattle.std.specs.Prelude.{◌≡◌, List, length, IfOk};
ghost use Rattle.net_model.specs.Parts.{NetParts, EntryParts};
ghost use Rattle.net_model.specs.Sound.{IsSound};

use base::NoMemory;
use filter_text::Lists;
use net_model::{Entry, Sent};
use net_tables::Tables;
use sequential_network::retell;
use std::alloc::Global;

/// A kind of networks, whose journals have their messages.
pub trait Telling {
    ghost use Rattle.filter_text.specs.declared.sent.Sent.{Sent as Told};

    /// The journals of its runs.
    ghost legal: { NetParts → List EntryParts → Type 0 };

    /// The messages of each entry of a journal.
    ghost told_by: { NetParts → List EntryParts → List (List Told) };

    /// For each entry of a journal the texts of its messages by rising neighbour.
    fn retell(
        alloc: Global,
        tables: &Tables<'_>,
        journal: &[Entry],
    ) -> Result<Vec<Lists<Sent>>, NoMemory>
        requires sound { IsSound tables.now }
        requires legal { legal tables.now journal.now }
        ensures { IfOk result (λ told. told.items ≡ told_by tables.now journal.now) };

    /// Each entry has its messages.
    ghost each: { (net : NetParts) (journal : List EntryParts) → length (told_by net journal) ≡ length journal };
}

/// The networks of peers.
pub struct Peers;

/// The networks of hierarchies.
pub struct Hierarchy;

impl Telling for Peers {
    ghost use Rattle.net_turns.specs.Network.{IsLegal};
    ghost use Rattle.net_turns.specs.Told.{told_by};
    ghost use Rattle.program_sequential.specs.Told.{told_length};

    ghost legal = { IsLegal };

    ghost told_by = { told_by };

    ghost each = { told_length };

    fn retell(
        alloc: Global,
        tables: &Tables<'_>,
        journal: &[Entry],
    ) -> Result<Vec<Lists<Sent>>, NoMemory> {
        retell::<sequential_network::ForwardingServer<'_>>(alloc, tables, journal)
    }
}

impl Telling for Hierarchy {
    ghost use Rattle.hierarchy_turns.specs.Network.{IsLegal};
    ghost use Rattle.hierarchy_turns.specs.Told.{told_by};
    ghost use Rattle.program_sequential.specs.Told.{told_below_length};

    ghost legal = { IsLegal };

    ghost told_by = { told_by };

    ghost each = { told_below_length };

    fn retell(
        alloc: Global,
        tables: &Tables<'_>,
        journal: &[Entry],
    ) -> Result<Vec<Lists<Sent>>, NoMemory> {
        retell::<hierarchy_network::ForwardingServer<'_>>(alloc, tables, journal)
    }
}
