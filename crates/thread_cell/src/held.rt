//! What a cell has in hand, and what stays while a phase lasts.
use crate::link::Link;
use match_routes::TableChange;
use net_journal::Journal;
use net_model::Net;
use server_core::Core;
use std::snapshot::Snapshot;
use thread_versions::{Publisher, Viewer};

/// A server in hand, with its lanes and its publisher. Of what is pending some changes may be handed to the publisher
/// already, after a table update that found no memory.
pub struct ServerInHand<'a> {
    pub(crate) core: Core<'a>,
    pub(crate) links: Vec<Link>,
    pub(crate) publisher: Publisher,
    pub(crate) handed: Vec<TableChange>,
}

/// What stays of a cell while a phase lasts: its net, its server, the phase, whether its journal keeps its entries, those that it
/// had when it entered the phase, and the core and the lanes that it had in hand then. Its publisher is named by one of its
/// viewers. But for the numbers it has no bytes.
#[derive(Drop)]
pub struct Root<'a> {
    pub(crate) net: Snapshot<Net>,
    pub(crate) server: u32,
    pub(crate) phase: u32,
    pub(crate) keeps: bool,
    pub(crate) before: Snapshot<Journal>,
    pub(crate) core: Snapshot<Core<'a>>,
    pub(crate) links: Snapshot<Vec<Link>>,
    pub(crate) viewer: Snapshot<Viewer>,
}

impl<'a> Root<'a> {
    ghost use Rattle.thread_cell.specs.Cell.{HasEntered, cell_parts};

    /// It enters a phase with this journal and what is in hand.
    pub(crate) fn enter(&mut self, phase: u32, journal: &Journal, held: &ServerInHand<'a>)
        ensures { HasEntered self.old phase (cell_parts self.new journal.now.entries held.now) }
    {
        self.phase = phase;
        self.before = Snapshot::of(journal);
        self.core = Snapshot::of(&held.core);
        self.links = Snapshot::of(&held.links);
    }
}
