//! Keeps the cells of all servers, with the viewers of their workers.
ghost use Rattle.std.specs.Prelude.{◌≡◌, ◌≤◌, [], length, map, vec_capacity};
ghost use Rattle.thread_outcome.specs.Outcome.{AreKept};
ghost use Rattle.thread_cell.specs.Together.{cell_roots};
ghost use Rattle.thread_workers.specs.ServerWorkers.{AreViewersOf, Pairwise};
ghost use Rattle.program_threaded.specs.Teams.{HaveViewers};

use base::NoMemory;
use net_tables::Tables;
use std::alloc::Global;
use std::sync::Wait;
use thread_cell::{Cell, Started, start};
use thread_outcome::law::lemma_opens;
use thread_workers::Viewers;

/// The cells of all servers, and the viewers of the workers of each.
pub(crate) struct Team<'a> {
    pub(crate) cells: Vec<Cell<'a>>,
    pub(crate) viewers: Vec<Viewers>,
}

/// Puts the cells and their viewers apart.
fn part<'a>(mut started: Vec<Started<'a>>, cells: &mut Vec<Cell<'a>>, viewers: &mut Vec<Viewers>)
    requires viewers { HaveViewers started.items }
    requires empty { (cells.old.items ≡ []) × (viewers.old.items ≡ []) }
    requires room { (length started.items ≤ vec_capacity cells.old) × (length started.items ≤ vec_capacity viewers.old) }
    ensures cells { cells.new.items ≡ map (λ s. s.cell) started.entry.items }
    ensures viewers { Pairwise AreViewersOf (cell_roots cells.new.items) viewers.new.items }
{
    while !started.is_empty() {
        let Started {
            cell,
            commands,
            links,
        } = started.remove(0);
        cells.push_reserved(cell);
        viewers.push_reserved(Viewers { commands, links });
    }
    started.destroy_empty();
}

/// Each cell keeps what its type says.
pub(crate) fn lemma_all_kept(cells: &[Cell<'_>])
    ensures { AreKept cells.now }
{
    for cell in cells {
        cell.lemma_kept();
    }
}

impl<'a> Team<'a> {
    ghost use Rattle.std.specs.Prelude.{◌≡◌, IfOk};
    ghost use Rattle.filter_text.specs.MessageText.{Each};
    ghost use Rattle.net_model.specs.Sound.{IsSound};
    ghost use Rattle.thread_cell.specs.Together.{keepings};
    ghost use Rattle.program_threaded.specs.Teams.{IsTeam};

    /// The team of the tables' net before its first step, whose cells keep the entries of their journals or let them pass.
    pub(crate) fn make<R: Wait>(
        alloc: Global,
        rt: &R,
        tables: &'a Tables<'a>,
        keeps: bool,
    ) -> Result<Team<'a>, NoMemory>
        requires { IsSound tables.now }
        ensures team { IfOk result (λ team. IsTeam tables.now 0 team.cells.items team.viewers.items) }
        ensures keeps { IfOk result (λ team. Each (λ keep. keep ≡ keeps) (keepings team.cells.items)) }
    {
        lemma_opens();
        let count = tables.net().tree(0).servers() as usize;
        let mut viewers = Vec::with_capacity(alloc, count)?;
        let mut cells = Vec::with_capacity(alloc, count)?;
        match start(alloc, rt, tables, keeps) {
            Ok(started) => {
                part(started, &mut cells, &mut viewers);
                lemma_all_kept(&cells);
                Ok(Team { cells, viewers })
            }
            Err(fault) => {
                cells.destroy_empty();
                Err(fault)
            }
        }
    }
}
