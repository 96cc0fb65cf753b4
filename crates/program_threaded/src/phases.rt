//! Runs the phases of a net with threads, one after the other.
ghost use Rattle.std.specs.Prelude.{◌≡◌, ℕ, List, OnOk};
ghost use Rattle.law_machine.specs.Journals.{Cell as RunCell};
ghost use Rattle.net_model.specs.Nets.{phases_of};
ghost use Rattle.net_model.specs.Parts.{NetParts};
ghost use Rattle.net_model.specs.Sound.{IsSound};
ghost use Rattle.thread_outcome.specs.Outcome.{AreInHand, AreKept, StandBetween};
ghost use Rattle.thread_cell.specs.Cell.{CellParts, machine_in};
ghost use Rattle.thread_cell.specs.Coming.{HaveCommand};
ghost use Rattle.thread_cell.specs.Entered.{AreThrough};
ghost use Rattle.thread_cell.specs.Together.{AreBegun, AreTogether, IsFinished, cell_roots, keepings};
ghost use Rattle.program_threaded.specs.Teams.{AreBetweenPhases, AreUnderWay, HaveStarted, IsTeam};

use crate::team::lemma_all_kept;
use base::NoMemory;
use base_devices::Gate;
use net_tables::Tables;
use server_core::StepFault;
use std::alloc::Global;
use std::sync::Wait;
use std::thread::Threads;
use thread_cell::{Cell, enter_next, finish_phase, next_phase};
use thread_outcome::law::{lemma_calm, lemma_never_worn, lemma_phase_done, lemma_stand_later};
use thread_workers::{Viewers, run_phase};

/// The cells enter a phase; where it is the one that they are in nothing was done in it.
fn enter<'a, R: Wait>(
    alloc: Global,
    rt: &R,
    tables: &'a Tables<'a>,
    cells: &mut Vec<Cell<'a>>,
    last: u32,
    phase: u32,
) -> Result<(), NoMemory>
    requires hand { AreInHand tables.now last cells.old.items }
    requires stand { StandBetween tables.now last phase cells.old.items }
    requires through { AreThrough phase cells.old.items }
    ensures { OnOk result (HaveStarted tables.now last phase cells.old.items cells.new.items) }
{
    lemma_calm();
    if last == phase {
        return Ok(());
    }
    enter_next(alloc, rt, tables, cells, last, phase)
}

/// Makes the rest of the phase that the cells entered. No stamp reaches its bound, since all entries together are a run.
fn end_phase<R: Wait>(rt: &R, cells: &mut Vec<Cell<'_>>) -> Result<(), NoMemory>
    requires { (net : NetParts) × (last phase : ℕ) × (before started : List CellParts) × AreUnderWay net last phase before started cells.old.items }
    ensures roots { cell_roots cells.new.items ≡ cell_roots cells.old.items }
    ensures kept { AreKept cells.new.items }
    ensures finished { OnOk result ((net : NetParts) (phase : ℕ) → AreTogether net phase (cell_roots cells.old.items)
        → (begun : ℕ → RunCell (machine_in net phase)) → AreBegun net phase cells.new.items begun → IsFinished net phase cells.new.items begun) }
{
    lemma_never_worn();
    let answer = finish_phase(rt, cells);
    lemma_all_kept(cells);
    match answer {
        Ok(()) => Ok(()),
        Err(StepFault::NoMemory) => Err(NoMemory),
        Err(StepFault::StampsExhausted(_)) => unreachable!(),
    }
}

/// The cells enter the phase of the next command, workers execute its commands and receive its messages, and what they leave is done.
fn one_phase<'a, R: Threads + Wait + Sync, G: Gate + Sync>(
    alloc: Global,
    rt: &R,
    tables: &'a Tables<'a>,
    gate: &G,
    threads: usize,
    cells: &mut Vec<Cell<'a>>,
    viewers: &mut Vec<Viewers>,
    last: u32,
    phase: u32,
) -> Result<(), NoMemory>
    requires team { IsTeam tables.now last cells.old.items viewers.old.items }
    requires through { AreThrough phase cells.old.items }
    requires command { HaveCommand cells.old.items phase }
    ensures team { OnOk result (IsTeam tables.now phase cells.new.items viewers.new.items) }
    ensures keeps { OnOk result (keepings cells.new.items ≡ keepings cells.old.items) }
{
    lemma_stand_later();
    lemma_phase_done();
    enter(alloc, rt, tables, cells, last, phase)?;
    run_phase(alloc, rt, tables, gate, threads, phase, cells, viewers)?;
    end_phase(rt, cells)
}

/// Phase by phase, until no command is left.
pub(crate) fn run_phases<'a, R: Threads + Wait + Sync, G: Gate + Sync>(
    alloc: Global,
    rt: &R,
    tables: &'a Tables<'a>,
    gate: &G,
    threads: usize,
    cells: &mut Vec<Cell<'a>>,
    viewers: &mut Vec<Viewers>,
) -> Result<(), NoMemory>
    requires { IsTeam tables.now 0 cells.old.items viewers.old.items }
    ensures between { OnOk result ((last : ℕ) × AreBetweenPhases tables.now last cells.new.items) }
    ensures through { OnOk result (AreThrough (phases_of tables.now) cells.new.items) }
    ensures keeps { OnOk result (keepings cells.new.items ≡ keepings cells.old.items) }
{
    let mut last = 0;
    for _ in rt.forever() {
        let Some(phase) = next_phase(cells) else {
            return Ok(());
        };
        one_phase(
            alloc, rt, tables, gate, threads, cells, viewers, last, phase,
        )?;
        last = phase;
    }
    unreachable!()
}
