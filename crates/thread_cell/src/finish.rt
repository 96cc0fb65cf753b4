//! Makes the rest of a phase, with the cells of all servers in hand.
ghost use Rattle.std.specs.Prelude.{◌≡◌, ◌<◌, ℕ, false, length, OnOk, IfOk, IsErrOf, Some, slice_get};
ghost use Rattle.law_machine.specs.Journals.{Cell as Begun};
ghost use Rattle.server_message.specs.declared.stamped.StampedLoad.{StampedLoad as ItemParts};
ghost use Rattle.net_model.specs.Parts.{NetParts};
ghost use Rattle.thread_cell.specs.declared.held.Root.{Root as RootParts};
ghost use Rattle.thread_cell.specs.Cell.{CellParts, IsKept, machine_in};
ghost use Rattle.thread_cell.specs.Links.{At, IsOneLane, IsSettledLane};
ghost use Rattle.thread_cell.specs.LaneReceiving.{IsNextAt};
ghost use Rattle.thread_cell.specs.Together.{AreTogether, AreBegun, AreDone, HaveGrown, IsCellDone, IsFinished, IsLaneOf, IsTakenUp, IsWornSomewhere};
ghost use Rattle.thread_cell.specs.Together.{root_links, cell_roots, sights};
ghost use Rattle.thread_cell.specs.InHand.{AreAllInHand, AreReceivedInOrder, IsReceivedInOrder};

use crate::cell::Cell;
use crate::settling::settle_two;
use base::NoMemory;
use server_core::StepFault;
use std::sync::Wait;

/// Where the lane to a server from one of its neighbours comes from: the place of that neighbour's cell, and the place of
/// its link to the server.
fn giver_of(cells: &[Cell<'_>], taker: usize, from: usize) -> (usize, usize)
    requires taker { taker < length cells.now }
    requires from { (b : RootParts) → slice_get (cell_roots cells.now) taker ≡ Some b → from < length (root_links b) }
    requires together { (net : NetParts) × (phase : ℕ) × AreTogether net phase (cell_roots cells.now) }
    ensures { IsLaneOf cells.now result.0 result.1 taker from }
{
    let mine = &cells[taker];
    mine.lemma_kept();
    let giver = mine.neighbour(from) as usize - 1;
    let theirs = &cells[giver];
    theirs.lemma_kept();
    let Some(to) = theirs.place_of(mine.number()) else {
        unreachable!()
    };
    (giver, to)
}

/// Takes the next item from a neighbour, after all that it put was brought here; answers whether there was one.
fn take_settled<R: Wait>(
    rt: &R,
    cells: &mut [Cell<'_>],
    taker: usize,
    from: usize,
) -> Result<bool, StepFault>
    requires taker { taker < length cells.old }
    requires from { (b : RootParts) → slice_get (cell_roots cells.old) taker ≡ Some b → from < length (root_links b) }
    requires together { (net : NetParts) × (phase : ℕ) × AreTogether net phase (cell_roots cells.old) }
    ensures roots { cell_roots cells.new ≡ cell_roots cells.old }
    ensures grown { HaveGrown cells.old cells.new }
    ensures idle { IfOk result (λ made. made ≡ false → (sights cells.new ≡ sights cells.old) × IsTakenUp (sights cells.new) taker from) }
    ensures worn { (s : ℕ) → IsErrOf result (StepFault.StampsExhausted s) → IsWornSomewhere s (sights cells.new) }
{
    let (giver, to) = giver_of(cells, taker, from);
    settle_two(cells, giver, to, taker, from)?;
    cells[giver].lemma_kept();
    cells[taker].lemma_kept();
    match cells[taker].take_from_place(rt, from) {
        Err(StepFault::StampsExhausted(stamp)) => {
            settle_two(cells, giver, to, taker, from)?;
            cells[giver].lemma_kept();
            Err(StepFault::StampsExhausted(stamp))
        }
        answer => answer,
    }
}

/// Takes from each neighbour once, where there is something; answers whether there was.
fn walk_links<R: Wait>(rt: &R, cells: &mut [Cell<'_>], k: usize) -> Result<bool, StepFault>
    requires k { k < length cells.old }
    requires together { (net : NetParts) × (phase : ℕ) × AreTogether net phase (cell_roots cells.old) }
    ensures roots { cell_roots cells.new ≡ cell_roots cells.old }
    ensures grown { HaveGrown cells.old cells.new }
    ensures idle { IfOk result (λ made. made ≡ false → (sights cells.new ≡ sights cells.old)
        × ((p : ℕ) → IsTakenUp (sights cells.new) k p)) }
    ensures worn { (s : ℕ) → IsErrOf result (StepFault.StampsExhausted s) → IsWornSomewhere s (sights cells.new) }
{
    let mut made = false;
    let mine = &cells[k];
    mine.lemma_kept();
    for from in 0..mine.neighbours() {
        if take_settled(rt, cells, k, from)? {
            made = true;
        }
    }
    Ok(made)
}

/// Tries each turn of one server once; answers whether one was made.
fn walk_cell<R: Wait>(rt: &R, cells: &mut [Cell<'_>], k: usize) -> Result<bool, StepFault>
    requires k { k < length cells.old }
    requires together { (net : NetParts) × (phase : ℕ) × AreTogether net phase (cell_roots cells.old) }
    ensures roots { cell_roots cells.new ≡ cell_roots cells.old }
    ensures grown { HaveGrown cells.old cells.new }
    ensures idle { IfOk result (λ made. made ≡ false → (sights cells.new ≡ sights cells.old) × IsCellDone (sights cells.new) k) }
    ensures worn { (s : ℕ) → IsErrOf result (StepFault.StampsExhausted s) → IsWornSomewhere s (sights cells.new) }
{
    let took = walk_links(rt, cells, k)?;
    let did = cells[k].walk_tasks(rt)?;
    Ok(took || did)
}

/// Tries each turn of each server once; answers whether one was made.
fn walk_once<R: Wait>(rt: &R, cells: &mut [Cell<'_>]) -> Result<bool, StepFault>
    requires { (net : NetParts) × (phase : ℕ) × AreTogether net phase (cell_roots cells.old) }
    ensures roots { cell_roots cells.new ≡ cell_roots cells.old }
    ensures grown { HaveGrown cells.old cells.new }
    ensures idle { IfOk result (λ made. made ≡ false → AreDone (sights cells.new)) }
    ensures worn { (s : ℕ) → IsErrOf result (StepFault.StampsExhausted s) → IsWornSomewhere s (sights cells.new) }
{
    let mut made = false;
    for k in 0..cells.len() {
        if walk_cell(rt, cells, k)? {
            made = true;
        }
    }
    Ok(made)
}

/// Executes the commands of the phase that are left, server by server.
fn walk_commands<R: Wait>(rt: &R, cells: &mut [Cell<'_>]) -> Result<(), StepFault>
    ensures roots { cell_roots cells.new ≡ cell_roots cells.old }
    ensures grown { HaveGrown cells.old cells.new }
    ensures worn { (s : ℕ) → IsErrOf result (StepFault.StampsExhausted s) → IsWornSomewhere s (sights cells.new) }
{
    for k in 0..cells.len() {
        cells[k].take_commands(rt)?;
    }
    Ok(())
}

/// Executes the commands of the phase that are left, and then makes rounds until one makes nothing.
fn walk_phase<R: Wait>(rt: &R, cells: &mut [Cell<'_>]) -> Result<(), StepFault>
    requires { (net : NetParts) × (phase : ℕ) × AreTogether net phase (cell_roots cells.old) }
    ensures roots { cell_roots cells.new ≡ cell_roots cells.old }
    ensures grown { HaveGrown cells.old cells.new }
    ensures done { OnOk result (AreDone (sights cells.new)) }
    ensures worn { (s : ℕ) → IsErrOf result (StepFault.StampsExhausted s) → IsWornSomewhere s (sights cells.new) }
{
    walk_commands(rt, cells)?;
    for _ in rt.forever() {
        if !walk_once(rt, cells)? {
            return Ok(());
        }
    }
    unreachable!()
}

/// Each cell keeps what its type says.
pub(crate) fn lemma_all_kept(cells: &[Cell<'_>])
    ensures { (k : ℕ) (cell : CellParts) → slice_get cells.now k ≡ Some cell → IsKept cell.root.net.value cell.root cell.journal cell.held }
{
    for cell in cells {
        cell.lemma_kept();
    }
}

/// Brings all that was put for one server, and not taken, to its taking ends.
fn settle_one(cells: &mut [Cell<'_>], k: usize) -> Result<(), NoMemory>
    requires k { k < length cells.old }
    requires together { (net : NetParts) × (phase : ℕ) × AreTogether net phase (cell_roots cells.old) }
    ensures sights { sights cells.new ≡ sights cells.old }
    ensures order { OnOk result ((p : ℕ) → IsReceivedInOrder (sights cells.new) k p) }
{
    let mine = &cells[k];
    mine.lemma_kept();
    for from in 0..mine.neighbours() {
        let (giver, to) = giver_of(cells, k, from);
        settle_two(cells, giver, to, k, from)?;
        cells[giver].lemma_kept();
        cells[k].lemma_kept();
    }
    Ok(())
}

/// Brings all that was put, and not taken, to the taking ends of all lanes. Then what each server took of a neighbour is
/// the beginning of what that put for it.
fn settle_all(cells: &mut [Cell<'_>]) -> Result<(), NoMemory>
    requires { (net : NetParts) × (phase : ℕ) × AreTogether net phase (cell_roots cells.old) }
    ensures sights { sights cells.new ≡ sights cells.old }
    ensures order { OnOk result (AreReceivedInOrder (sights cells.new)) }
{
    for k in 0..cells.len() {
        settle_one(cells, k)?;
    }
    Ok(())
}

/// Makes the rest of the phase: all commands that are left, server by server, and then rounds, in which each server takes
/// from each neighbour and installs what is pending, until one makes nothing. Then all lanes are empty, nothing is pending,
/// and no command of the phase is left. Each journal goes on. After a fault the steps that were made stand; where no stamp is left, all that was put is
/// brought to the taking ends, so that all cells are in hand.
pub fn finish_phase<R: Wait>(rt: &R, cells: &mut [Cell<'_>]) -> Result<(), StepFault>
    requires together { (net : NetParts) × (phase : ℕ) × AreTogether net phase (cell_roots cells.old) }
    ensures roots { cell_roots cells.new ≡ cell_roots cells.old }
    ensures grown { HaveGrown cells.old cells.new }
    ensures done { OnOk result (AreDone (sights cells.new)) }
    ensures finished { OnOk result ((net : NetParts) (phase : ℕ) → AreTogether net phase (cell_roots cells.old)
        → (begun : ℕ → Begun (machine_in net phase)) → AreBegun net phase cells.new begun → IsFinished net phase cells.new begun) }
    ensures worn { (s : ℕ) → IsErrOf result (StepFault.StampsExhausted s) → IsWornSomewhere s (sights cells.new) }
    ensures hand { (s : ℕ) → IsErrOf result (StepFault.StampsExhausted s) → (net : NetParts) (phase : ℕ) → AreTogether net phase (cell_roots cells.old)
        → (begun : ℕ → Begun (machine_in net phase)) → AreBegun net phase cells.new begun → AreAllInHand net phase cells.new begun }
{
    match walk_phase(rt, cells) {
        Ok(()) => {
            lemma_all_kept(cells);
            Ok(())
        }
        Err(StepFault::StampsExhausted(stamp)) => {
            settle_all(cells)?;
            lemma_all_kept(cells);
            Err(StepFault::StampsExhausted(stamp))
        }
        Err(fault) => Err(fault),
    }
}
