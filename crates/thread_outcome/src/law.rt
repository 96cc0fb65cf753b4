//! States what holds of the cells of a net from phase to phase.
ghost use Rattle.std.specs.Prelude.{ℕ, suc, List, map};
ghost use Rattle.net_model.specs.Parts.{NetParts, EntryParts};
ghost use Rattle.net_model.specs.Nets.{phases_of};
ghost use Rattle.net_model.specs.Sound.{IsSound};
ghost use Rattle.net_journal.specs.Merging.{AreServerJournals, IsMergeOf};
ghost use Rattle.thread_cell.specs.declared.starting.Started.{Started};
ghost use Rattle.thread_cell.specs.Cell.{CellParts};
ghost use Rattle.thread_cell.specs.Coming.{HaveCommand};
ghost use Rattle.thread_cell.specs.Entered.{AreThrough, AreCalm};
ghost use Rattle.thread_cell.specs.Started.{AreStarted};
ghost use Rattle.thread_cell.specs.Together.{IsWornSomewhere, sights};
ghost use Rattle.thread_outcome.specs.Outcome.{StandBetween, IsPhaseBegun, IsPhaseDone, AreInHand, IsWholeMerge, journals_by};

/// Cells before their first step stand between no phase and the first.
pub fn lemma_opens()
    ensures { (net : NetParts) (started : List Started) → AreStarted net started → StandBetween net 0 0 (map (λ s. s.cell) started) }
{}

/// Where cells stand between two phases nothing is pending.
pub fn lemma_calm()
    ensures { (net : NetParts) (last next : ℕ) (cells : List CellParts) → AreInHand net last cells → StandBetween net last next cells → AreCalm cells }
{}

/// Cells that stand before a phase stand before that of the next command.
pub fn lemma_stand_later()
    ensures { (net : NetParts) (last next later : ℕ) (cells : List CellParts) → AreInHand net last cells → StandBetween net last next cells
        → HaveCommand cells later → AreThrough later cells → StandBetween net last later cells }
{}

/// Cells that stand before a phase, enter it and end it stand between it and the next.
pub fn lemma_phase_done()
    ensures { (net : NetParts) (last phase : ℕ) (old started now : List CellParts) → IsPhaseDone net last phase old started now
        → StandBetween net phase (suc phase) now }
{}

/// While a phase is made with all cells in hand, no clock and no message that was put has the last stamp: the entries so far
/// are a run of a sound net, and by its limits no stamp of such a run comes near it.
pub fn lemma_never_worn()
    ensures { (net : NetParts) (last phase : ℕ) (old started now : List CellParts) → IsPhaseBegun net last phase old started now
        → (stamp : ℕ) → IsWornSomewhere stamp (sights now) → ⊥ }
{}

/// The journals of cells that stand between two phases have a merge; where no command is left, that is a whole run.
pub fn lemma_whole_run()
    ensures journals { (net : NetParts) (last next : ℕ) (cells : List CellParts) → StandBetween net last next cells → AreServerJournals (journals_by cells) }
    ensures whole { (net : NetParts) (last next : ℕ) (cells : List CellParts) (merged : List EntryParts) → AreInHand net last cells
        → StandBetween net last next cells → AreThrough (phases_of net) cells → IsMergeOf (journals_by cells) merged → IsWholeMerge net cells merged }
{}
