//! What the merged journal is in the laws of runs.
ghost use Rattle.std.specs.Prelude.{◌≡◌, ◌↔◌, ℕ, List};
ghost use Rattle.law_machine.specs.Journals.{IsJournal};
ghost use Rattle.law_routing.specs.Net.{Net};
ghost use Rattle.law_routing.specs.Routing.{routing_machine};
ghost use Rattle.law_phases.specs.Cells.{MergesJournals, IsBetween};
ghost use Rattle.law_phases.specs.Moments.{opening_moment};
ghost use Rattle.law_phases.specs.Runs.{IsPhasedRun};
ghost use Rattle.law_phases.specs.Trees.{JournalEntry, State, PhasedNet};
ghost use Rattle.net_model.specs.Real.{real};
ghost use Rattle.net_model.specs.Meaning.{journal_of};
ghost use Rattle.net_model.specs.Parts.{EntryParts};
ghost use Rattle.net_journal.specs.Merging.{AreServerJournals, IsJournalOf, IsMergeOf, entries_in, journals_in};

/// The journal of a server is what the laws of runs call so, whatever the net.
pub fn journal_in_runs()
    ensures { (net : Net real) (server : ℕ) (entries : List EntryParts)
        → IsJournal (routing_machine real net) server (entries_in net entries) ↔ IsJournalOf server entries }
{}

/// Journals that have a merge in the runs of a net are journals that may be merged, and the merged one is that merge and no other.
pub fn merge_in_runs()
    ensures may { (net : PhasedNet real) (journals : List (List EntryParts)) (sofar : List JournalEntry)
        → MergesJournals real net (journals_in journals) sofar → AreServerJournals journals }
    ensures is { (net : PhasedNet real) (journals : List (List EntryParts)) (merged : List EntryParts)
        → IsMergeOf journals merged → MergesJournals real net (journals_in journals) (journal_of merged) }
    ensures once { (net : PhasedNet real) (journals : List (List EntryParts)) (merged : List EntryParts) (sofar : List JournalEntry)
        → IsMergeOf journals merged → MergesJournals real net (journals_in journals) sofar → sofar ≡ journal_of merged }
{}

/// Where the servers' journals are those of a run between two phases, the merged journal is that run.
pub fn merged_is_the_run()
    ensures { (net : PhasedNet real) (journals : List (List EntryParts)) (merged : List EntryParts) → IsMergeOf journals merged
        → (end : State real) (last next : ℕ) (sofar : List JournalEntry)
        → IsBetween real net end last next sofar (journals_in journals)
        → IsPhasedRun real net (opening_moment real net).state 0 (journal_of merged) end last }
{}
