//! States the laws of runs and of journals, at the servers of any net.

ghost use Rattle.std.specs.Prelude.{◌≡◌, ◌≤◌, ◌++◌, ℕ, List, [], ◌∷◌, length, Some, slice_get};
ghost use Rattle.base.specs.Numbers.{IsDistinct};
ghost use Rattle.law_machine.specs.Machine.{Act};
ghost use Rattle.law_machine.specs.Network.{IsStep, turn, entry_at};
ghost use Rattle.law_machine.specs.Runs.{IsPermitted, IsRun, IsQuiet, IsThrough, IsRunInTwo};
ghost use Rattle.law_machine.specs.Journals.{Cell, AreJournals, HaveMerge, IsMerge, IsPhaseRun, IsPhaseInHand, IsPhaseEnded, network_of};
ghost use Rattle.law_machine.specs.Journals.{StandsAtOpening, BetweenPhases, NextPhase, HasGoneOn, HaveStampsUpTo};
ghost use Rattle.law_machine.specs.History.{Moment, Happens, state_at, phase_at, PutsMessagesAt};
ghost use Rattle.law_machine.specs.Walk.{Turn, turns_of, IsWalkable, IsRunByTurns};
ghost use Rattle.law_routing.specs.Net.{Net};
ghost use Rattle.law_routing.specs.Step.{Task};
ghost use Rattle.law_routing.specs.Routing.{routing_machine, Network, NetEntry, NetRun, opening, empty_server};

use super::Matching;

/// A run is fixed by its turns: two runs from one state whose servers and acts are the same have the same entries.
pub fn fixed_by_turns<M: Matching>()
    ensures { (net : Net M.theory) (run : NetRun M.theory net) (others : List (NetEntry M.theory net)) (other : Network M.theory net) (otherwise : ℕ)
        → IsRun (routing_machine M.theory net) run.start run.first others other otherwise
        → turns_of (routing_machine M.theory net) run.entries ≡ turns_of (routing_machine M.theory net) others → run.entries ≡ others }
{}

/// A run is fixed by its entries: its end and the phase of its last command are one.
pub fn fixed_by_entries<M: Matching>()
    ensures { (net : Net M.theory) (run : NetRun M.theory net) (other : Network M.theory net) (otherwise : ℕ)
        → IsRun (routing_machine M.theory net) run.start run.first run.entries other otherwise
        → (run.end ≡ other) × (run.last ≡ otherwise) }
{}

/// Each beginning of a run is a run, and the rest goes on from it.
pub fn run_begins<M: Matching>()
    ensures { (net : Net M.theory) (start : Network M.theory net) (first : ℕ) (entries rest : List (NetEntry M.theory net))
        → (end : Network M.theory net) (last : ℕ) → IsRun (routing_machine M.theory net) start first (entries ++ rest) end last
        → IsRunInTwo (routing_machine M.theory net) start first entries rest end last }
{}

/// A run grows by a step that the rule of phases lets.
pub fn run_grows<M: Matching>()
    ensures { (net : Net M.theory) (run : NetRun M.theory net) (entry : NetEntry M.theory net) (next : Network M.theory net) (now : ℕ)
        → Happens (routing_machine M.theory net) run.end run.last entry next now
        → IsRun (routing_machine M.theory net) run.start run.first (run.entries ++ entry ∷ []) next now }
{}

/// The entry of an act, where it is possible, makes the step of the network by that act, and each step is made so.
pub fn entry_steps<M: Matching>()
    ensures makes { (net : Net M.theory) (network : Network M.theory net) (server : ℕ) (act : Act Task) (entry : NetEntry M.theory net)
        → entry_at (routing_machine M.theory net) network server act ≡ Some entry
        → (entry.server ≡ server) × (entry.act ≡ act)
        × IsStep (routing_machine M.theory net) network entry (turn (routing_machine M.theory net) network server act) }
    ensures made { (net : Net M.theory) (network : Network M.theory net) (entry : NetEntry M.theory net) (next : Network M.theory net)
        → IsStep (routing_machine M.theory net) network entry next
        → (entry_at (routing_machine M.theory net) network entry.server entry.act ≡ Some entry)
        × (turn (routing_machine M.theory net) network entry.server entry.act ≡ next) }
{}

/// A permitted turn happens as its entry records it, and what happens is a permitted turn.
pub fn permitted<M: Matching>()
    ensures happens { (net : Net M.theory) (network : Network M.theory net) (last server : ℕ) (act : Act Task) (entry : NetEntry M.theory net)
        → (next : Network M.theory net) (now : ℕ) → IsPermitted (routing_machine M.theory net) network last server act entry next now
        → (entry.server ≡ server) × (entry.act ≡ act) × Happens (routing_machine M.theory net) network last entry next now }
    ensures only { (net : Net M.theory) (network : Network M.theory net) (last : ℕ) (entry : NetEntry M.theory net)
        → (next : Network M.theory net) (now : ℕ) → Happens (routing_machine M.theory net) network last entry next now
        → IsPermitted (routing_machine M.theory net) network last entry.server entry.act entry next now }
{}

/// Each entry of a run puts its messages on its server's links, and records which neighbours got one.
pub fn messages<M: Matching>()
    ensures { (net : Net M.theory) (run : NetRun M.theory net) (n : ℕ) (entry : NetEntry M.theory net) → slice_get run.entries n ≡ Some entry
        → PutsMessagesAt (routing_machine M.theory net) run n entry }
{}

/// The moments of a journal stay as they are when it grows.
pub fn moments_stay<M: Matching>()
    ensures { (net : Net M.theory) (start : Network M.theory net) (first : ℕ) (entries more : List (NetEntry M.theory net)) (n : ℕ) → n ≤ length entries
        → (state_at (routing_machine M.theory net) start first (entries ++ more) n ≡ state_at (routing_machine M.theory net) start first entries n)
        × (phase_at (routing_machine M.theory net) start first (entries ++ more) n ≡ phase_at (routing_machine M.theory net) start first entries n) }
{}

/// The entries of turns that are tried within a phase are a legal run, which ends at the moment after the turns.
pub fn turns_run<M: Matching>()
    ensures { (net : Net M.theory) (phase : ℕ) (turns : List (Turn (routing_machine M.theory net))) (moment : Moment (routing_machine M.theory net))
        → IsWalkable (routing_machine M.theory net) phase moment → IsRunByTurns (routing_machine M.theory net) phase turns moment }
{}

/// Rising journals of distinct servers have one merge.
pub fn one_merge<M: Matching>()
    ensures some { (net : Net M.theory) → IsDistinct net.servers → (journals : ℕ → List (NetEntry M.theory net))
        → AreJournals (routing_machine M.theory net) net.servers journals → HaveMerge (routing_machine M.theory net) journals }
    ensures once { (net : Net M.theory) (journals : ℕ → List (NetEntry M.theory net)) (merged other : List (NetEntry M.theory net))
        → IsMerge (routing_machine M.theory net) journals merged → IsMerge (routing_machine M.theory net) journals other → merged ≡ other }
{}

/// The merge of the servers' journals of a phase is a run of the network within that phase.
pub fn merge_runs<M: Matching>()
    ensures { (net : Net M.theory) (phase : ℕ) (cells ends : ℕ → Cell (routing_machine M.theory net))
        → (journals : ℕ → List (NetEntry M.theory net)) (merged : List (NetEntry M.theory net))
        → IsPhaseInHand (routing_machine M.theory net) phase cells journals merged ends
        → IsPhaseRun (routing_machine M.theory net) phase (network_of (routing_machine M.theory net) cells) merged
        (network_of (routing_machine M.theory net) ends) }
{}

/// At the opening nothing has been done, and the cells are those of the opening.
pub fn opening_stands<M: Matching>()
    ensures { (net : Net M.theory) → StandsAtOpening (routing_machine M.theory net) (λ server. empty_server M.theory net) }
{}

/// Where all cells are in hand and the phase is ended, its journals go on from the run so far, and the merges one after the other are the merge of the whole.
pub fn phase_goes_on<M: Matching>()
    ensures { (net : Net M.theory) (between : BetweenPhases (routing_machine M.theory net)) (phase : NextPhase (routing_machine M.theory net) between)
        → IsPhaseEnded (routing_machine M.theory net) between.next phase.ends → HasGoneOn (routing_machine M.theory net) between phase }
{}

/// With all cells in hand no clock and no message has a stamp above the number of entries.
pub fn not_worn<M: Matching>()
    ensures { (net : Net M.theory) (between : BetweenPhases (routing_machine M.theory net)) → between.opening ≡ opening M.theory net
        → (phase : NextPhase (routing_machine M.theory net) between)
        → HaveStampsUpTo (routing_machine M.theory net) (length (between.sofar ++ phase.merged)) phase.ends }
{}

/// The merge of the whole journals is a run that ends quiet.
pub fn whole_run<M: Matching>()
    ensures { (net : Net M.theory) (between : BetweenPhases (routing_machine M.theory net)) (merged : List (NetEntry M.theory net))
        → IsMerge (routing_machine M.theory net) between.journals merged
        → IsRun (routing_machine M.theory net) between.opening 0 merged between.network between.last
        × IsQuiet (routing_machine M.theory net) between.network × IsThrough (routing_machine M.theory net) between.network between.next }
{}
