//! States the laws of runs, at the servers of any hierarchy.

ghost use Rattle.std.specs.Prelude.{◌≡◌, ◌≤◌, ◌++◌, ℕ, suc, List, [], ◌∷◌, length, Some, slice_get};
ghost use Rattle.law_machine.specs.Machine.{act_phase, Act};
ghost use Rattle.law_machine.specs.Network.{IsStep, turn, entry_at};
ghost use Rattle.law_machine.specs.Runs.{IsReady, IsPermitted, IsRun};
ghost use Rattle.law_machine.specs.History.{Moment, Happens, PutsMessages, state_at, phase_at};
ghost use Rattle.law_machine.specs.Walk.{Turn, turns_of, entries_by, moment_by, IsWalkable};
ghost use Rattle.law_routing.specs.Net.{Net};
ghost use Rattle.law_routing.specs.Step.{Task};
ghost use Rattle.law_hierarchy.specs.Step.{hierarchy_machine, Hierarchy, HierarchyEntry};

use law_routing::Matching;

/// A run is fixed by its turns: two runs from one state whose servers and acts are the same have the same entries.
pub fn fixed_by_turns<M: Matching>()
    ensures { (net : Net M.theory) (start : Hierarchy M.theory net) (first : ℕ) (entries others : List (HierarchyEntry M.theory net))
        → (end other : Hierarchy M.theory net) (last otherwise : ℕ)
        → IsRun (hierarchy_machine M.theory net) start first entries end last
        → IsRun (hierarchy_machine M.theory net) start first others other otherwise
        → turns_of (hierarchy_machine M.theory net) entries ≡ turns_of (hierarchy_machine M.theory net) others → entries ≡ others }
{}

/// A run is fixed by its entries: its end and the phase of its last command are one.
pub fn fixed_by_entries<M: Matching>()
    ensures { (net : Net M.theory) (start : Hierarchy M.theory net) (first : ℕ) (entries : List (HierarchyEntry M.theory net))
        → (end other : Hierarchy M.theory net) (last otherwise : ℕ)
        → IsRun (hierarchy_machine M.theory net) start first entries end last
        → IsRun (hierarchy_machine M.theory net) start first entries other otherwise
        → (end ≡ other) × (last ≡ otherwise) }
{}

/// Each beginning of a run is a run, and the rest goes on from it.
pub fn run_begins<M: Matching>()
    ensures { (net : Net M.theory) (start : Hierarchy M.theory net) (first : ℕ) (entries rest : List (HierarchyEntry M.theory net))
        → (end : Hierarchy M.theory net) (last : ℕ) → IsRun (hierarchy_machine M.theory net) start first (entries ++ rest) end last
        → (middle : Hierarchy M.theory net) × (now : ℕ) × IsRun (hierarchy_machine M.theory net) start first entries middle now
        × IsRun (hierarchy_machine M.theory net) middle now rest end last }
{}

/// A run grows by a step that the rule of phases lets.
pub fn run_grows<M: Matching>()
    ensures { (net : Net M.theory) (start : Hierarchy M.theory net) (first : ℕ) (entries : List (HierarchyEntry M.theory net))
        → (middle : Hierarchy M.theory net) (last : ℕ) (entry : HierarchyEntry M.theory net) (found end : Hierarchy M.theory net) (now : ℕ)
        → IsRun (hierarchy_machine M.theory net) start first entries middle last
        → IsReady (hierarchy_machine M.theory net) middle last
        (act_phase (hierarchy_machine M.theory net) entry.server (middle.state entry.server) entry.act) found now
        → IsStep (hierarchy_machine M.theory net) found entry end
        → IsRun (hierarchy_machine M.theory net) start first (entries ++ entry ∷ []) end now }
{}

/// The entry of an act, where it is possible, makes the step of the network by that act, and each step is made so.
pub fn entry_steps<M: Matching>()
    ensures makes { (net : Net M.theory) (network : Hierarchy M.theory net) (server : ℕ) (act : Act Task) (entry : HierarchyEntry M.theory net)
        → entry_at (hierarchy_machine M.theory net) network server act ≡ Some entry
        → (entry.server ≡ server) × (entry.act ≡ act)
        × IsStep (hierarchy_machine M.theory net) network entry (turn (hierarchy_machine M.theory net) network server act) }
    ensures made { (net : Net M.theory) (network : Hierarchy M.theory net) (entry : HierarchyEntry M.theory net) (next : Hierarchy M.theory net)
        → IsStep (hierarchy_machine M.theory net) network entry next
        → (entry_at (hierarchy_machine M.theory net) network entry.server entry.act ≡ Some entry)
        × (turn (hierarchy_machine M.theory net) network entry.server entry.act ≡ next) }
{}

/// A permitted turn happens as its entry records it, and what happens is a permitted turn.
pub fn permitted<M: Matching>()
    ensures happens { (net : Net M.theory) (network : Hierarchy M.theory net) (last server : ℕ) (act : Act Task)
        → (entry : HierarchyEntry M.theory net) (next : Hierarchy M.theory net) (now : ℕ)
        → IsPermitted (hierarchy_machine M.theory net) network last server act entry next now
        → (entry.server ≡ server) × (entry.act ≡ act) × Happens (hierarchy_machine M.theory net) network last entry next now }
    ensures only { (net : Net M.theory) (network : Hierarchy M.theory net) (last : ℕ) (entry : HierarchyEntry M.theory net)
        → (next : Hierarchy M.theory net) (now : ℕ) → Happens (hierarchy_machine M.theory net) network last entry next now
        → IsPermitted (hierarchy_machine M.theory net) network last entry.server entry.act entry next now }
{}

/// Each entry of a run puts its messages on its server's links, and records which neighbours got one.
pub fn messages<M: Matching>()
    ensures { (net : Net M.theory) (start : Hierarchy M.theory net) (first : ℕ) (entries : List (HierarchyEntry M.theory net))
        → (end : Hierarchy M.theory net) (last : ℕ) → IsRun (hierarchy_machine M.theory net) start first entries end last
        → (n : ℕ) (entry : HierarchyEntry M.theory net) → slice_get entries n ≡ Some entry
        → PutsMessages (hierarchy_machine M.theory net) (state_at (hierarchy_machine M.theory net) start first entries n) entry
        (state_at (hierarchy_machine M.theory net) start first entries (suc n)) }
{}

/// The moments of a journal stay as they are when it grows.
pub fn moments_stay<M: Matching>()
    ensures { (net : Net M.theory) (start : Hierarchy M.theory net) (first : ℕ) (entries more : List (HierarchyEntry M.theory net)) (n : ℕ)
        → n ≤ length entries
        → (state_at (hierarchy_machine M.theory net) start first (entries ++ more) n ≡ state_at (hierarchy_machine M.theory net) start first entries n)
        × (phase_at (hierarchy_machine M.theory net) start first (entries ++ more) n ≡ phase_at (hierarchy_machine M.theory net) start first entries n) }
{}

/// The entries of turns that are tried within a phase are a legal run, which ends at the moment after the turns.
pub fn turns_run<M: Matching>()
    ensures { (net : Net M.theory) (phase : ℕ) (turns : List (Turn (hierarchy_machine M.theory net)))
        → (moment : Moment (hierarchy_machine M.theory net)) → IsWalkable (hierarchy_machine M.theory net) phase moment
        → IsRun (hierarchy_machine M.theory net) moment.network moment.phase
        (entries_by (hierarchy_machine M.theory net) phase moment turns)
        (moment_by (hierarchy_machine M.theory net) phase moment turns).network (moment_by (hierarchy_machine M.theory net) phase moment turns).phase
        × IsWalkable (hierarchy_machine M.theory net) phase (moment_by (hierarchy_machine M.theory net) phase moment turns) }
{}
