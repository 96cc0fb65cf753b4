//! Runs of a network of servers: stamps, phases, the merge of journals, bounds, moments and turns, over any local step.
ghost use Rattle.std.specs.Prelude.{◌≡◌, ◌≤◌, ◌<◌, ◌+◌, ℕ, List, [], ◌++◌, length, Some, slice_get, ◌∷◌};
ghost use Rattle.base.specs.Sets.{Has};
ghost use Rattle.base.specs.Numbers.{IsDistinct};
ghost use Rattle.law_machine.specs.Machine.{Act, Entry, entry_of};
ghost use Rattle.law_machine.specs.Network.{NetworkState, PossibleAct, PossibleReception, IsStep, network_after, after_reception};
ghost use Rattle.law_machine.specs.Runs.{IsPermitted, IsRun, IsRunInTwo, Run, IsQuiet, IsThrough, MachineLaws, HasStampsUpTo, IsWithinPuts};
ghost use Rattle.law_machine.specs.Journals.{Cell, AreJournals, HaveMerge, IsMerge, IsPhaseRun, IsPhaseInHand, IsPhaseEnded, network_of};
ghost use Rattle.law_machine.specs.Journals.{IsUntouched, StandsAtOpening, BetweenPhases, NextPhase, HasGoneOn, HaveStampsUpTo};
ghost use Rattle.law_machine.specs.History.{Moment, Happens, HappensAt, PutsMessagesAt, state_at, phase_at, run_state};
ghost use Rattle.law_machine.specs.Load.{Measure, MeasureLaws, BeginsQuiet, IsBoundedByCommands, load, commands, remaining};
ghost use Rattle.law_machine.specs.Begin.{BeginLaws, AfterPhase, BegunPhase, HasBegun};
ghost use Rattle.law_machine.specs.Content.{ContentLaws, HasMutualLinks, IsSentKept, number_content};
ghost use Rattle.law_machine.specs.Walk.{Turn, turns_of, IsRunByTurns, IsWalkable, IsPlan, IsIdle, rounds, work_left};

/// A machine: the step of one server, whatever it does.
pub trait LocalStep {
    ghost use Rattle.law_machine.specs.Machine.{Machine};

    ghost machine: { Machine };
}

/// A least machine: a server adds up the numbers that it gets, and sends each to its neighbours.
pub struct Counting;

impl LocalStep for Counting {
    ghost use Rattle.law_machine.specs.Counting.{counting};

    ghost machine = { counting };
}

/// A run is fixed by its entries: its end and the phase of its last command are one.
pub fn run_fixed<M: LocalStep>()
    ensures { (run : Run M.machine) (other : NetworkState M.machine) (otherwise : ℕ) → IsRun M.machine run.start run.first run.entries other otherwise
        → (run.end ≡ other) × (run.last ≡ otherwise) }
{}

/// A run is fixed by its turns: two runs from one state whose servers and acts are the same have the same entries.
pub fn fixed_by_turns<M: LocalStep>()
    ensures { (run : Run M.machine) (others : List (Entry M.machine)) (other : NetworkState M.machine) (otherwise : ℕ)
        → IsRun M.machine run.start run.first others other otherwise
        → turns_of M.machine run.entries ≡ turns_of M.machine others → run.entries ≡ others }
{}

/// Each beginning of a run is a run, and the rest goes on from it.
pub fn run_begins<M: LocalStep>()
    ensures { (start : NetworkState M.machine) (first : ℕ) (entries rest : List (Entry M.machine)) (end : NetworkState M.machine) (last : ℕ)
        → IsRun M.machine start first (entries ++ rest) end last
        → IsRunInTwo M.machine start first entries rest end last }
{}

/// A run grows by a step that the rule of phases lets, and an act that is possible makes one.
pub fn grows<M: LocalStep>()
    ensures run { (run : Run M.machine) (entry : Entry M.machine) (next : NetworkState M.machine) (now : ℕ) → Happens M.machine run.end run.last entry next now
        → IsRun M.machine run.start run.first (run.entries ++ entry ∷ []) next now }
    ensures step { (network : NetworkState M.machine) (server : ℕ) (act : Act M.machine.Task) (possible : PossibleAct M.machine network server act)
        → IsStep M.machine network (entry_of M.machine server (network.clock server) possible.input possible.outcome)
        (network_after M.machine network server possible.input possible.outcome) }
{}

/// A run's entry happens between its two moments, as the rule of phases lets it, and the run ends at its last moment.
pub fn happens<M: LocalStep>()
    ensures each { (run : Run M.machine) (n : ℕ) (entry : Entry M.machine) → slice_get run.entries n ≡ Some entry → HappensAt M.machine run n entry }
    ensures end { (run : Run M.machine) → run_state M.machine run (length run.entries) ≡ run.end }
{}

/// A permitted turn happens as its entry records it, and what happens is a permitted turn.
pub fn permitted<M: LocalStep>()
    ensures happens { (network : NetworkState M.machine) (last server : ℕ) (act : Act M.machine.Task) (entry : Entry M.machine)
        → (next : NetworkState M.machine) (now : ℕ) → IsPermitted M.machine network last server act entry next now
        → (entry.server ≡ server) × (entry.act ≡ act) × Happens M.machine network last entry next now }
    ensures only { (network : NetworkState M.machine) (last : ℕ) (entry : Entry M.machine) (next : NetworkState M.machine) (now : ℕ)
        → Happens M.machine network last entry next now
        → IsPermitted M.machine network last entry.server entry.act entry next now }
{}

/// Each entry of a run puts its messages on its server's links, and records which neighbours got one.
pub fn messages<M: LocalStep>()
    ensures { (run : Run M.machine) (n : ℕ) (entry : Entry M.machine) → slice_get run.entries n ≡ Some entry → PutsMessagesAt M.machine run n entry }
{}

/// The moments of a journal stay as they are when it grows.
pub fn moments_stay<M: LocalStep>()
    ensures { (start : NetworkState M.machine) (first : ℕ) (entries more : List (Entry M.machine)) (n : ℕ) → n ≤ length entries
        → (state_at M.machine start first (entries ++ more) n ≡ state_at M.machine start first entries n)
        × (phase_at M.machine start first (entries ++ more) n ≡ phase_at M.machine start first entries n) }
{}

/// The stamps of a run pass those before it by no more than its entries.
pub fn stamps_low<M: LocalStep>()
    ensures { (n : ℕ) (run : Run M.machine) → HasStampsUpTo M.machine n run.start
        → HasStampsUpTo M.machine (n + length run.entries) run.end
        × ((entry : Entry M.machine) → Has entry run.entries → entry.stamp ≤ n + length run.entries) }
{}

/// A reception makes the load lighter.
pub fn lighter<M: LocalStep>()
    ensures { (measure : Measure M.machine) → MeasureLaws M.machine measure → (network : NetworkState M.machine) → IsWithinPuts M.machine network
        → (reception : PossibleReception M.machine network)
        → load M.machine measure (after_reception M.machine network reception) + 1 ≤ load M.machine measure network }
{}

/// From a state with nothing on its way and nothing pending, the commands and the servers bound the receptions and the entries.
pub fn bounded<M: LocalStep>()
    ensures { (measure : Measure M.machine) → MeasureLaws M.machine measure → (run : Run M.machine) → BeginsQuiet M.machine measure run
        → IsBoundedByCommands M.machine measure run.entries }
{}

/// A run executes no more commands than are left.
pub fn commands_left<M: LocalStep>()
    ensures { (measure : Measure M.machine) → MeasureLaws M.machine measure → (run : Run M.machine)
        → commands M.machine measure run.entries + remaining M.machine measure run.end ≤ remaining M.machine measure run.start }
{}

/// Laws of one server's step keep, all along a run, that what is held of a link, with what is on its way, is what was sent.
pub fn kept_all<M: LocalStep>()
    ensures { (sent held : ℕ → M.machine.State → ℕ → List ℕ) (apply : List ℕ → M.machine.Message → List ℕ)
        → ContentLaws M.machine (number_content M.machine sent held apply) → HasMutualLinks M.machine
        → (run : Run M.machine) → IsSentKept M.machine (number_content M.machine sent held apply) run.start
        → IsSentKept M.machine (number_content M.machine sent held apply) run.end }
{}

/// Rounds of receptions and table updates come to an end at which none is possible.
pub fn rounds_end<M: LocalStep>()
    ensures { (measure : Measure M.machine) → MeasureLaws M.machine measure → (n : ℕ) (network : NetworkState M.machine) (plan : List (Turn M.machine))
        → IsWithinPuts M.machine network → IsPlan M.machine measure plan → work_left M.machine measure network < n
        → IsIdle M.machine (rounds M.machine n plan network) plan }
{}

/// The entries of turns that are tried within a phase are a legal run, which ends at the moment after the turns.
pub fn turns_run<M: LocalStep>()
    ensures { MachineLaws M.machine → (phase : ℕ) (turns : List (Turn M.machine)) (moment : Moment M.machine) → IsWalkable M.machine phase moment
        → IsRunByTurns M.machine phase turns moment }
{}

/// Rising journals have a merge.
pub fn one_merge<M: LocalStep>()
    ensures { (servers : List ℕ) → IsDistinct servers → (journals : ℕ → List (Entry M.machine)) → AreJournals M.machine servers journals
        → HaveMerge M.machine journals }
{}

/// Two merges of the same journals are one list.
pub fn once<M: LocalStep>()
    ensures { (journals : ℕ → List (Entry M.machine)) (merged other : List (Entry M.machine))
        → IsMerge M.machine journals merged → IsMerge M.machine journals other → merged ≡ other }
{}

/// The merge of the servers' journals of a phase is a run of the network within that phase.
pub fn merges<M: LocalStep>()
    ensures { (phase : ℕ) (cells ends : ℕ → Cell M.machine) (journals : ℕ → List (Entry M.machine)) (merged : List (Entry M.machine))
        → IsPhaseInHand M.machine phase cells journals merged ends
        → IsPhaseRun M.machine phase (network_of M.machine cells) merged (network_of M.machine ends) }
{}

/// At the opening nothing has been done.
pub fn opening<M: LocalStep>()
    ensures { (start : ℕ → M.machine.State) → IsUntouched M.machine start → StandsAtOpening M.machine start }
{}

/// Where all cells are in hand and the phase is ended, its journals go on from the run so far, and the merges one after the other are the merge of the whole.
pub fn goes_on<M: LocalStep>()
    ensures { MachineLaws M.machine → (between : BetweenPhases M.machine) (phase : NextPhase M.machine between)
        → IsPhaseEnded M.machine between.next phase.ends
        → HasGoneOn M.machine between phase }
{}

/// With all cells in hand and settled, no clock and no message has a stamp above the number of entries.
pub fn not_worn<M: LocalStep>()
    ensures { MachineLaws M.machine → (between : BetweenPhases M.machine) → HasStampsUpTo M.machine 0 between.opening
        → (phase : NextPhase M.machine between) → HaveStampsUpTo M.machine (length (between.sofar ++ phase.merged)) phase.ends }
{}

/// The merge of the whole journals is a run that ends quiet.
pub fn whole_run<M: LocalStep>()
    ensures { (between : BetweenPhases M.machine) (merged : List (Entry M.machine)) → IsMerge M.machine between.journals merged
        → IsRun M.machine between.opening 0 merged between.network between.last
        × IsQuiet M.machine between.network × IsThrough M.machine between.network between.next }
{}

/// A phase that begins by any change of the network goes on from the run so far.
pub fn begun_phase<M: LocalStep>()
    ensures { MachineLaws M.machine → (begin : ℕ → ℕ → NetworkState M.machine → NetworkState M.machine) → BeginLaws M.machine begin
        → (after : AfterPhase M.machine begin) (begun : BegunPhase M.machine begin after) → HasBegun M.machine begin after begun }
{}
