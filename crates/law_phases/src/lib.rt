//! Layer: law.
//! Job: runs over trees by phase: a journal goes over one tree after the other, and the laws of runs hold of the whole. Pure.
//! Users: law_examples, and the layers from net upward.
//!
//! A net has a first tree and later ones with their first phases (`PhasedNet`). A run begins at the opening and goes
//! over one tree after the other (`PhasedRun`). The first command of a later phase finds the network set on the tree of
//! that phase, where that is another one, and otherwise with raised clocks.
//!
//! Where all phases have one tree, runs, moments and the walk are those of `law_routing` (`one_tree`). So nets of one
//! tree need no second theory.
#![tactic(auto)]

ghost use Rattle.std.specs.Prelude.{true, false, ◌≡◌, ◌↔◌, ◌≤◌, ◌<◌, ℕ, suc, List, [], ◌∷◌, ◌++◌, length, take, slice_get, Option, Some};
ghost use Rattle.base.specs.Sets.{Has};
ghost use Rattle.law_machine.specs.Machine.{Did, Received};
ghost use Rattle.law_routing.specs.Net.{NetLaws};
ghost use Rattle.law_routing.specs.Server.{Publication};
ghost use Rattle.law_routing.specs.Order.{IsStrictlyRising};
ghost use Rattle.law_routing.specs.Step.{NextCommand, TableUpdate};
ghost use Rattle.law_routing.specs.Example.{numbers};
ghost use Rattle.law_phases.specs.Trees.{JournalEntry, PhasedNet, PhasedNetLaws, net_at, at_phase};
ghost use Rattle.law_phases.specs.Moments.{Moment, opening_moment, as_found, moment_after, moment_of, found_of};
ghost use Rattle.law_phases.specs.Runs.{Turn, Finds, IsRunTo, IsPhasedStep, GoesThrough, SameTurns, PhasedRun};
ghost use Rattle.law_phases.specs.Turns.{IsPermittedTurn};
ghost use Rattle.law_phases.specs.Walk.{walk_of};
ghost use Rattle.law_phases.specs.AtMoments.{states, moment_at, end_moment, HappensAt, PutsMessagesAt, seen, BeginsPhase, IsQuietAt};
ghost use Rattle.law_phases.specs.AtMoments.{IsAtRestAt, IsFoundAtRest, KeepsClients, inbox_at, inbox_of};
ghost use Rattle.law_phases.specs.AtMoments.{EndsQuiet, EndsThrough, EndsDrained, WalkDrains, DrainsBy, AllBelow};
ghost use Rattle.law_phases.specs.Owing.{IsOwedByScripts, IsDueByScripts, IsAllowedByScripts, IsStableByScripts};
ghost use Rattle.law_phases.specs.Routes.{Routed, IsPublished, IsSentTo, IsOnward, IsWanted, IsDelivered, IsInForce};
ghost use Rattle.law_phases.specs.Routes.{PassTwo, ordinals_given, ordinals_sent, times_given, IsAuthenticAt, IsDeliveredOnce};
ghost use Rattle.law_phases.specs.Sequence.{AreByPhase, HappensBefore, PassesBefore, PassBehind, AreGivenInOrder};
ghost use Rattle.law_phases.specs.Economy.{AreClients, CarriesNoMore, CarriesAsManyWhereDue};
ghost use Rattle.law_phases.specs.Settled.{IsWayFromHome, IsSettledFromHome, IsSettledTo, IsSettledOn, IsAllReceivedBy, IsDeliveredOnceBy};
ghost use Rattle.law_phases.specs.Looking.{IsLinkAt, back_at, calm_at, as_of_at, filters_sent, adverts_sent, LooksBack};
ghost use Rattle.law_phases.specs.Looking.{IsQuietLink, HoldsRoots, filters_flowing, adverts_flowing, IsSameTree, HoldsStill, IsInterface};
ghost use Rattle.law_phases.specs.OneTree.{HasOneTree, IsRunOnTree, state_on_tree, walk_off_tree};
ghost use Rattle.law_phases.specs.Bounds.{KeepsBounds};
ghost use Rattle.law_phases.specs.Cells.{IsBetween, PhaseDone, end_after, entries_after, journals_after};
ghost use Rattle.law_phases.specs.Example.{line_then_star, star_walk, entry, publication};

use law_routing::Matching;

pub mod flooding;

/// On the tree of each phase it is a net.
pub fn each_net<M: Matching>()
    ensures { (net : PhasedNet M.theory) → PhasedNetLaws M.theory net → (phase : ℕ) → NetLaws M.theory (net_at M.theory net phase) }
{}

/// A run's last moment is its end.
pub fn last_moment<M: Matching>()
    ensures { (run : PhasedRun M.theory) → moment_at M.theory run (length run.journal) ≡ end_moment M.theory run }
{}

/// Each beginning of a run is a run, to its moment, and the rest goes on from it.
pub fn run_begins<M: Matching>()
    ensures to { (run : PhasedRun M.theory) (n : ℕ)
        → IsRunTo M.theory run.net (opening_moment M.theory run.net) (take n run.journal) (moment_at M.theory run n) }
    ensures rest { (net : PhasedNet M.theory) (before after : Moment M.theory net) (entries rest : List JournalEntry)
        → IsRunTo M.theory net before (entries ++ rest) after
        → GoesThrough M.theory net before entries rest after }
{}

/// The moments of a journal stay as they are when it grows.
pub fn moments_stay<M: Matching>()
    ensures after { (net : PhasedNet M.theory) (entries more : List JournalEntry) (n : ℕ) → n ≤ length entries
        → moment_of M.theory net (entries ++ more) n ≡ moment_of M.theory net entries n }
    ensures found { (net : PhasedNet M.theory) (entries more : List JournalEntry) (n : ℕ) → n < length entries
        → found_of M.theory net (entries ++ more) n ≡ found_of M.theory net entries n }
{}

/// A run is fixed by its turns: two runs from one moment whose servers and acts are the same have the same entries and one end.
pub fn fixed_by_turns<M: Matching>()
    ensures entries { (net : PhasedNet M.theory) (runs : SameTurns M.theory net) → runs.entries ≡ runs.others }
    ensures end { (net : PhasedNet M.theory) (runs : SameTurns M.theory net) → runs.after ≡ runs.otherwise }
{}

/// Each entry of a run happens between its moments: the rule of phases lets it find what it finds, and its step is made on the tree of its phase.
pub fn happens<M: Matching>()
    ensures { (run : PhasedRun M.theory) (n : ℕ) (entry : JournalEntry) → slice_get run.journal n ≡ Some entry → HappensAt M.theory run n entry }
{}

/// A permitted turn happens as its entry records it, and what happens is a permitted turn; what the rule of phases lets an act find is what it finds.
pub fn permitted<M: Matching>()
    ensures tells { (net : PhasedNet M.theory) (before after : Moment M.theory net) (turn : Turn) (entry : JournalEntry)
        → IsPermittedTurn M.theory net before turn entry after
        → (entry.server ≡ turn.0) × (entry.act ≡ turn.1) }
    ensures happens { (net : PhasedNet M.theory) (before after : Moment M.theory net) (turn : Turn) (entry : JournalEntry)
        → (permitted : IsPermittedTurn M.theory net before turn entry after) → IsPhasedStep M.theory net before permitted.found after entry }
    ensures only { (net : PhasedNet M.theory) (before found after : Moment M.theory net) (entry : JournalEntry)
        → IsPhasedStep M.theory net before found after entry
        → IsPermittedTurn M.theory net before (entry.server, entry.act) entry after }
    ensures found { (net : PhasedNet M.theory) (before found : Moment M.theory net) (own : Option ℕ) → Finds M.theory net before own found
        → as_found M.theory net before own ≡ found }
{}

/// A run grows by what happens.
pub fn run_grows<M: Matching>()
    ensures { (net : PhasedNet M.theory) (before middle found after : Moment M.theory net) (entries : List JournalEntry) (entry : JournalEntry)
        → IsRunTo M.theory net before entries middle → IsPhasedStep M.theory net middle found after entry
        → IsRunTo M.theory net before (entries ++ entry ∷ []) after }
{}

/// Each entry of a run puts its messages on its server's links, and records which neighbours got one.
pub fn messages<M: Matching>()
    ensures { (run : PhasedRun M.theory) (n : ℕ) (entry : JournalEntry) → slice_get run.journal n ≡ Some entry → PutsMessagesAt M.theory run n entry }
{}

/// Where all phases have one tree, the runs over trees, their moments and the walk are those of the net on that tree.
pub fn one_tree<M: Matching>()
    ensures runs { (net : PhasedNet M.theory) (phase : ℕ) → HasOneTree M.theory net phase → (before after : Moment M.theory net) (entries : List JournalEntry)
        → IsRunTo M.theory net before entries after ↔ IsRunOnTree M.theory net phase before entries after }
    ensures states { (net : PhasedNet M.theory) (phase : ℕ) → HasOneTree M.theory net phase
        → (before : Moment M.theory net) (entries : List JournalEntry) (n : ℕ)
        → at_phase M.theory net phase (moment_after M.theory net before entries n).state ≡ state_on_tree M.theory net phase before entries n }
    ensures walk { (net : PhasedNet M.theory) (phase : ℕ) → HasOneTree M.theory net phase → (phases : ℕ) (moment : Moment M.theory net)
        → walk_of M.theory net phases moment ≡ walk_off_tree M.theory net phase phases moment }
{}

/// The receptions, the table updates, the entries and the stamps of every run are bounded by the commands and the servers.
pub fn bounded<M: Matching>()
    ensures { (run : PhasedRun M.theory) → KeepsBounds M.theory run }
{}

/// The beginning of a phase keeps how many of the clients' commands were executed and what was delivered to them.
pub fn keeps_clients<M: Matching>()
    ensures { (run : PhasedRun M.theory) (n server : ℕ) → KeepsClients M.theory run n server }
{}

/// Nothing is delivered twice.
pub fn never_twice<M: Matching>()
    ensures { (run : PhasedRun M.theory) (n server client publisher ordinal : ℕ) → times_given M.theory run n server client publisher ordinal ≤ 1 }
{}

/// Of one publisher, each client's deliveries stand in the order of the ordinals.
pub fn delivered_in_order<M: Matching>()
    ensures { (run : PhasedRun M.theory) (n publisher server client : ℕ) → IsStrictlyRising (ordinals_given M.theory run n publisher server client) }
{}

/// In a client's deliveries, at any moment, the phases of the publications never fall: what comes behind a barrier is delivered behind what came before.
pub fn delivered_by_phase<M: Matching>()
    ensures { (run : PhasedRun M.theory) (n server client : ℕ) → AreByPhase M.theory run.net (inbox_at M.theory run n server client) }
{}

/// A publication passes each server, and is given to each client, before all that was published behind it: at its own publisher, by a client that had
/// been given it, or further along a chain of such.
pub fn causal_order<M: Matching>()
    ensures routed { (run : PhasedRun M.theory) (two : PassBehind M.theory run) → two.one.moment < two.other.moment }
    ensures behind { (run : PhasedRun M.theory) (one : Publication M.theory) (between : List (Publication M.theory)) (other : Publication M.theory)
        → PassesBefore M.theory run one between other → (n server client : ℕ) → AreGivenInOrder M.theory run n server client one other }
    ensures knowing { (run : PhasedRun M.theory) (one : Publication M.theory) (between : List (Publication M.theory)) (other : Publication M.theory)
        → HappensBefore M.theory run one between other → (n server client : ℕ) → AreGivenInOrder M.theory run n server client one other }
{}

/// One publisher's notices stand on each link of the tree in force in the order of their ordinals, and so once.
pub fn put_in_order<M: Matching>()
    ensures { (run : PhasedRun M.theory) (n publisher from to : ℕ) → IsStrictlyRising (ordinals_sent M.theory run n publisher from to) }
{}

/// What an entry routes is an accepted publication of the entry's phase.
pub fn routes_publication<M: Matching>()
    ensures { (run : PhasedRun M.theory) (routed : Routed M.theory run) → IsPublished M.theory run routed }
{}

/// One publisher's notices pass each server in the order of their ordinals, and so once, over all trees.
pub fn routed_in_order<M: Matching>()
    ensures { (run : PhasedRun M.theory) (two : PassTwo M.theory run) → two.earlier.publication.ordinal < two.later.publication.ordinal }
{}

/// What is on a link or in an inbox is the notice of an accepted publication, under its id.
pub fn authentic<M: Matching>()
    ensures { (run : PhasedRun M.theory) (n : ℕ) → IsAuthenticAt M.theory run n }
{}

/// What is delivered, at any moment of any run, is a publication that is allowed to the client.
pub fn delivered_allowed<M: Matching>()
    ensures { (run : PhasedRun M.theory) (n server client : ℕ) (publication : Publication M.theory) → Has client (run.net.clients server)
        → Has publication (inbox_at M.theory run n server client) → IsAllowedByScripts M.theory run.net publication client }
{}

/// Where all links are empty and nothing is pending, the network is at rest.
pub fn quiet_rests<M: Matching>()
    ensures { (run : PhasedRun M.theory) (n : ℕ) → IsQuietAt M.theory run n → IsAtRestAt M.theory run n }
{}

/// A publication that is settled wherever it passes on the way to a client, on the tree of its moment, and whose messages on that way are received where
/// that tree is still in force, is delivered to the client exactly once.
pub fn settled_delivery<M: Matching>()
    ensures { (run : PhasedRun M.theory) (publication : Publication M.theory) (client : ℕ) → IsSettledTo M.theory run publication client
        → IsDeliveredOnce M.theory run publication client }
{}

/// At any moment, a publication that is settled on its way to a client, and whose messages on that way are all received where that tree is still in force,
/// stands in the client's inbox exactly once.
pub fn settled_by<M: Matching>()
    ensures { (run : PhasedRun M.theory) (publication : Publication M.theory) (client : ℕ) (on_way : IsSettledOn M.theory run publication client) (n : ℕ)
        → IsAllReceivedBy M.theory run n publication client on_way → IsDeliveredOnceBy M.theory run n publication client }
{}

/// What an inbox has it keeps.
pub fn delivered_stays<M: Matching>()
    ensures { (run : PhasedRun M.theory) (n : ℕ) (entry : JournalEntry) → slice_get run.journal n ≡ Some entry
        → (server client : ℕ) (publication : Publication M.theory)
        → Has publication (inbox_at M.theory run n server client) → Has publication (inbox_at M.theory run (suc n) server client) }
{}

/// What is owed is due.
pub fn owed_due<M: Matching>()
    ensures { (run : PhasedRun M.theory) (publication : Publication M.theory) (client : ℕ) → IsOwedByScripts M.theory run.net publication client
        → IsDueByScripts M.theory run.net publication client }
{}

/// What is due is settled wherever it passes, along each way on the tree of any phase: the notice is ahead of each withdrawal that comes behind it.
pub fn due_settled<M: Matching>()
    ensures { (run : PhasedRun M.theory) (publication : Publication M.theory) (client : ℕ) → IsDueByScripts M.theory run.net publication client
        → (phase : ℕ) (path : List ℕ)
        → IsWayFromHome M.theory run phase publication path → IsSettledFromHome M.theory run phase publication client path }
{}

/// In a drained run what is due is delivered exactly once.
pub fn due_once<M: Matching>()
    ensures { (run : PhasedRun M.theory) → EndsDrained M.theory run → (publication : Publication M.theory) (client : ℕ)
        → IsDueByScripts M.theory run.net publication client
        → IsDeliveredOnce M.theory run publication client }
{}

/// What is owed is settled wherever it passes, along each way on the tree of any phase.
pub fn owed_settled<M: Matching>()
    ensures { (run : PhasedRun M.theory) (publication : Publication M.theory) (client : ℕ) → IsOwedByScripts M.theory run.net publication client
        → (phase : ℕ) (path : List ℕ)
        → IsWayFromHome M.theory run phase publication path → IsSettledFromHome M.theory run phase publication client path }
{}

/// In a drained run what is owed is delivered exactly once.
pub fn owed_once<M: Matching>()
    ensures { (run : PhasedRun M.theory) → EndsDrained M.theory run → (publication : Publication M.theory) (client : ℕ)
        → IsOwedByScripts M.theory run.net publication client
        → IsDeliveredOnce M.theory run publication client }
{}

/// Where all that is allowed to a client is owed to it, a drained run delivers to it exactly what flooding does.
pub fn stable_inputs<M: Matching>()
    ensures { (run : PhasedRun M.theory) → EndsDrained M.theory run → (client : ℕ) → IsStableByScripts M.theory run.net client
        → (publication : Publication M.theory) → Has publication (inbox_of M.theory run client) ↔ IsAllowedByScripts M.theory run.net publication client }
{}

/// Each phase of a run begins at rest, on the tree that was in force, and on its own.
pub fn begins_at_rest<M: Matching>()
    ensures before { (run : PhasedRun M.theory) (n : ℕ) → BeginsPhase M.theory run n → IsAtRestAt M.theory run n }
    ensures after { (run : PhasedRun M.theory) (n : ℕ) → BeginsPhase M.theory run n → IsFoundAtRest M.theory run n }
{}

/// What a server holds of a neighbour, filters and advertisements, is what the neighbour sent at the moment to look back to, which is of the same tree.
pub fn held_was_sent<M: Matching>()
    ensures filters { (run : PhasedRun M.theory) (m from to : ℕ) → IsLinkAt M.theory run m from to
        → ((seen M.theory run m).state to).subs from ≡ filters_sent M.theory run m (back_at M.theory run to from m) from to }
    ensures adverts { (run : PhasedRun M.theory) (m from to : ℕ) → IsLinkAt M.theory run m from to
        → ((seen M.theory run m).state to).advs from ≡ adverts_sent M.theory run m (back_at M.theory run to from m) from to }
{}

/// What a server has installed is what it held at its last calm moment.
pub fn installed_is_held<M: Matching>()
    ensures { (run : PhasedRun M.theory) (m : ℕ) → m ≤ length run.journal → (server interface : ℕ)
        → ((seen M.theory run m).state server).installed interface ≡ ((seen M.theory run (calm_at M.theory run server m)).state server).subs interface }
{}

/// No moment that a server knows of, by its last table update or by now, lies before a moment at rest on the same tree.
pub fn not_behind<M: Matching>()
    ensures installed { (run : PhasedRun M.theory) (back : LooksBack M.theory run)
        → back.rest ≤ as_of_at M.theory run back.moment back.server back.path (calm_at M.theory run back.server back.moment) }
    ensures now { (run : PhasedRun M.theory) (back : LooksBack M.theory run)
        → back.rest ≤ as_of_at M.theory run back.moment back.server back.path back.moment }
{}

/// At a quiet moment each server holds of its neighbours, on the tree in force, what flows from the clients beyond.
pub fn quiet_flows<M: Matching>()
    ensures filters { (run : PhasedRun M.theory) (n server neighbour : ℕ) → IsQuietLink M.theory run n server neighbour
        → ((states M.theory run n).state server).subs neighbour ≡ filters_flowing M.theory run n server neighbour }
    ensures adverts { (run : PhasedRun M.theory) (n server neighbour : ℕ) → IsQuietLink M.theory run n server neighbour
        → ((states M.theory run n).state server).advs neighbour ≡ adverts_flowing M.theory run n server neighbour }
{}

/// At a quiet moment, under subscription semantics, each server holds of a neighbour, on the tree in force, exactly the covering roots of the union of the
/// lists of the clients that live at the neighbour or beyond it.
pub fn holds_roots<M: Matching>()
    ensures { (run : PhasedRun M.theory) → run.net.adverts ≡ false → (n server neighbour : ℕ) → IsQuietLink M.theory run n server neighbour
        → HoldsRoots M.theory run n server neighbour }
{}

/// A later tree that is the one in force again changes no set: what a server holds of each of its interfaces, and has installed, is as before. So it
/// makes no difference whether that counts as a change.
pub fn same_tree_again<M: Matching>()
    ensures { (run : PhasedRun M.theory) (phase : ℕ) → IsSameTree M.theory run phase → (server interface : ℕ) → IsInterface M.theory run server interface
        → HoldsStill M.theory run phase server interface }
{}

/// An entry delivers a publication to a client of its server exactly where a filter matches that was in the client's list when nothing was last pending.
pub fn in_force<M: Matching>()
    ensures { (run : PhasedRun M.theory) (routed : Routed M.theory run) (client : ℕ) → Has client (run.net.clients routed.server)
        → IsDelivered M.theory run routed client ↔ IsInForce M.theory run routed client }
{}

/// A link gets only what a client beyond it, on the tree at the entry's moment, had a filter for, at the moment that the server knows of.
pub fn pruning<M: Matching>()
    ensures { (run : PhasedRun M.theory) (routed : Routed M.theory run) (neighbour : ℕ) → IsSentTo M.theory run routed neighbour
        → IsWanted M.theory run routed neighbour }
{}

/// Under subscription semantics each link of that tree but the one that it came by gets what a client beyond had a filter for.
pub fn sent_where_wanted<M: Matching>()
    ensures { (run : PhasedRun M.theory) → run.net.adverts ≡ false → (routed : Routed M.theory run) (neighbour : ℕ) → IsOnward M.theory run routed neighbour
        → IsWanted M.theory run routed neighbour → IsSentTo M.theory run routed neighbour }
{}

/// No link carries more notifications than plain flooding puts on it, in any run by any moment; and by the end of a drained run it carries as many in a
/// direction where each accepted publication that flooding sends over it is due to some client beyond.
pub fn economy<M: Matching>()
    ensures never_more { (run : PhasedRun M.theory) (clients : List ℕ) → AreClients M.theory run.net clients → CarriesNoMore M.theory run clients }
    ensures as_many { (run : PhasedRun M.theory) → EndsDrained M.theory run → (clients : List ℕ) → AreClients M.theory run.net clients
        → CarriesAsManyWhereDue M.theory run clients }
{}

/// A run that ends quiet and through with all phases is drained.
pub fn drained_when_through<M: Matching>()
    ensures { (run : PhasedRun M.theory) (phase : ℕ) → AllBelow M.theory run.net phase → EndsQuiet M.theory run → EndsThrough M.theory run phase
        → EndsDrained M.theory run }
{}

/// From every run the walk goes on as a legal run, each phase by the turns of its tree, and ends drained.
pub fn walk_drains<M: Matching>()
    ensures { (run : PhasedRun M.theory) (phases : ℕ) → AllBelow M.theory run.net phases → run.last < phases → WalkDrains M.theory run phases }
{}

/// At the opening nothing has been done.
pub fn opening_stands<M: Matching>()
    ensures { (net : PhasedNet M.theory) → IsBetween M.theory net (opening_moment M.theory net).state 0 0 [] (λ server. []) }
{}

/// Where all cells are in hand and the phase is ended, its journals go on from the run so far on the tree of the phase, and the merges one after the
/// other are the merge of the whole.
pub fn phase_goes_on<M: Matching>()
    ensures { (net : PhasedNet M.theory) (done : PhaseDone M.theory net)
        → IsBetween M.theory net (end_after M.theory net done) done.phase (suc done.phase)
        (entries_after M.theory net done) (journals_after M.theory net done) }
{}

/// The laws can be met: a net of three servers, in a line at first and in a star from phase 1 on.
pub fn can_be_met()
    ensures net { PhasedNetLaws numbers line_then_star }
{}

/// The walk of that net: the subscription goes along the line, and the publication of phase 1 takes the new link, straight to the server of the subscriber.
pub fn tree_after_barrier()
    ensures legal { DrainsBy numbers line_then_star star_walk }
    ensures trace { star_walk ≡
        entry 1 1 (Did (NextCommand 1)) (2 ∷ []) ∷
        entry 2 1 (Did TableUpdate) [] ∷
        entry 2 2 (Received 1) (3 ∷ []) ∷
        entry 3 2 (Did TableUpdate) [] ∷
        entry 3 3 (Received 2) [] ∷
        entry 4 3 (Did TableUpdate) [] ∷
        entry 5 3 (Did (NextCommand 2)) (1 ∷ []) ∷
        entry 6 1 (Received 3) [] ∷ [] }
    ensures given { ((moment_of numbers line_then_star star_walk 8).state.state 1).inbox 1 ≡ publication 2 1 1 ∷ [] }
{}
