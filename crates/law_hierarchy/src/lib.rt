//! Layer: law.
//! Job: the step of one server of a hierarchy, with server 1 at the top, and the laws of every run of such servers. Pure.
//! Users: law_examples, and the layers hierarchy and program.
//!
//! These are the laws of `law_routing` for another step of one server, which differs only in what is sent. A changed
//! set of filters goes to the master alone, as the covering roots of all that the server holds. A notification goes to
//! the master, unless it came from there, and to each other neighbour and each client with a matching installed filter.
//! Advertisements stay in clients' lists, where they decide which publishes are refused. Each law is the contract of a
//! small function, generic in the theory of filters, and holds for every legal run from the opening (`HierarchyRun`).
//!
//! The proof treats a hierarchy as a network of peers in which one more client at the top has subscribed to everything.
//! The theory has one more filter for this, so every server holds exactly that filter from its master, and the laws of
//! peers carry over. No definition names this client.
#![tactic(auto)]

ghost use Rattle.std.specs.Prelude.{◌≡◌, ◌≤◌, ◌<◌, ◌↔◌, ℕ, Bool, true, false, List, [], ◌∷◌, length};
ghost use Rattle.base.specs.Sets.{Has, roots};
ghost use Rattle.base_tree.specs.Hops.{side_size};
ghost use Rattle.law_machine.specs.Runs.{MachineLaws};
ghost use Rattle.law_machine.specs.Content.{ContentLaws, IsHeldSent};
ghost use Rattle.law_machine.specs.Walk.{IsIdle};
ghost use Rattle.law_machine.specs.Load.{MeasureLaws};
ghost use Rattle.law_routing.specs.Theory.{TheoryLaws};
ghost use Rattle.law_routing.specs.Net.{Net};
ghost use Rattle.law_routing.specs.Server.{Publication, interfaces};
ghost use Rattle.law_routing.specs.Rest.{IsOnwardWay, end_of};
ghost use Rattle.law_routing.specs.AsOf.{times_delivered};
ghost use Rattle.law_routing.specs.Order.{IsAuthentic};
ghost use Rattle.law_routing.specs.Walk.{walk_round};
ghost use Rattle.law_routing.specs.Example.{numbers, line};
ghost use Rattle.law_hierarchy.specs.Masters.{top, master, is_master, union_all, IsLower, IsBelow, HierarchyLaws};
ghost use Rattle.law_hierarchy.specs.Step.{hierarchy_machine, opening, measure};
ghost use Rattle.law_hierarchy.specs.Content.{filter_content};
ghost use Rattle.law_hierarchy.specs.HierarchyRun.{HierarchyRun, states, last_state, Routed, IsSentTo, IsWanted, IsDelivered, IsInForce};
ghost use Rattle.law_hierarchy.specs.HierarchyRun.{IsFloodOwedTo, IsByPhase, HappensBefore, AreGivenInOrder, IsSettledOn, IsAllReceivedBy, IsDeliveredOnceBy};
ghost use Rattle.law_hierarchy.specs.HierarchyRun.{IsDrainedRun, IsDeliveredOnce, IsPublished, IsOwedTo, IsAllowedTo, IsInOrder, IsBounded};
ghost use Rattle.law_hierarchy.specs.HierarchyRun.{inbox_of, times_put, times_routed, EndsQuiet, EndsThrough, back_at, calm_at, up_at};
ghost use Rattle.law_hierarchy.specs.HierarchyRun.{IsStable, AllBelow, WalkDrains};
ghost use Rattle.law_hierarchy.specs.Economy.{AreClients, CarriesNoMore};
ghost use Rattle.law_hierarchy.specs.Example.{pair, chain};

use law_routing::Matching;

pub mod runs;

/// The servers of a hierarchy keep the laws of a machine, those of the content of its links, and those of the measure of its
/// load: a step puts at most one message on a link, and messages travel away from where they began.
pub fn lawful<M: Matching>()
    ensures machine { (net : Net M.theory) → MachineLaws (hierarchy_machine M.theory net) }
    ensures filters { (net : Net M.theory) → HierarchyLaws M.theory net
        → ContentLaws (hierarchy_machine M.theory net) (filter_content M.theory net) }
    ensures measure { (net : Net M.theory) → HierarchyLaws M.theory net
        → MeasureLaws (hierarchy_machine M.theory net) (measure M.theory net (side_size net.hop net.servers)) }
{}

/// A run's last moment is its end.
pub fn last_moment<M: Matching>()
    ensures { (run : HierarchyRun M.theory) → states M.theory run (length run.journal) ≡ last_state M.theory run }
{}

/// The receptions, the table updates, the entries and the stamps of every run are bounded by the commands and the servers.
pub fn bounded<M: Matching>()
    ensures { (run : HierarchyRun M.theory) → IsBounded M.theory run }
{}

/// What a server holds of a lower neighbour is what went up from there at the moment to look back to, and of its master it
/// holds nothing. So the roots of all that it holds go up. With what is on its way, what is held is what goes up now. No
/// advertisement is held.
pub fn held_from_below<M: Matching>()
    ensures below { (run : HierarchyRun M.theory) (server neighbour m : ℕ) → IsLower M.theory run.net server neighbour
        → ((states M.theory run m).state server).subs neighbour ≡ up_at M.theory run (back_at M.theory run server neighbour m) neighbour }
    ensures above { (run : HierarchyRun M.theory) (server neighbour m : ℕ) → Has neighbour (run.net.links server)
        → is_master M.theory run.net server neighbour ≡ true → ((states M.theory run m).state server).subs neighbour ≡ [] }
    ensures all { (run : HierarchyRun M.theory) (server m : ℕ) → Has server run.net.servers → (server ≡ top → ⊥)
        → up_at M.theory run m server
        ≡ roots M.theory.covers M.theory.before
        (union_all M.theory.before ((states M.theory run m).state server).subs (interfaces M.theory run.net server)) }
    ensures on_its_way { (run : HierarchyRun M.theory)
        → IsHeldSent (hierarchy_machine M.theory run.net) (filter_content M.theory run.net) run.end }
    ensures adverts { (run : HierarchyRun M.theory) (server m interface : ℕ) → ((states M.theory run m).state server).advs interface ≡ [] }
{}

/// What a server has installed of a lower neighbour or a client is what it held of it at its last calm moment.
pub fn installed_is_held<M: Matching>()
    ensures { (run : HierarchyRun M.theory) (server m interface : ℕ) → Has interface (interfaces M.theory run.net server)
        → is_master M.theory run.net server interface ≡ false
        → ((states M.theory run m).state server).installed interface
        ≡ ((states M.theory run (calm_at M.theory run server m)).state server).subs interface }
{}

/// A notice goes to the master from each server but the top, unless it came from there.
pub fn goes_up<M: Matching>()
    ensures { (run : HierarchyRun M.theory) (routed : Routed M.theory run) → (routed.server ≡ top → ⊥)
        → (master M.theory run.net routed.server ≡ routed.interface → ⊥)
        → IsSentTo M.theory run routed (master M.theory run.net routed.server) }
{}

/// A notice goes down only where a client there or below had a filter that matches, at the moment that the server knows of, and
/// to each such neighbour but the one that it came from.
pub fn goes_down<M: Matching>()
    ensures only { (run : HierarchyRun M.theory) (routed : Routed M.theory run) (neighbour : ℕ)
        → IsLower M.theory run.net routed.server neighbour → IsSentTo M.theory run routed neighbour → IsWanted M.theory run routed neighbour }
    ensures each { (run : HierarchyRun M.theory) (routed : Routed M.theory run) (neighbour : ℕ)
        → IsLower M.theory run.net routed.server neighbour → (neighbour ≡ routed.interface → ⊥) → IsWanted M.theory run routed neighbour
        → IsSentTo M.theory run routed neighbour }
{}

/// In a drained run each accepted publication was put exactly once on the link to the master from each server that has the
/// publisher's home at or below it; in any run it is on no other link to a master. These servers are those of the way from the
/// home to the top.
pub fn climbs_once<M: Matching>()
    ensures once { (run : HierarchyRun M.theory) → IsDrainedRun M.theory run
        → (publication : Publication M.theory) → IsPublished M.theory run publication
        → (server : ℕ) → Has server run.net.servers → (server ≡ top → ⊥)
        → IsBelow M.theory run.net (run.net.home publication.publisher) server
        → times_put M.theory run (length run.journal) server (master M.theory run.net server) publication.publisher publication.ordinal ≡ 1 }
    ensures nowhere_else { (run : HierarchyRun M.theory) (n : ℕ) (publication : Publication M.theory) → IsPublished M.theory run publication
        → (server : ℕ) → Has server run.net.servers → (server ≡ top → ⊥)
        → (IsBelow M.theory run.net (run.net.home publication.publisher) server → ⊥)
        → times_put M.theory run n server (master M.theory run.net server) publication.publisher publication.ordinal ≡ 0 }
    ensures way { (net : Net M.theory) → HierarchyLaws M.theory net → (home : ℕ) → Has home net.servers
        → (path : List ℕ) → IsOnwardWay M.theory net home home path → end_of M.theory net home path ≡ top
        → (server : ℕ) → Has server net.servers → (server ≡ top → ⊥) → Has server (home ∷ path) ↔ IsBelow M.theory net home server }
{}

/// An entry delivers a publication to a client of its server exactly where a filter matches that was in the client's list when
/// nothing was last pending.
pub fn in_force<M: Matching>()
    ensures { (run : HierarchyRun M.theory) (routed : Routed M.theory run) (client : ℕ) → Has client (run.net.clients routed.server)
        → IsDelivered M.theory run routed client ↔ IsInForce M.theory run routed client }
{}

/// One publisher's notices pass each server, each link and each inbox in the order of their ordinals.
pub fn in_order<M: Matching>()
    ensures { (run : HierarchyRun M.theory) (publisher n : ℕ) → IsInOrder M.theory run publisher n }
{}

/// Nothing is routed twice at a server, put twice on a link, or delivered twice.
pub fn never_twice<M: Matching>()
    ensures routed { (run : HierarchyRun M.theory) (n server publisher ordinal : ℕ) → times_routed M.theory run n server publisher ordinal ≤ 1 }
    ensures put { (run : HierarchyRun M.theory) (n from to publisher ordinal : ℕ) → times_put M.theory run n from to publisher ordinal ≤ 1 }
    ensures delivered { (run : HierarchyRun M.theory) (n server client publisher ordinal : ℕ)
        → times_delivered M.theory run.net publisher ordinal (((states M.theory run n).state server).inbox client) ≤ 1 }
{}

/// What is on a link or in an inbox is the notice of an accepted publication, under its id.
pub fn authentic<M: Matching>()
    ensures { (run : HierarchyRun M.theory) (n : ℕ) → IsAuthentic M.theory run.net (states M.theory run n) }
{}

/// What is delivered, at any moment of any run, is a publication that is allowed to the client.
pub fn delivered_allowed<M: Matching>()
    ensures { (run : HierarchyRun M.theory) (n server client : ℕ) (publication : Publication M.theory) → Has client (run.net.clients server)
        → Has publication (((states M.theory run n).state server).inbox client) → IsAllowedTo M.theory run publication client }
{}

/// In a client's deliveries, at any moment, the phases of the publications never fall.
pub fn delivered_by_phase<M: Matching>()
    ensures { (run : HierarchyRun M.theory) (n server client : ℕ) → Has client (run.net.clients server) → IsByPhase M.theory run n server client }
{}

/// In a drained run all that flooding owes is delivered exactly once, whatever is advertised.
pub fn flood_owed_once<M: Matching>()
    ensures { (run : HierarchyRun M.theory) → IsDrainedRun M.theory run → (publication : Publication M.theory) (client : ℕ)
        → IsFloodOwedTo M.theory run publication client → IsDeliveredOnce M.theory run publication client }
{}

/// A publication is given to each client before all that happened behind it.
pub fn causal_order<M: Matching>()
    ensures { (run : HierarchyRun M.theory) (one : Publication M.theory) (between : List (Publication M.theory)) (other : Publication M.theory)
        → HappensBefore M.theory run one between other → (n server client : ℕ) → Has client (run.net.clients server)
        → Has one (((states M.theory run n).state server).inbox client) → Has other (((states M.theory run n).state server).inbox client)
        → AreGivenInOrder M.theory run n server client one other }
{}

/// At any moment, a publication that is settled on its way to a client, and whose messages on that way are all received, stands in
/// the client's inbox exactly once.
pub fn settled_by<M: Matching>()
    ensures { (run : HierarchyRun M.theory) (publication : Publication M.theory) (client : ℕ) (on_way : IsSettledOn M.theory run publication client) (n : ℕ)
        → IsAllReceivedBy M.theory run n publication client on_way → IsDeliveredOnceBy M.theory run n publication client }
{}

/// No link, up or down, carries more notifications than plain flooding puts on it, in any run by any moment.
pub fn economy<M: Matching>()
    ensures { (run : HierarchyRun M.theory) (clients : List ℕ) → AreClients M.theory run.net clients → CarriesNoMore M.theory run clients }
{}

/// In a drained run what is owed is delivered exactly once.
pub fn owed_once<M: Matching>()
    ensures { (run : HierarchyRun M.theory) → IsDrainedRun M.theory run → (publication : Publication M.theory) (client : ℕ)
        → IsOwedTo M.theory run publication client → IsDeliveredOnce M.theory run publication client }
{}

/// What is owed in a phase is delivered exactly once where the run has come through that phase and all is quiet.
pub fn owed_in_phase<M: Matching>()
    ensures { (run : HierarchyRun M.theory) (next : ℕ) → EndsQuiet M.theory run → EndsThrough M.theory run next
        → (publication : Publication M.theory) (client : ℕ) → (owed : IsOwedTo M.theory run publication client) → owed.accepted.phase < next
        → IsDeliveredOnce M.theory run publication client }
{}

/// Where all that is allowed to a client is owed to it, a drained run delivers to it exactly what flooding does.
pub fn stable_inputs<M: Matching>()
    ensures { (run : HierarchyRun M.theory) → IsDrainedRun M.theory run → (client : ℕ) → IsStable M.theory run client
        → (publication : Publication M.theory) → Has publication (inbox_of M.theory run client) ↔ IsAllowedTo M.theory run publication client }
{}

/// Where no act of a walk's round is possible all links are empty and nothing is pending.
pub fn idle_quiet<M: Matching>()
    ensures { (run : HierarchyRun M.theory) → IsIdle (hierarchy_machine M.theory run.net) run.end (walk_round M.theory run.net)
        → EndsQuiet M.theory run }
{}

/// A run that ends quiet and through with all phases is drained.
pub fn drained_when_through<M: Matching>()
    ensures { (run : HierarchyRun M.theory) (phase : ℕ) → AllBelow M.theory run.net phase → EndsQuiet M.theory run
        → EndsThrough M.theory run phase → IsDrainedRun M.theory run }
{}

/// From every run, and so from the opening, the walk goes on as a legal run, and ends drained.
pub fn walk_drains<M: Matching>()
    ensures run { (run : HierarchyRun M.theory) (phases : ℕ) → AllBelow M.theory run.net phases → run.last < phases
        → WalkDrains M.theory run.net phases run.end run.last }
    ensures opening { (net : Net M.theory) → HierarchyLaws M.theory net → (phases : ℕ) → AllBelow M.theory net phases → 0 < phases
        → WalkDrains M.theory net phases (opening M.theory net) 0 }
{}

/// The laws can be met: a theory of numbers, and over it a line of three servers and a pair of servers, under either semantics,
/// and a chain of three servers.
pub fn can_be_met()
    ensures theory { TheoryLaws numbers }
    ensures line { (adverts : Bool) → HierarchyLaws numbers (line adverts) }
    ensures pair { (adverts : Bool) → HierarchyLaws numbers (pair adverts) }
    ensures chain { HierarchyLaws numbers chain }
{}
