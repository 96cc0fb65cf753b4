//! Layer: law.
//! Job: the step of one server with filters, advertisements and notifications, and the laws of every run of such servers. Pure.
//! Users: the law layer, and the layers from net upward.
//!
//! The laws hold over any theory of filters (`Matching`): none of them looks into a filter. They hold for the program's
//! filters because `net_model` implements `Matching` for them. They hold under both semantics and for every legal run
//! from any start (`LegalRun`), drained or not. The module `runs` repeats the laws of `law_machine` for the servers of
//! any net.
#![tactic(auto)]

ghost use Rattle.std.specs.Prelude.{Bool, false, ◌≡◌, ◌≤◌, ◌<◌, ◌⊎◌, ◌↔◌, ℕ, suc, List, [], ◌∷◌, length, take};
ghost use Rattle.base.specs.Sets.{Has, minus, roots};
ghost use Rattle.base_tree.specs.Hops.{AreHops, side_size};
ghost use Rattle.law_machine.specs.Runs.{MachineLaws};
ghost use Rattle.law_machine.specs.Content.{ContentLaws};
ghost use Rattle.law_machine.specs.Walk.{IsIdle};
ghost use Rattle.law_machine.specs.Load.{MeasureLaws};
ghost use Rattle.law_routing.specs.Theory.{Theory, TheoryLaws};
ghost use Rattle.law_routing.specs.Net.{Net, NetLaws, Subscribe, Unsubscribe, Advertise, Unadvertise};
ghost use Rattle.law_routing.specs.Clients.{filters_step, adverts_step, refused_after, IsRefused};
ghost use Rattle.law_routing.specs.Server.{Publication, ServerState, Subs, sent, messages_to};
ghost use Rattle.law_routing.specs.Routing.{Network, routing_machine, opening, measure};
ghost use Rattle.law_routing.specs.Rest.{IsAtRest, IsOnwardWay, end_of, HasWay};
ghost use Rattle.law_routing.specs.Beyond.{filters_beyond};
ghost use Rattle.law_routing.specs.AsOf.{calm, back};
ghost use Rattle.law_routing.specs.Order.{IsAuthentic};
ghost use Rattle.law_routing.specs.Start.{IsStart};
ghost use Rattle.law_routing.specs.LegalRun.{LegalRun, states, phases, IsQuietAt, IsAtRestAt, IsBounded};
ghost use Rattle.law_routing.specs.LegalRun.{EndsQuiet, EndsThrough, EndsDrained, AllBelow, WalkDrains};
ghost use Rattle.law_routing.specs.LegalRun.{back_at, calm_at, as_of_at, filters_sent, adverts_sent, LooksBack, IsOrderlyAt};
ghost use Rattle.law_routing.specs.LegalRun.{Routed, IsSentTo, IsOnward, IsWanted, IsDelivered, IsInForce, inbox_at, inbox_of, times_given};
ghost use Rattle.law_routing.specs.LegalRun.{IsDeliveredOnce, IsSettledTo, IsOwedTo, IsDueTo, IsAllowedTo, IsWayFromHome, IsSettledFromHome, IsStable};
ghost use Rattle.law_routing.specs.Walk.{walk_round};
ghost use Rattle.law_routing.specs.Flow.{flow, flow_ad, AgreesOnLinks, relinked};
ghost use Rattle.law_routing.specs.Change.{with_tree, on_tree};
ghost use Rattle.law_routing.specs.Tree.{IsTreeBySizes};
ghost use Rattle.law_routing.specs.Example.{numbers, line};
ghost use Rattle.law_routing.specs.Contents.{filter_content, advert_content};

mod interfaces;
pub mod runs;

pub use interfaces::{LAST_LINK, client_of, interface_of, is_link};

/// What filters, advertisements and notices are, with the laws that the network rests on. No law below looks into a filter.
pub trait Matching {
    ghost use Rattle.law_routing.specs.Theory.{Theory, TheoryLaws};

    ghost theory: { Theory };

    ghost laws: { TheoryLaws theory };
}

/// The opening is a start, so that the laws hold of every run from it.
pub fn opening_starts<M: Matching>()
    ensures { (net : Net M.theory) → NetLaws M.theory net → IsStart M.theory net (opening M.theory net) 0 }
{}

/// A run's last moment is its end.
pub fn last_moment<M: Matching>()
    ensures { (run : LegalRun M.theory) → states M.theory run (length run.journal) ≡ run.end }
{}

/// The receptions, the table updates, the entries and the stamps of every run are bounded by the commands and the servers.
pub fn bounded<M: Matching>()
    ensures { (run : LegalRun M.theory) → IsBounded M.theory run }
{}

/// What a server holds of a neighbour, filters and advertisements, is what the neighbour sent at the moment to look back to.
pub fn held_was_sent<M: Matching>()
    ensures filters { (run : LegalRun M.theory) (from to m : ℕ) → Has to (run.net.links from)
        → ((states M.theory run m).state to).subs from ≡ filters_sent M.theory run (back_at M.theory run to from m) from to }
    ensures adverts { (run : LegalRun M.theory) (from to m : ℕ) → Has to (run.net.links from)
        → ((states M.theory run m).state to).advs from ≡ adverts_sent M.theory run (back_at M.theory run to from m) from to }
{}

/// What a server has installed is what it held at its last calm moment, and where nothing is pending what it holds now.
pub fn installed_is_held<M: Matching>()
    ensures then { (run : LegalRun M.theory) (server m interface : ℕ)
        → ((states M.theory run m).state server).installed interface ≡ ((states M.theory run (calm_at M.theory run server m)).state server).subs interface }
    ensures now { (run : LegalRun M.theory) (server m interface : ℕ) → ((states M.theory run m).state server).pending ≡ false
        → ((states M.theory run m).state server).installed interface ≡ ((states M.theory run m).state server).subs interface }
{}

/// An entry delivers a publication to a client of its server exactly where a filter matches that was in the client's list when nothing was last pending.
pub fn in_force<M: Matching>()
    ensures { (run : LegalRun M.theory) (routed : Routed M.theory run) (client : ℕ) → Has client (run.net.clients routed.server)
        → IsDelivered M.theory run routed client ↔ IsInForce M.theory run routed client }
{}

/// A link gets only what a client beyond had a filter for, at the moment that the server knows of.
pub fn pruning<M: Matching>()
    ensures { (run : LegalRun M.theory) (routed : Routed M.theory run) (neighbour : ℕ) → IsSentTo M.theory run routed neighbour
        → IsWanted M.theory run routed neighbour }
{}

/// Under subscription semantics each link but the one that it came by gets what a client beyond had a filter for.
pub fn sent_where_wanted<M: Matching>()
    ensures { (run : LegalRun M.theory) → run.net.adverts ≡ false → (routed : Routed M.theory run) (neighbour : ℕ)
        → IsOnward M.theory run routed neighbour → IsWanted M.theory run routed neighbour → IsSentTo M.theory run routed neighbour }
{}

/// A publication that is settled wherever it passes on the way to a client, and whose messages on that way are received, is delivered to the client
/// exactly once.
pub fn settled_delivery<M: Matching>()
    ensures { (run : LegalRun M.theory) (publication : Publication M.theory) (client : ℕ) → IsSettledTo M.theory run publication client
        → IsDeliveredOnce M.theory run publication client }
{}

/// One publisher's notices pass each server, each link and each inbox in the order of their ordinals, and so once.
pub fn in_order<M: Matching>()
    ensures { (run : LegalRun M.theory) (publisher n : ℕ) → IsOrderlyAt M.theory run publisher n }
{}

/// What is on a link or in an inbox is the notice of an accepted publication, under its id.
pub fn authentic<M: Matching>()
    ensures { (run : LegalRun M.theory) (n : ℕ) → IsAuthentic M.theory run.net (states M.theory run n) }
{}

/// Nothing is delivered twice.
pub fn never_twice<M: Matching>()
    ensures { (run : LegalRun M.theory) (n server client publisher ordinal : ℕ) → times_given M.theory run n server client publisher ordinal ≤ 1 }
{}

/// Each phase of a run begins at rest.
pub fn begins_at_rest<M: Matching>()
    ensures { (run : LegalRun M.theory) (n : ℕ) → phases M.theory run n < phases M.theory run (suc n) → IsAtRestAt M.theory run n }
{}

/// Where all links are empty and nothing is pending, the network is at rest.
pub fn quiet_rests<M: Matching>()
    ensures { (run : LegalRun M.theory) (n : ℕ) → IsQuietAt M.theory run n → IsAtRestAt M.theory run n }
{}

/// No moment that a server knows of, by its last table update or by now, lies before a moment at rest.
pub fn not_behind<M: Matching>()
    ensures installed { (run : LegalRun M.theory) (back : LooksBack M.theory run)
        → back.rest ≤ as_of_at M.theory run back.server back.path (calm_at M.theory run back.server back.moment) }
    ensures now { (run : LegalRun M.theory) (back : LooksBack M.theory run) → back.rest ≤ as_of_at M.theory run back.server back.path back.moment }
{}

/// What is owed is due.
pub fn owed_due<M: Matching>()
    ensures { (run : LegalRun M.theory) (publication : Publication M.theory) (client : ℕ)
        → IsOwedTo M.theory run publication client → IsDueTo M.theory run publication client }
{}

/// What is due is settled wherever it passes: the notice is ahead of each withdrawal that comes behind it.
pub fn due_settled<M: Matching>()
    ensures { (run : LegalRun M.theory) (publication : Publication M.theory) (client : ℕ) → IsDueTo M.theory run publication client
        → (path : List ℕ) → IsWayFromHome M.theory run publication path → IsSettledFromHome M.theory run publication client path }
{}

/// In a drained run what is due is delivered exactly once.
pub fn due_once<M: Matching>()
    ensures { (run : LegalRun M.theory) → EndsDrained M.theory run → (publication : Publication M.theory) (client : ℕ)
        → IsDueTo M.theory run publication client → IsDeliveredOnce M.theory run publication client }
{}

/// What is owed is settled wherever it passes.
pub fn owed_settled<M: Matching>()
    ensures { (run : LegalRun M.theory) (publication : Publication M.theory) (client : ℕ) → IsOwedTo M.theory run publication client
        → (path : List ℕ) → IsWayFromHome M.theory run publication path → IsSettledFromHome M.theory run publication client path }
{}

/// In a drained run what is owed is delivered exactly once.
pub fn owed_once<M: Matching>()
    ensures { (run : LegalRun M.theory) → EndsDrained M.theory run → (publication : Publication M.theory) (client : ℕ)
        → IsOwedTo M.theory run publication client → IsDeliveredOnce M.theory run publication client }
{}

/// What is owed in a phase is delivered exactly once where the run has come through that phase and all is quiet.
pub fn owed_in_phase<M: Matching>()
    ensures { (run : LegalRun M.theory) (next : ℕ) → EndsQuiet M.theory run → EndsThrough M.theory run next
        → (publication : Publication M.theory) (client : ℕ) → (owed : IsOwedTo M.theory run publication client) → owed.phase < next
        → IsDeliveredOnce M.theory run publication client }
{}

/// What a client's inbox has at the start of a run it has at the end, once.
pub fn delivered_stays<M: Matching>()
    ensures { (run : LegalRun M.theory) (publication : Publication M.theory) (client : ℕ)
        → Has publication ((run.start.state (run.net.home client)).inbox client) → IsDeliveredOnce M.theory run publication client }
{}

/// What is delivered, at any moment of any run, is a publication that is allowed to the client.
pub fn delivered_allowed<M: Matching>()
    ensures { (run : LegalRun M.theory) (n server client : ℕ) (publication : Publication M.theory) → Has client (run.net.clients server)
        → Has publication (inbox_at M.theory run n server client) → IsAllowedTo M.theory run publication client }
{}

/// Where all that is allowed to a client is owed to it, a drained run delivers to it exactly what flooding does.
pub fn stable_inputs<M: Matching>()
    ensures { (run : LegalRun M.theory) → EndsDrained M.theory run → (client : ℕ) → IsStable M.theory run client → (publication : Publication M.theory)
        → Has publication (inbox_of M.theory run client) ↔ IsAllowedTo M.theory run publication client }
{}

/// A run that ends quiet and through with all phases is drained.
pub fn drained_when_through<M: Matching>()
    ensures { (run : LegalRun M.theory) (phase : ℕ) → AllBelow M.theory run phase → EndsQuiet M.theory run → EndsThrough M.theory run phase
        → EndsDrained M.theory run }
{}

/// Where no act of a walk's round is possible all links are empty and nothing is pending.
pub fn idle_quiet<M: Matching>()
    ensures { (run : LegalRun M.theory) (n : ℕ) → IsIdle (routing_machine M.theory run.net) (states M.theory run n) (walk_round M.theory run.net)
        → IsQuietAt M.theory run n }
{}

/// From every run the walk goes on as a legal run, and ends drained.
pub fn walk_drains<M: Matching>()
    ensures { (run : LegalRun M.theory) (phases : ℕ) → AllBelow M.theory run phases → run.last < phases → WalkDrains M.theory run phases }
{}

/// A subscription adds its filter to the client's list, and a withdrawal takes away exactly the filters that its filter covers; advertisements do the same.
pub fn own_lists<M: Matching>()
    ensures subscribed { (filters : List M.theory.Filter) (f g : M.theory.Filter)
        → Has g (filters_step M.theory filters (Subscribe f)) ↔ (g ≡ f) ⊎ Has g filters }
    ensures withdrawn { (filters : List M.theory.Filter) (f g : M.theory.Filter)
        → Has g (filters_step M.theory filters (Unsubscribe f)) ↔ Has g filters × (M.theory.covers f g ≡ false) }
    ensures advertised { (adverts : List M.theory.Advert) (a b : M.theory.Advert)
        → Has b (adverts_step M.theory adverts (Advertise a)) ↔ (b ≡ a) ⊎ Has b adverts }
    ensures unadvertised { (adverts : List M.theory.Advert) (a b : M.theory.Advert)
        → Has b (adverts_step M.theory adverts (Unadvertise a)) ↔ Has b adverts × (M.theory.covers_advert a b ≡ false) }
{}

/// The refused ordinals are those of the publishes that no one advertisement of the client allowed.
pub fn refused_exactly<M: Matching>()
    ensures { (net : Net M.theory) (client count number : ℕ)
        → Has number (refused_after M.theory net client count) ↔ IsRefused M.theory net [] 0 (take count (net.script client)) number }
{}

/// From each server to each other there is a way.
pub fn a_way<M: Matching>()
    ensures { (net : Net M.theory) → NetLaws M.theory net → (server other : ℕ) → Has server net.servers → Has other net.servers
        → HasWay M.theory net server other }
{}

/// A way that does not turn back goes by the hops to its end, so it is the path.
pub fn one_way<M: Matching>()
    ensures { (net : Net M.theory) → NetLaws M.theory net → (before server next : ℕ) (path : List ℕ)
        → IsOnwardWay M.theory net before server (next ∷ path) → Has (end_of M.theory net next path) net.servers
        → net.hop server (end_of M.theory net next path) ≡ next }
{}

/// The sides of a tree's edges add up.
pub fn sides_add()
    ensures { (servers : List ℕ) (links : ℕ → List ℕ) (hop : ℕ → ℕ → ℕ) → AreHops servers links hop → IsTreeBySizes servers links (side_size hop servers) }
{}

/// The servers of a net keep the laws of a machine, those of both contents of links, and those of the measure of its load: a step puts at most one
/// message on a link, and messages travel away from where they began.
pub fn lawful<M: Matching>()
    ensures machine { (net : Net M.theory) → MachineLaws (routing_machine M.theory net) }
    ensures filters { (net : Net M.theory) → NetLaws M.theory net → ContentLaws (routing_machine M.theory net) (filter_content M.theory net) }
    ensures adverts { (net : Net M.theory) → NetLaws M.theory net → ContentLaws (routing_machine M.theory net) (advert_content M.theory net) }
    ensures measure { (net : Net M.theory) → NetLaws M.theory net
        → MeasureLaws (routing_machine M.theory net) (measure M.theory net (side_size net.hop net.servers)) }
{}

/// At rest each server holds of its neighbours what flows from the clients beyond.
pub fn rest_flows<M: Matching>()
    ensures adverts { (net : Net M.theory) → NetLaws M.theory net → (state : ℕ → ServerState M.theory) → AgreesOnLinks M.theory net state
        → (server neighbour : ℕ) → Has neighbour (net.links server)
        → (state server).advs neighbour ≡ flow_ad M.theory net (λ v. (state v).advs) server neighbour }
    ensures filters { (net : Net M.theory) → NetLaws M.theory net → (state : ℕ → ServerState M.theory) → AgreesOnLinks M.theory net state
        → (server neighbour : ℕ) → Has neighbour (net.links server)
        → (state server).subs neighbour ≡ flow M.theory net (λ v. (state v).subs) (λ v. (state v).advs) server neighbour }
{}

/// At rest, under subscription semantics, each server holds of a neighbour exactly the covering roots of the union of the lists of
/// the clients that live at the neighbour or beyond it.
pub fn rest_holds_roots<M: Matching>()
    ensures { (net : Net M.theory) → NetLaws M.theory net → net.adverts ≡ false → (network : Network M.theory net) → IsAtRest M.theory net network
        → (server neighbour : ℕ) → Has neighbour (net.links server)
        → (network.state server).subs neighbour ≡ roots M.theory.covers M.theory.before (filters_beyond M.theory net network server neighbour) }
{}

/// A change of filters goes over a link only where it changes the set that is sent there, and it has what leaves that set and what joins it.
pub fn no_idle_change<M: Matching>()
    ensures { (net : Net M.theory) (old new : ServerState M.theory) (server link : ℕ) (out add : List M.theory.Filter)
        → Has (Subs out add) (messages_to M.theory net old new server link)
        → (sent M.theory net old server link ≡ sent M.theory net new server link → ⊥)
        × (out ≡ minus M.theory.before (sent M.theory net old server link) (sent M.theory net new server link))
        × (add ≡ minus M.theory.before (sent M.theory net new server link) (sent M.theory net old server link)) }
{}

/// Servers set on a tree by their clients' sets alone agree on its links.
pub fn flow_agrees<M: Matching>()
    ensures { (net : Net M.theory) → NetLaws M.theory net → (homes : ℕ → ℕ → List M.theory.Filter) (ad_homes : ℕ → ℕ → List M.theory.Advert)
        → AgreesOnLinks M.theory net (relinked M.theory net homes ad_homes) }
{}

/// A run that has come through its phases and is quiet may change to another tree: the network on that tree is a start, so the laws go on from there.
pub fn tree_changes<M: Matching>()
    ensures { (run : LegalRun M.theory) (links : ℕ → List ℕ) (hop : ℕ → ℕ → ℕ) (next : ℕ) → NetLaws M.theory (with_tree M.theory run.net links hop)
        → EndsQuiet M.theory run → run.last < next → EndsThrough M.theory run next
        → IsStart M.theory (with_tree M.theory run.net links hop) (on_tree M.theory run.net links hop run.end) next }
{}

/// The laws can be met: a theory of numbers, and a line of three servers under either semantics. The laws of a machine and a start are met by what
/// stands above.
pub fn can_be_met()
    ensures theory { TheoryLaws numbers }
    ensures net { (adverts : Bool) → NetLaws numbers (line adverts) }
    ensures measure { (adverts : Bool)
        → MeasureLaws (routing_machine numbers (line adverts)) (measure numbers (line adverts) (side_size (line adverts).hop (line adverts).servers)) }
{}
