//! What plain flooding delivers, in every run of servers that hold no filters: owed and allowed mean just that.

ghost use Rattle.std.specs.Prelude.{◌≡◌, ℕ, slice_get, Some};
ghost use Rattle.base.specs.Sets.{Has};
ghost use Rattle.law_routing.specs.Server.{Publication};
ghost use Rattle.law_phases.specs.Trees.{PhasedNet};
ghost use Rattle.law_phases.specs.Owing.{IsDueByScripts, IsAllowedByScripts};
ghost use Rattle.law_phases.specs.Flooding.{FloodRun, IsFloodOwed, EndsFlooded, IsFloodedOnce, flood_inbox};

use law_routing::Matching;

/// In a drained run of flooding what it owes is delivered exactly once.
pub fn owed_once<M: Matching>()
    ensures { (run : FloodRun M.theory) → EndsFlooded M.theory run → (publication : Publication M.theory) (client : ℕ)
        → IsFloodOwed M.theory run.net publication client → IsFloodedOnce M.theory run publication client }
{}

/// What is due, and so what is owed, flooding owes too: it asks nothing of advertisements but that the publish was accepted.
pub fn owes_due<M: Matching>()
    ensures { (net : PhasedNet M.theory) (publication : Publication M.theory) (client : ℕ)
        → IsDueByScripts M.theory net publication client → IsFloodOwed M.theory net publication client }
{}

/// What flooding delivers, at any moment of any run, is allowed to the client.
pub fn delivered_allowed<M: Matching>()
    ensures { (run : FloodRun M.theory) (n server client : ℕ) (publication : Publication M.theory) → Has client (run.net.clients server)
        → Has publication (flood_inbox M.theory run n server client) → IsAllowedByScripts M.theory run.net publication client }
{}

/// Flooding delivers nothing twice: an id stands in an inbox at one place.
pub fn never_twice<M: Matching>()
    ensures { (run : FloodRun M.theory) (n server client place other : ℕ) (publication again : Publication M.theory)
        → Has client (run.net.clients server)
        → slice_get (flood_inbox M.theory run n server client) place ≡ Some publication
        → slice_get (flood_inbox M.theory run n server client) other ≡ Some again
        → publication.publisher ≡ again.publisher → publication.ordinal ≡ again.ordinal → place ≡ other }
{}
