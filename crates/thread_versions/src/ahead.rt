//! The type of a match ahead: matched numbers with the route that was found.
ghost use Rattle.std.specs.Prelude.{◌≡◌};
ghost use Rattle.thread_versions.specs.Pairs.{pairs_after, route_of};

use crate::front::Front;
use base_bits::{OwnedSet, Set};
use match_routes::Route;

/// Matched numbers with their route by the first `seen` installed changes.
#[derive(Drop)]
pub struct Ahead {
    pub(crate) matched: OwnedSet,
    pub(crate) route: Route,
    pub(crate) front: Front,
    ghost routed: { route ≡ route_of matched.members (pairs_after front.seen.log) },
}

impl Ahead {
    ghost use Rattle.std.specs.Prelude.{◌↔◌, length, IsTrue};
    ghost use Rattle.match_routes.specs.Routes.{IsRouteBy};
    ghost use Rattle.thread_versions.specs.Ends.{matched_in, route_in, seen_in};

    /// The numbers.
    pub fn matched(&self) -> Set<'_>
        ensures { result.members ≡ matched_in self.now }
    {
        self.matched.as_set()
    }

    /// Whether these are the numbers.
    pub fn is_of(&self, matched: &Set<'_>) -> bool
        ensures { IsTrue result ↔ (matched_in self.now ≡ matched.now.members) }
    {
        self.matched.as_set().is_same(matched)
    }

    /// Their route by the changes that were seen.
    pub fn route(&self) -> &Route
        ensures same { result.now ≡ route_in self.now }
        ensures routed { IsRouteBy (matched_in self.now) (pairs_after (seen_in self.now)) (route_in self.now) }
    {
        &self.route
    }

    /// How many installed changes were seen.
    pub fn seen(&self) -> u128
        ensures { result ≡ length (seen_in self.now) }
    {
        self.front.count
    }
}
