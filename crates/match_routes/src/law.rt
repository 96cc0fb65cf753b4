//! States that the route by numbers is the route by the filters that the numbers represent.
ghost use Rattle.std.specs.Prelude.{◌≡◌, ℕ, List, IfOk, length};
ghost use Rattle.filter_constraints.specs.Constraint.{ConstraintParts};
ghost use Rattle.filter_types.specs.Notice.{Attribute};
ghost use Rattle.match_filters.specs.Table.{IsRouteOf};
ghost use Rattle.match_filters.specs.Matching.{matched};
ghost use Rattle.match_routes.specs.Installed.{Pair};
ghost use Rattle.match_routes.specs.Routes.{IsRouteBy, held_by, AreNumbers};

use crate::forwarding::Forwarding;
use crate::route::Route;
use base::NoMemory;
use base_bits::Row;
use filter_types::Notice;
use match_filters::{Matcher, Scratch};
use std::alloc::Global;

/// Where filters are numbered by their places, a route by the numbers that a notice matches is the route of the notice
/// for each interface with the filters whose numbers are installed from it.
pub fn route_by_numbers()
    ensures { (n : List Attribute) (filters : List (List ConstraintParts)) (pairs : List Pair) (route : List ℕ) → AreNumbers filters pairs
        → IsRouteBy (matched n filters) pairs route → IsRouteOf n (held_by filters pairs) route }
{}

/// The route of a notice through one server: what it matches, put into a row, and where these numbers are installed.
pub fn route(
    alloc: Global,
    matcher: &Matcher,
    forwarding: &Forwarding,
    notice: &Notice,
    scratch: &mut Scratch,
    matched: &mut Row,
) -> Result<Route, NoMemory>
    requires same { length matcher.now ≡ forwarding.now.width }
    requires matched { matched.old.width ≡ forwarding.now.width }
    ensures { IfOk result (IsRouteOf notice.now (held_by matcher.now forwarding.now.pairs)) }
{
    forwarding.lemma_bounded();
    matcher.matched(notice, scratch, matched)?;
    forwarding.route(alloc, &matched.as_set())
}
