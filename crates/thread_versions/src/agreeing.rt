//! Finds whether a match ahead is by all that is installed.
ghost use Rattle.std.specs.Prelude.{◌≡◌, ◌≤◌, ◌↔◌, length, IsTrue};
ghost use mathlib.Core.List.{IsPrefix};
ghost use Rattle.match_routes.specs.Routes.{IsRouteBy};
ghost use Rattle.thread_versions.specs.Pairs.{pairs_after};
ghost use Rattle.thread_versions.specs.Ends.{matched_in, route_in, seen_in, seen_by, installed, IsAheadOf, IsSameViewer, IsViewerOf};

use crate::ahead::Ahead;
use crate::publisher::Publisher;
use crate::viewer::Viewer;

/// Whether the match ahead has seen as many changes as are installed, so that its route is the installed one. After either answer the
/// viewer has seen all that is installed. The caller has a viewer of this publisher's, and one made the match. Nobody waits.
pub fn agree(publisher: &Publisher, viewer: &mut Viewer, ahead: &Ahead) -> bool
    requires viewer { IsViewerOf publisher.now viewer.old }
    requires ahead { IsAheadOf publisher.now ahead.now }
    ensures exact { IsTrue result ↔ (length (seen_in ahead.now) ≡ length (installed publisher.now)) }
    ensures agrees { IsTrue result → seen_in ahead.now ≡ installed publisher.now }
    ensures route { IsTrue result → IsRouteBy (matched_in ahead.now) (pairs_after (installed publisher.now)) (route_in ahead.now) }
    ensures begins { length (seen_in ahead.now) ≤ length (installed publisher.now) → IsPrefix (seen_in ahead.now) (installed publisher.now) }
    ensures same { IsSameViewer viewer.old viewer.new }
    ensures seen { seen_by viewer.new ≡ installed publisher.now }
{
    viewer.front = publisher.shown.again();
    ahead.front.seen.lemma_prefix(&publisher.shown.seen);
    ahead.front.count == publisher.shown.count
}
