//! Lets a viewer find a route ahead.
ghost use Rattle.std.specs.Prelude.{◌≡◌, true, IfOk, IfSome, OnErr};
ghost use mathlib.Core.List.{IsPrefix};
ghost use Rattle.left_right.specs.Sides.{view};
ghost use Rattle.match_routes.specs.Routes.{IsRouteBy};
ghost use Rattle.thread_versions.specs.Pairs.{pairs_after};
ghost use Rattle.thread_versions.specs.Chain.{view_book, IsFolded};
ghost use Rattle.thread_versions.specs.Ends.{matched_in, route_in, seen_in, seen_by, width_of, IsSameViewer, IsAheadBy};

use crate::ahead::Ahead;
use crate::rule::{Sees, VersionReader};
use crate::version::Version;
use crate::viewer::Viewer;
use base::NoMemory;
use base_bits::Set;
use core::mem::replace_with;
use std::alloc::Global;
use std::sync::Wait;

/// Matched numbers with their route by a version.
fn routed(alloc: Global, version: &Version, matched: &Set<'_>) -> Result<Ahead, NoMemory>
    requires folded { IsFolded version.now }
    requires width { matched.now.width ≡ version.now.forwarding.width }
    ensures { IfOk result (λ a. (a.matched ≡ matched.now) × (a.front.seen ≡ version.now.front.seen)) }
{
    Ok(Ahead {
        matched: matched.owned(alloc)?,
        route: version.forwarding.route(alloc, matched)?,
        front: version.front.again(),
    })
}

/// Matched numbers with their route by the version that is found. `None` where the reader was handed back.
fn try_match(
    reader: VersionReader,
    alloc: Global,
    matched: &Set<'_>,
) -> (VersionReader, Option<Result<Ahead, NoMemory>>)
    requires named { (view reader.place).named ≡ true }
    requires width { (view reader.place).width ≡ matched.now.width }
    ensures place { view result.0.place ≡ view reader.place }
    ensures ahead { IfSome result.1 (λ r. IfOk r (λ a. (a.matched ≡ matched.now) × (a.front.seen.book ≡ view_book (view reader.place)))) }
{
    match reader.enter_as::<Sees>() {
        Ok(reading) => {
            let ahead = routed(alloc, reading.get(), matched);
            (reading.leave(), Some(ahead))
        }
        Err(reader) => (reader, None),
    }
}

/// Matched numbers with their route by the first installed changes, no fewer than the viewer had seen, which has then seen those.
///
/// It tries again where it finds fewer, and where the reader is handed back. After running out of memory the viewer is as before.
pub fn match_ahead<R: Wait>(
    alloc: Global,
    rt: &R,
    viewer: &mut Viewer,
    matched: &Set<'_>,
) -> Result<Ahead, NoMemory>
    requires { matched.now.width ≡ width_of viewer.old }
    ensures same { IsSameViewer viewer.old viewer.new }
    ensures own { IfOk result (λ a. IsAheadBy viewer.new a) }
    ensures matched { IfOk result (λ a. matched_in a ≡ matched.now.members) }
    ensures route { IfOk result (λ a. IsRouteBy (matched_in a) (pairs_after (seen_in a)) (route_in a)) }
    ensures later { IfOk result (λ a. IsPrefix (seen_by viewer.old) (seen_in a)) }
    ensures seen { IfOk result (λ a. seen_by viewer.new ≡ seen_in a) }
    ensures err { OnErr result (seen_by viewer.new ≡ seen_by viewer.old) }
{
    for _ in rt.forever() {
        let Viewer { reader, front } = viewer;
        let tried = replace_with(
            reader,
            matched,
            |reader, matched| try_match(reader, alloc, matched),
        );
        if let Some(tried) = tried {
            let ahead = tried?;
            if front.count <= ahead.front.count {
                front.seen.lemma_prefix(&ahead.front.seen);
                *front = ahead.front.again();
                return Ok(ahead);
            }
        }
    }
    unreachable!()
}
