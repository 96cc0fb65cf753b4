//! Makes a publisher and its viewers.
ghost use Rattle.std.specs.Prelude.{◌≡◌, ◌≤◌, ◌<◌, ◌^◌, [], nat_lt, length, All, IfOk};
ghost use Rattle.base.specs.Sets.{IsRising};
ghost use Rattle.thread_versions.specs.Ends.{pending, installed, forwarding_of, seen_by, IsViewerOf};

use crate::front::Front;
use crate::history::History;
use crate::publisher::Publisher;
use crate::publishing::publish_now;
use crate::rule::VersionWriter;
use crate::seats::seats;
use crate::version::Version;
use crate::viewer::Viewer;
use base::NoMemory;
use std::alloc::Global;
use std::sync::Wait;

/// A publisher that has installed nothing from these interfaces, which rise, and 1 to 3 viewers of it that have seen nothing.
/// Numbers will be below the width. It may wait for the viewers' places.
pub fn versions<R: Wait>(
    alloc: Global,
    rt: &R,
    width: u32,
    interfaces: &[u32],
    viewers: usize,
) -> Result<(Publisher, Vec<Viewer>), NoMemory>
    requires viewers { (1 ≤ viewers) × (viewers ≤ 3) }
    requires rising { IsRising nat_lt interfaces.now }
    requires few { length interfaces.now < 2 ^ 32 }
    ensures publisher { IfOk result (λ r. (pending r.0 ≡ []) × (installed r.0 ≡ [])) }
    ensures forwarding { IfOk result (λ r. forwarding_of r.0 ≡ record { width = width; interfaces = interfaces.now; pairs = [] }) }
    ensures count { IfOk result (λ r. length r.1.items ≡ viewers) }
    ensures viewers { IfOk result (λ r. All (λ v. IsViewerOf r.0 v × (seen_by v ≡ [])) r.1.items) }
{
    let history = History::new(rt);
    let front = Front {
        count: 0,
        seen: history.past(),
    };
    let first = Version::empty(alloc, width, interfaces, &front)?;
    let second = Version::empty(alloc, width, interfaces, &front)?;
    let writer = VersionWriter::new(alloc, first, second, viewers)?;
    let mut writer = publish_now(rt, writer);
    match seats(alloc, rt, &mut writer, &front, viewers) {
        Ok(viewers) => {
            let publisher = Publisher {
                alloc,
                writer,
                history,
                waiting: Vec::new(alloc),
                shown: front,
            };
            Ok((publisher, viewers))
        }
        Err(fault) => {
            drop(writer.take(rt));
            Err(fault)
        }
    }
}
