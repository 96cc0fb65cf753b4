//! The type of a viewer, which finds routes while the table is updated.
ghost use Rattle.left_right.specs.Sides.{view};
ghost use Rattle.thread_versions.specs.Chain.{IsNamedBy};

use crate::front::Front;
use crate::rule::VersionReader;

/// Who finds routes beside a publisher, maybe in another thread. It keeps how many installed changes it has seen.
#[derive(Drop)]
pub struct Viewer {
    pub(crate) reader: VersionReader,
    pub(crate) front: Front,
    ghost tied: { IsNamedBy front.seen.book (view reader.place).width (view reader.place) },
}
