//! A stamped message between threads, which has no tables.
ghost use Rattle.std.specs.Prelude.{◌<◌, ◌^◌};

use crate::load::Load;

/// A load under the stamp of the step that sent it. It has no tables, so that it may go to another thread; who takes it has
/// the tables of its own run, and asks whether the load is of them.
#[derive(Drop)]
pub struct StampedLoad {
    stamp: u64,
    load: Load,
    ghost low: { stamp < 2 ^ 62 },
}

impl StampedLoad {
    ghost use Rattle.std.specs.Prelude.{◌≡◌, ◌<◌, ◌^◌};

    /// A load under a stamp.
    pub fn of(stamp: u64, load: Load) -> StampedLoad
        requires { stamp < 2 ^ 62 }
        ensures stamp { result.stamp ≡ stamp }
        ensures load { result.load ≡ load }
    {
        StampedLoad { stamp, load }
    }

    /// The stamp.
    pub fn stamp(&self) -> u64
        ensures stamp { result ≡ self.now.stamp }
        ensures low { result < 2 ^ 62 }
    {
        self.stamp
    }

    /// The load.
    pub fn load(&self) -> &Load
        ensures { result.now ≡ self.now.load }
    {
        &self.load
    }
}
