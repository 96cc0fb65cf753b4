//! How often a look at the ring found no free place.
//!
//! The call named here is part of the statement. A clause that speaks of a lane's fulls means what it says: `has_no_place` alone
//! counts them, and only where its look at the ring finds every place taken. So wrong bodies are tried against this file as it
//! stands.
ghost use Rattle.std.specs.Prelude.{◌≡◌, ◌<◌, IsTrue, IsFalse};
ghost use Rattle.rtrb.specs.Ring.{known_free, ProducerLooked};
ghost use Rattle.thread_lane.specs.Fulls.{IsOneMore};

use crate::mark::Bounded;
use rtrb::Producer;
use std::alloc::Global;

/// A count of looks that found no free place. No other file can change it.
#[derive(Drop)]
pub struct Fulls {
    /// How many, below 2^64; then it begins at 0 again.
    count: u64,
}

impl Fulls {
    ghost use Rattle.std.specs.Prelude.{◌≡◌};
    ghost use Rattle.thread_lane.specs.Fulls.{full_count};

    /// None yet.
    pub(crate) fn none() -> Fulls
        ensures { full_count result ≡ 0 }
    {
        Fulls { count: 0 }
    }
}

/// Looks at the ring whether no place is free, and counts where that is so.
pub(crate) fn has_no_place<T: Drop>(
    producer: &mut Producer<T, Global, Bounded>,
    fulls: &mut Fulls,
) -> bool
    ensures looked { ProducerLooked producer.old producer.new }
    ensures none { IsTrue result → (known_free producer.new ≡ 0) × IsOneMore fulls.old fulls.new }
    ensures some { IsFalse result → (0 < known_free producer.new) × (fulls.new ≡ fulls.old) }
{
    if producer.slots() > 0 {
        return false;
    }
    fulls.count = fulls.count.wrapping_add(1);
    true
}
