//! The type of the table that viewers read, and how changes are absorbed into it.
ghost use Rattle.std.specs.Prelude.{◌≡◌, ◌<◌, ◌^◌, [], nat_lt, length, IfOk, List, fold};
ghost use Rattle.base.specs.Sets.{IsRising};
ghost use Rattle.match_routes.specs.Installed.{Installed};
ghost use Rattle.thread_versions.specs.Pairs.{made};

use crate::applying::make_all;
use crate::front::Front;
use crate::history::Past;
use base::NoMemory;
use left_right::Absorb;
use match_routes::{Forwarding, TableChange};
use std::alloc::{AllocError, Global};

/// Changes that are installed together, with the history up to the last of them.
#[derive(Drop)]
pub struct Step {
    /// The changes, in their order.
    pub changes: Vec<TableChange>,
    /// The history up to the last.
    pub front: Front,
}

/// A forwarding state, with the history of the changes that were made in it.
#[derive(Drop)]
pub struct Version {
    /// The state.
    pub forwarding: Forwarding,
    /// Its interfaces, rising.
    pub interfaces: Vec<u32>,
    /// The history.
    pub front: Front,
    ghost same: { interfaces.items ≡ forwarding.interfaces },
}

impl Absorb<Step> for Version {
    type State = (Forwarding, Past);

    ghost state = { λ v. (v.forwarding, v.front.seen) };

    ghost applied = { λ s op. (fold made s.0 op.changes.items, op.front.seen) };

    ghost never_fails = { Unit {0} };

    fn absorb_first(&mut self, operation: &Step, _other: &Version) -> Result<(), AllocError> {
        make_all(&mut self.forwarding, &self.interfaces, &operation.changes);
        self.front = operation.front.again();
        Ok(())
    }
}

impl Version {
    /// No pairs, of numbers below the width and of these interfaces.
    pub fn empty(
        alloc: Global,
        width: u32,
        interfaces: &[u32],
        front: &Front,
    ) -> Result<Version, NoMemory>
        requires rising { IsRising nat_lt interfaces.now }
        requires few { length interfaces.now < 2 ^ 32 }
        ensures forwarding { IfOk result (λ v. v.forwarding ≡ record { width = width; interfaces = interfaces.now; pairs = [] }) }
        ensures front { IfOk result (λ v. v.front.seen ≡ front.now.seen) }
    {
        Ok(Version {
            forwarding: Forwarding::new(alloc, width, interfaces)?,
            interfaces: Vec::from_slice(alloc, interfaces)?,
            front: front.again(),
        })
    }
}
