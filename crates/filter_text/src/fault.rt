//! The types of the faults for which bytes are not read.
ghost use Rattle.std.specs.Prelude.{◌≡◌};
ghost use Rattle.filter_text.specs.declared.fault.WireFault.TheVariants as faults;

use base::NoMemory;
use std::alloc::AllocFailed;

/// Why bytes are not read.
#[derive(Clone, Copy, Debug, PartialEq, Eq)]
pub enum WireFault {
    /// The bytes are the text of no value of the sort that was to be read.
    Outside,
    /// Memory ran out.
    NoMemory,
}

impl<T: Drop> From<AllocFailed<T>> for WireFault {
    ghost from_gives = { λ _ e. e ≡ faults.NoMemory };

    fn from(_: AllocFailed<T>) -> Self {
        WireFault::NoMemory
    }
}

impl From<NoMemory> for WireFault {
    ghost from_gives = { λ _ e. e ≡ faults.NoMemory };

    fn from(_: NoMemory) -> Self {
        WireFault::NoMemory
    }
}
