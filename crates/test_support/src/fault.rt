//! The type of the reasons why rows are not all answered as wanted.
use base::NoMemory;
use std::alloc::{AllocError, AllocFailed};
use std::io;

/// Why rows are not all answered as wanted.
#[derive(Debug, Drop)]
pub enum RowFault {
    /// Memory ran out.
    NoMemory,
    /// The input or the output failed.
    Outside(io::Error),
    /// A row is no question with an answer.
    Form,
    /// So many rows have another answer.
    Differ(u64),
}

impl From<NoMemory> for RowFault {
    ghost use Rattle.std.specs.Prelude.{◌≡◌};
    ghost use Rattle.test_support.specs.declared.fault.RowFault.TheVariants.{NoMemory};

    ghost from_gives = { λ _ e. e ≡ NoMemory };

    fn from(_: NoMemory) -> Self {
        RowFault::NoMemory
    }
}

impl From<AllocError> for RowFault {
    ghost use Rattle.std.specs.Prelude.{◌≡◌};
    ghost use Rattle.test_support.specs.declared.fault.RowFault.TheVariants.{NoMemory};

    ghost from_gives = { λ _ e. e ≡ NoMemory };

    fn from(_: AllocError) -> Self {
        RowFault::NoMemory
    }
}

impl<T: Drop> From<AllocFailed<T>> for RowFault {
    ghost use Rattle.std.specs.Prelude.{◌≡◌};
    ghost use Rattle.test_support.specs.declared.fault.RowFault.TheVariants.{NoMemory};

    ghost from_gives = { λ _ e. e ≡ NoMemory };

    fn from(_: AllocFailed<T>) -> Self {
        RowFault::NoMemory
    }
}

impl From<io::Error> for RowFault {
    ghost use Rattle.std.specs.Prelude.{◌≡◌};
    ghost use Rattle.test_support.specs.declared.fault.RowFault.TheVariants.{Outside};

    ghost from_gives = { λ error e. e ≡ Outside error };

    fn from(error: io::Error) -> Self {
        RowFault::Outside(error)
    }
}
