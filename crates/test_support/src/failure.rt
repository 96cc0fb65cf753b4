//! The type of the reasons why a program of rows printed nothing more.
use base::NoMemory;
use std::alloc::{AllocError, AllocFailed};
use std::io;

/// Why nothing more was printed.
#[derive(Debug, Drop)]
pub enum Failure {
    /// Memory ran out.
    NoMemory,
    /// A document was refused.
    Refused,
    /// The words after the program's name are not known.
    Usage,
    /// The words ask for threads, which are not here.
    Threads,
    /// The clock, the input or the output failed.
    Outside(io::Error),
}

impl From<NoMemory> for Failure {
    ghost use Rattle.std.specs.Prelude.{◌≡◌};
    ghost use Rattle.test_support.specs.declared.failure.Failure.TheVariants.{NoMemory};

    ghost from_gives = { λ _ e. e ≡ NoMemory };

    fn from(_: NoMemory) -> Self {
        Failure::NoMemory
    }
}

impl From<AllocError> for Failure {
    ghost use Rattle.std.specs.Prelude.{◌≡◌};
    ghost use Rattle.test_support.specs.declared.failure.Failure.TheVariants.{NoMemory};

    ghost from_gives = { λ _ e. e ≡ NoMemory };

    fn from(_: AllocError) -> Self {
        Failure::NoMemory
    }
}

impl<T: Drop> From<AllocFailed<T>> for Failure {
    ghost use Rattle.std.specs.Prelude.{◌≡◌};
    ghost use Rattle.test_support.specs.declared.failure.Failure.TheVariants.{NoMemory};

    ghost from_gives = { λ _ e. e ≡ NoMemory };

    fn from(_: AllocFailed<T>) -> Self {
        Failure::NoMemory
    }
}

impl From<io::Error> for Failure {
    ghost use Rattle.std.specs.Prelude.{◌≡◌};
    ghost use Rattle.test_support.specs.declared.failure.Failure.TheVariants.{Outside};

    ghost from_gives = { λ error e. e ≡ Outside error };

    fn from(error: io::Error) -> Self {
        Failure::Outside(error)
    }
}
