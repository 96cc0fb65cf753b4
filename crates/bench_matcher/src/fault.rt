//! The type of the faults for which nothing was measured.
use base::NoMemory;
use filter_constraints::BadConstraint;
use filter_types::{FilterFault, NoticeFault};
use filter_values::{NameFault, TextFault};
use std::alloc::{AllocError, AllocFailed};
use std::io;

/// Why nothing was measured.
#[derive(Debug, Drop)]
pub enum Fault {
    /// A name was not made.
    Name(NameFault),
    /// A text was not made.
    Text(TextFault),
    /// A constraint was not made.
    Constraint(BadConstraint),
    /// A filter was not made.
    Filter(FilterFault),
    /// A notice was not made.
    Notice(NoticeFault),
    /// Memory ran out.
    NoMemory,
    /// The clock or the output failed.
    Outside(io::Error),
    /// The table and the scan gave different routes.
    Differences(usize),
    /// The words after the program's name are not known.
    Usage,
}

impl From<NameFault> for Fault {
    ghost use Rattle.std.specs.Prelude.{◌≡◌};
    ghost use Rattle.bench_matcher.specs.declared.fault.Fault.TheVariants.{Name};

    ghost from_gives = { λ fault e. e ≡ Name fault };

    fn from(fault: NameFault) -> Self {
        Fault::Name(fault)
    }
}

impl From<TextFault> for Fault {
    ghost use Rattle.std.specs.Prelude.{◌≡◌};
    ghost use Rattle.bench_matcher.specs.declared.fault.Fault.TheVariants.{Text};

    ghost from_gives = { λ fault e. e ≡ Text fault };

    fn from(fault: TextFault) -> Self {
        Fault::Text(fault)
    }
}

impl From<BadConstraint> for Fault {
    ghost use Rattle.std.specs.Prelude.{◌≡◌};
    ghost use Rattle.bench_matcher.specs.declared.fault.Fault.TheVariants.{Constraint};

    ghost from_gives = { λ fault e. e ≡ Constraint fault };

    fn from(fault: BadConstraint) -> Self {
        Fault::Constraint(fault)
    }
}

impl From<FilterFault> for Fault {
    ghost use Rattle.std.specs.Prelude.{◌≡◌};
    ghost use Rattle.bench_matcher.specs.declared.fault.Fault.TheVariants.{Filter};

    ghost from_gives = { λ fault e. e ≡ Filter fault };

    fn from(fault: FilterFault) -> Self {
        Fault::Filter(fault)
    }
}

impl From<NoticeFault> for Fault {
    ghost use Rattle.std.specs.Prelude.{◌≡◌};
    ghost use Rattle.bench_matcher.specs.declared.fault.Fault.TheVariants.{Notice};

    ghost from_gives = { λ fault e. e ≡ Notice fault };

    fn from(fault: NoticeFault) -> Self {
        Fault::Notice(fault)
    }
}

impl From<NoMemory> for Fault {
    ghost use Rattle.std.specs.Prelude.{◌≡◌};
    ghost use Rattle.bench_matcher.specs.declared.fault.Fault.TheVariants.{NoMemory};

    ghost from_gives = { λ _ e. e ≡ NoMemory };

    fn from(_: NoMemory) -> Self {
        Fault::NoMemory
    }
}

impl From<AllocError> for Fault {
    ghost use Rattle.std.specs.Prelude.{◌≡◌};
    ghost use Rattle.bench_matcher.specs.declared.fault.Fault.TheVariants.{NoMemory};

    ghost from_gives = { λ _ e. e ≡ NoMemory };

    fn from(_: AllocError) -> Self {
        Fault::NoMemory
    }
}

impl<T: Drop> From<AllocFailed<T>> for Fault {
    ghost use Rattle.std.specs.Prelude.{◌≡◌};
    ghost use Rattle.bench_matcher.specs.declared.fault.Fault.TheVariants.{NoMemory};

    ghost from_gives = { λ _ e. e ≡ NoMemory };

    fn from(_: AllocFailed<T>) -> Self {
        Fault::NoMemory
    }
}

impl From<io::Error> for Fault {
    ghost use Rattle.std.specs.Prelude.{◌≡◌};
    ghost use Rattle.bench_matcher.specs.declared.fault.Fault.TheVariants.{Outside};

    ghost from_gives = { λ error e. e ≡ Outside error };

    fn from(error: io::Error) -> Self {
        Fault::Outside(error)
    }
}
