//! The types of the faults for which an input with patterns is refused.
ghost use Rattle.std.specs.Prelude.{◌≡◌};
ghost use Rattle.output_patterns.specs.declared.fault.PatternFault.TheVariants as faults;

use base::NoMemory;
use document_reader::{Fault, LineFault};

/// What is at fault with a line behind the line `patterns`, or with the end. The faults are tested in this order.
#[derive(Clone, Copy, Debug, PartialEq, Eq)]
pub enum PatternKind {
    /// The pattern before it has fewer than 2 steps.
    Short,
    /// It begins with neither `pattern` nor `step`, or it is a step before any pattern.
    Order,
    /// `pattern` isn't followed by two names.
    Words,
    /// The pattern's client is none of the document, or has a pattern with that label.
    Name,
    /// There are 1,024 patterns already, the pattern has 8 steps already, or the step has more than 16 constraints.
    Count,
    /// The step is not of the form of a subscription.
    Syntax,
    /// A number or a string of the step is beyond its limits.
    Value,
    /// The empty operand of a `prefix`, `suffix` or `contains` of the step.
    Operand,
}

/// What a rule answers, unless the line is at fault or memory ran out.
pub(crate) type Ruled<T> = Result<T, LineFault<PatternKind>>;

/// Why an input gives no net with patterns. Lines are numbered from 1 through the whole input. The end counts as the line
/// behind the last; that of the document part is the line `patterns`.
#[derive(Clone, Copy, Debug, PartialEq, Eq)]
pub enum PatternFault {
    /// The document part is refused.
    Document {
        /// The first line at fault.
        line: u32,
        /// Its first fault.
        kind: Fault,
    },
    /// A line behind the line `patterns` is at fault, or the end is.
    Bad {
        /// The first line at fault.
        line: u32,
        /// Its first fault.
        kind: PatternKind,
    },
    /// Memory ran out.
    NoMemory,
}

impl From<NoMemory> for PatternFault {
    ghost from_gives = { λ _ e. e ≡ faults.NoMemory };

    fn from(_: NoMemory) -> Self {
        PatternFault::NoMemory
    }
}
