//! The type of the reasons why nothing is written, whatever was asked for.
ghost use Rattle.std.specs.Prelude.{◌≡◌};
ghost use Rattle.program_sequential.specs.Answering.{of_audit_fault, of_explain_fault, of_input_fault, of_pattern_fault, of_unread};
ghost use Rattle.program_sequential.specs.Answering.{status_of, widened};

use crate::printed::Printed;
use crate::status::Status;
use crate::unknown::Unknown;
use audit_verdict::{AuditFault, AuditKind};
use base_devices::ReadAll;
use document_reader::{Fault, InputFault};
use output_explain::ExplainFault;
use output_patterns::{PatternFault, PatternKind};

/// Why nothing is written.
#[derive(Clone, Copy, Debug, PartialEq, Eq)]
pub enum Unanswered {
    /// The document is refused, or a turn of its schedule isn't permitted; or the input is too long.
    BadInput {
        /// The line.
        line: u32,
        /// Its fault.
        kind: Fault,
    },
    /// A line behind the line `patterns` is at fault.
    BadPattern {
        /// The line.
        line: u32,
        /// Its fault.
        kind: PatternKind,
    },
    /// The output that is audited is not that of a whole run.
    Refuted {
        /// The first line at which that shows.
        line: u32,
        /// What shows there.
        kind: AuditKind,
    },
    /// The question names what the document doesn't have.
    Unknown {
        /// What isn't there.
        kind: Unknown,
    },
    /// The input could not be read.
    ReadFault,
    /// Memory ran out.
    NoMemory,
}

impl Unanswered {
    /// The status that reports it.
    pub fn status(self) -> Status
        ensures { result ≡ status_of self }
    {
        match self {
            Unanswered::BadInput { line, kind } => Status::BadInput { line, kind },
            Unanswered::BadPattern { line, kind } => Status::BadPattern { line, kind },
            Unanswered::Refuted { line, kind } => Status::Refuted { line, kind },
            Unanswered::Unknown { kind } => Status::Unknown { kind },
            Unanswered::ReadFault => Status::ReadFault,
            Unanswered::NoMemory => Status::NoMemory,
        }
    }
}

impl From<InputFault> for Unanswered {
    ghost from_gives = { λ fault e. e ≡ of_input_fault fault };

    fn from(fault: InputFault) -> Self {
        match fault {
            InputFault::Bad { line, kind } => Unanswered::BadInput { line, kind },
            InputFault::NoMemory => Unanswered::NoMemory,
        }
    }
}

impl From<ReadAll> for Unanswered {
    ghost from_gives = { λ fault e. e ≡ of_unread fault };

    fn from(fault: ReadAll) -> Self {
        match fault {
            ReadAll::TooLong => Unanswered::BadInput {
                line: 0,
                kind: Fault::TooLong,
            },
            ReadAll::Failed => Unanswered::ReadFault,
            ReadAll::NoMemory => Unanswered::NoMemory,
        }
    }
}

impl From<PatternFault> for Unanswered {
    ghost from_gives = { λ fault e. e ≡ of_pattern_fault fault };

    fn from(fault: PatternFault) -> Self {
        match fault {
            PatternFault::Document { line, kind } => Unanswered::BadInput { line, kind },
            PatternFault::Bad { line, kind } => Unanswered::BadPattern { line, kind },
            PatternFault::NoMemory => Unanswered::NoMemory,
        }
    }
}

impl From<AuditFault> for Unanswered {
    ghost from_gives = { λ fault e. e ≡ of_audit_fault fault };

    fn from(fault: AuditFault) -> Self {
        match fault {
            AuditFault::Document { line, kind } => Unanswered::BadInput { line, kind },
            AuditFault::Refuted { line, kind } => Unanswered::Refuted { line, kind },
            AuditFault::NoMemory => Unanswered::NoMemory,
        }
    }
}

impl From<ExplainFault> for Unanswered {
    ghost from_gives = { λ fault e. e ≡ of_explain_fault fault };

    fn from(fault: ExplainFault) -> Self {
        match fault {
            ExplainFault::NoClient => Unanswered::Unknown {
                kind: Unknown::Client,
            },
            ExplainFault::NoPublisher => Unanswered::Unknown {
                kind: Unknown::Publisher,
            },
            ExplainFault::NoPublication => Unanswered::Unknown {
                kind: Unknown::Number,
            },
            ExplainFault::NoMemory => Unanswered::NoMemory,
        }
    }
}

/// An answer about a document, among all answers.
pub fn widened(answer: Result<Printed, InputFault>) -> Result<Printed, Unanswered>
    ensures { result ≡ widened answer }
{
    match answer {
        Ok(printed) => Ok(printed),
        Err(fault) => Err(Unanswered::from(fault)),
    }
}
