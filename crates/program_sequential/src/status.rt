//! The type of how a run ends, and the words of faults.
ghost use Rattle.std.specs.Prelude.{◌≡◌};
ghost use Rattle.program_sequential.specs.Status.{audit_text, kind_text, pattern_text, status_number, unknown_text};

use crate::unknown::Unknown;
use audit_verdict::AuditKind;
use document_reader::Fault;
use output_patterns::PatternKind;

/// How a run ended. A bad input is reported with the number of its line: the end counts as the line behind the last, and 0
/// represents the whole.
#[derive(Clone, Copy, Debug, PartialEq, Eq)]
pub enum Status {
    /// All was read and written.
    Done,
    /// The words are outside.
    Usage,
    /// The document is refused, or a turn of its schedule isn't permitted.
    BadInput {
        /// The line.
        line: u32,
        /// Its fault.
        kind: Fault,
    },
    /// A line behind the line `patterns` is at fault, or the end is.
    BadPattern {
        /// The line.
        line: u32,
        /// Its fault.
        kind: PatternKind,
    },
    /// A question names what the document doesn't have.
    Unknown {
        /// What isn't there.
        kind: Unknown,
    },
    /// What is audited is no output of a whole run.
    Refuted {
        /// The first line at which that shows.
        line: u32,
        /// What shows there.
        kind: AuditKind,
    },
    /// The input could not be read.
    ReadFault,
    /// The output could not be written.
    WriteFault,
    /// Memory ran out.
    NoMemory,
}

impl Status {
    /// The number with which the program ends.
    pub fn number(self) -> u8
        ensures { result ≡ status_number self }
    {
        match self {
            Status::Done => 0,
            Status::Usage => 2,
            Status::BadInput { line: _, kind: _ } => 3,
            Status::BadPattern { line: _, kind: _ } => 8,
            Status::Refuted { line: _, kind: _ } => 9,
            Status::Unknown { kind: _ } => 10,
            Status::ReadFault => 4,
            Status::WriteFault => 5,
            Status::NoMemory => 6,
        }
    }
}

/// The word of a document's fault.
pub(crate) fn kind_text(kind: Fault) -> &'static [u8]
    ensures { result.now ≡ kind_text kind }
{
    match kind {
        Fault::TooLong => b"toolong",
        Fault::Ended => b"ended",
        Fault::Header => b"header",
        Fault::Order => b"order",
        Fault::Words => b"words",
        Fault::Range => b"range",
        Fault::Apart => b"apart",
        Fault::Twice => b"twice",
        Fault::Loop => b"loop",
        Fault::Name => b"name",
        Fault::Count => b"count",
        Fault::Syntax => b"syntax",
        Fault::Value => b"value",
        Fault::Operand => b"operand",
        Fault::Repeat => b"repeat",
        Fault::Commands => b"commands",
        Fault::Publications => b"publications",
        Fault::MuchControl => b"muchcontrol",
        Fault::MuchNotice => b"muchnotice",
        Fault::BadTurn => b"badturn",
    }
}

/// The word of a fault behind the line `patterns`.
pub(crate) fn pattern_text(kind: PatternKind) -> &'static [u8]
    ensures { result.now ≡ pattern_text kind }
{
    match kind {
        PatternKind::Short => b"short",
        PatternKind::Order => b"order",
        PatternKind::Words => b"words",
        PatternKind::Name => b"name",
        PatternKind::Count => b"count",
        PatternKind::Syntax => b"syntax",
        PatternKind::Value => b"value",
        PatternKind::Operand => b"operand",
    }
}

/// The word of what shows that an input is no output of a whole run.
pub(crate) fn audit_text(kind: AuditKind) -> &'static [u8]
    ensures { result.now ≡ audit_text kind }
{
    match kind {
        AuditKind::Form => b"form",
        AuditKind::BadTurn => b"badturn",
        AuditKind::Differs => b"differs",
        AuditKind::Open => b"open",
    }
}

/// The word of what isn't there.
pub(crate) fn unknown_text(kind: Unknown) -> &'static [u8]
    ensures { result.now ≡ unknown_text kind }
{
    match kind {
        Unknown::Client => b"client",
        Unknown::Publisher => b"publisher",
        Unknown::Number => b"number",
    }
}
