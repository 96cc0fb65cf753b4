//! The type of the faults for which a claimed run is refuted.
ghost use Rattle.std.specs.Prelude.{◌≡◌};
ghost use Rattle.audit_verdict.specs.Answers.{fault_of_claim};
ghost use Rattle.audit_verdict.specs.declared.fault.AuditFault.TheVariants as faults;

use audit_claim::ClaimFault;
use base::NoMemory;
use document_reader::Fault;

/// What is wrong with a claimed run. These are tried in this order.
#[derive(Clone, Copy, Debug, PartialEq, Eq)]
pub enum AuditKind {
    /// There is no output or no trace, or a line of the trace is not of its form.
    Form,
    /// The turn of an entry is not permitted when it comes.
    BadTurn,
    /// The output is not the text of the run that its turns make.
    Differs,
    /// The run is not at its end: a command is left, or a message on a link, or something is pending.
    Open,
}

/// Why an input is no claim of a run that was made. Lines are numbered from 1 through the whole input; the end counts as the line behind the last.
#[derive(Clone, Copy, Debug, PartialEq, Eq)]
pub enum AuditFault {
    /// The document part is refused.
    Document {
        /// The first line at fault.
        line: u32,
        /// Its first fault.
        kind: Fault,
    },
    /// What is claimed is no output of a whole run.
    Refuted {
        /// The first line at which that shows.
        line: u32,
        /// What shows there.
        kind: AuditKind,
    },
    /// Memory ran out.
    NoMemory,
}

/// Of an input that claims nothing.
pub(crate) fn unclaimed(fault: ClaimFault) -> AuditFault
    ensures { result ≡ fault_of_claim fault }
{
    match fault {
        ClaimFault::Document { line, kind } => AuditFault::Document { line, kind },
        ClaimFault::Form(line) => AuditFault::Refuted {
            line,
            kind: AuditKind::Form,
        },
        ClaimFault::NoMemory => AuditFault::NoMemory,
    }
}

impl From<NoMemory> for AuditFault {
    ghost from_gives = { λ _ e. e ≡ faults.NoMemory };

    fn from(_: NoMemory) -> Self {
        AuditFault::NoMemory
    }
}
