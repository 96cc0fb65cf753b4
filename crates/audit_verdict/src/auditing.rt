//! Audits one claim: makes its turns and compares the text of that run with the output.
ghost use Rattle.std.specs.Prelude.{◌≡◌, ◌≤◌, ◌⊎◌, ℕ, List, length, IfOk, IsOkAnd, IsErrOf};
ghost use Rattle.net_model.specs.Parts.{NetParts, EntryParts};
ghost use Rattle.net_model.specs.Sound.{IsSound};
ghost use Rattle.document_reader.specs.declared.fault.Fault.{Fault as DocumentFault};
ghost use Rattle.audit_claim.specs.Claim.{IsBadDocument};
ghost use Rattle.audit_verdict.specs.Answers.{AnswersAudit, TellsAudited};
ghost use Rattle.audit_verdict.specs.Verdict.{IsAudited, IsInputOfRun, IsRefuted, IsWrittenByRun, MustBeRefuted};
ghost use Rattle.audit_verdict.specs.declared.fault.AuditKind.{AuditKind as Kind};
ghost use Rattle.audit_verdict.specs.declared.fault.AuditFault.TheVariants.{Document, NoMemory as OutOfMemory, Refuted};

use crate::counts::owed;
use crate::fault::{AuditFault, unclaimed};
use crate::kind::AuditedKind;
use audit_claim::{Claim, read_claim};
use document_reader::law::lemma_net_sound;
use net_model::{Entry, Net};
use net_tables::Tables;
use std::alloc::Global;

/// A run that is what was claimed.
#[derive(Drop)]
pub struct Audited {
    /// The net of its document.
    pub net: Net,
    /// Its journal, in the order of the turns.
    pub journal: Vec<Entry>,
    /// How many publications flooding owes, over all clients.
    pub owed: u128,
    /// How many deliveries there were, over all clients.
    pub deliveries: u128,
}

// The answer to what is claimed.
fn of_claim<K: AuditedKind>(
    alloc: Global,
    claim: Claim,
    output: &[u8],
) -> Result<Audited, AuditFault>
    requires sound { IsSound claim.net }
    requires first { claim.line ≤ 268435458 }
    requires short { length output.now ≤ 268435456 }
    ensures { TellsAudited K.kind (λ a. a.net) (λ a. a.journal.items) (λ a. a.owed) (λ a. a.deliveries)
        claim.net claim.line claim.end output.now claim.turns.items result }
{
    let Claim {
        net,
        line,
        end,
        turns,
        ..
    } = claim;
    let (journal, deliveries) = {
        let tables = Tables::of(alloc, &net)?;
        match K::run(alloc, &tables, &turns, line, end, output) {
            Ok(left) => left,
            Err(fault) => return Err(fault),
        }
    };
    let owed = owed(alloc, &net)?;
    Ok(Audited {
        net,
        journal,
        owed,
        deliveries,
    })
}

fn answered<K: AuditedKind>(alloc: Global, bytes: &[u8]) -> Result<Audited, AuditFault>
    requires { length bytes.now ≤ 268435456 }
    ensures { AnswersAudit K.kind (λ a. a.net) (λ a. a.journal.items) (λ a. a.owed) (λ a. a.deliveries) bytes.now result }
{
    K::lemma_one_verdict();
    lemma_net_sound();
    let claim = match read_claim(alloc, bytes) {
        Ok(claim) => claim,
        Err(fault) => return Err(unclaimed(fault)),
    };
    let (_, output) = bytes.split_at(claim.from);
    of_claim::<K>(alloc, claim, output)
}

/// Audits an input of at most 268,435,456 bytes: a document, a line that is exactly `output`, and the bytes that a run of the document is said
/// to have written, with its trace and in the order received, in a network of a kind. It makes the turns that the trace shows itself, and compares
/// the text of that run with the output, piece by piece: the text is never whole in memory. It says yes exactly where the document has a net and the
/// output is the text of a legal and drained run of it, out of memory aside; there is one such run, whose journal it gives. It takes the time of a
/// walk, and of flooding; where the deliveries are not those of the run, that of two walks.
pub fn audit<K: AuditedKind>(alloc: Global, bytes: &[u8]) -> Result<Audited, AuditFault>
    requires { length bytes.now ≤ 268435456 }
    ensures audited { IfOk result (λ a. IsAudited K.kind bytes.now a.net a.journal.items a.owed a.deliveries) }
    ensures complete { (net : NetParts) (journal : List EntryParts) → IsInputOfRun K.kind bytes.now net journal
        → IsOkAnd result (λ a. a.journal.items ≡ journal) ⊎ IsErrOf result OutOfMemory }
    ensures written { (net : NetParts) (journal : List EntryParts) → IsWrittenByRun K.kind bytes.now net journal
        → IsOkAnd result (λ a. a.journal.items ≡ journal) ⊎ IsErrOf result OutOfMemory }
    ensures document { (line : ℕ) (kind : DocumentFault) → IsErrOf result (Document line kind) → IsBadDocument bytes.now line kind }
    ensures refuted { (line : ℕ) (kind : Kind) → IsErrOf result (Refuted line kind) → IsRefuted K.kind bytes.now line kind }
    ensures refused_document { (line : ℕ) (kind : DocumentFault) → IsBadDocument bytes.now line kind
        → IsErrOf result (Document line kind) ⊎ IsErrOf result OutOfMemory }
    ensures must { (line : ℕ) (kind : Kind) → MustBeRefuted K.kind bytes.now line kind → IsErrOf result (Refuted line kind) ⊎ IsErrOf result OutOfMemory }
{
    K::lemma_one_verdict();
    answered::<K>(alloc, bytes)
}
