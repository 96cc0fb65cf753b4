//! Reads what an input claims: its net, where the output begins, and the turns of its trace.
ghost use Rattle.std.specs.Prelude.{◌≡◌, ◌≤◌, ◌+◌, ◌⊎◌, ℕ, List, IfOk, IsOk, IsErrOf, codes, drop, length};
ghost use Rattle.net_model.specs.Sound.{IsSound};
ghost use Rattle.document_reader.specs.declared.fault.Fault.{Fault as DocumentFault};
ghost use Rattle.document_reader.specs.Cut.{IsCutAt, first_number};
ghost use Rattle.audit_claim.specs.Claim.{CanClaim, HasNoOutput, IsBadDocument, IsClaimOf, IsFormless, MustBeFormless, end_number};
ghost use Rattle.audit_claim.specs.Reading.{AnswersAlone, AnswersClaim, ReadsDocument};
ghost use Rattle.audit_claim.specs.declared.fault.ClaimFault.TheVariants.{Document, Form, NoMemory};

use crate::fault::ClaimFault;
use crate::trace::shown_turns;
use document_reader::law::lemma_net_sound;
use document_reader::{Cut, InputFault, cut_at, next_line, read_net};
use net_model::{Net, Turn};
use std::alloc::Global;

/// What an input claims: a net, and an output whose trace shows turns.
#[derive(Drop)]
pub struct Claim {
    /// The net of its document part.
    pub net: Net,
    /// The byte at which its output part begins.
    pub from: usize,
    /// The number of the line that begins there.
    pub line: u32,
    /// The number of the last line plus one.
    pub end: u32,
    /// The turns of the trace part, each with the line of its entry.
    pub turns: Vec<(u32, Turn)>,
}

// The net of a document part.
fn document(alloc: Global, bytes: &[u8]) -> Result<Net, ClaimFault>
    ensures read { ReadsDocument bytes.now result }
    ensures sound { IfOk result (λ net. IsSound net) }
{
    lemma_net_sound();
    match read_net(alloc, bytes) {
        Ok(net) => Ok(net),
        Err(InputFault::Bad { line, kind }) => Err(ClaimFault::Document { line, kind }),
        Err(InputFault::NoMemory) => Err(ClaimFault::NoMemory),
    }
}

// The number of the last line plus one.
fn end_of(bytes: &[u8]) -> u32
    requires { length bytes.now ≤ 268435456 }
    ensures { result ≡ end_number bytes.now }
{
    let mut number: u32 = 1;
    let mut rest = bytes;
    'lines: while let Some((_, after)) = next_line(rest) {
        number += 1;
        rest = after;
    }
    number
}

// Where there is no line `output`.
fn alone(alloc: Global, bytes: &[u8]) -> ClaimFault
    requires short { length bytes.now ≤ 268435456 }
    requires none { HasNoOutput bytes.now }
    ensures { AnswersAlone bytes.now result }
{
    match document(alloc, bytes) {
        Ok(_) => ClaimFault::Form(end_of(bytes)),
        Err(fault) => fault,
    }
}

// Where the input is cut at its first line `output`, and this byte is the first behind it.
fn with_output(alloc: Global, cut: Cut<'_>, from: usize) -> Result<Claim, ClaimFault>
    requires number { cut.number ≡ first_number cut.before.now }
    requires bound { cut.number + length cut.after.now ≤ 268435458 }
    ensures from { IfOk result (λ c. c.from ≡ from) }
    ensures line { IfOk result (λ c. c.line ≡ cut.entry.number) }
    ensures answers { (bytes : List ℕ) → IsCutAt (codes "output") bytes cut.entry.before.now cut.entry.after.now → cut.entry.after.now ≡ drop from bytes
        → AnswersClaim (λ c. c.net) (λ c. c.from) (λ c. c.line) (λ c. c.end) (λ c. c.turns.items) bytes result }
{
    let net = document(alloc, cut.before)?;
    let (turns, end) = shown_turns(alloc, &net, cut.number, cut.after)?;
    Ok(Claim {
        net,
        from,
        line: cut.number,
        end,
        turns,
    })
}

fn answered(alloc: Global, bytes: &[u8]) -> Result<Claim, ClaimFault>
    requires { length bytes.now ≤ 268435456 }
    ensures within { IfOk result (λ c. c.from ≤ length bytes.now) }
    ensures bound { IfOk result (λ c. c.line ≤ 268435458) }
    ensures answers { AnswersClaim (λ c. c.net) (λ c. c.from) (λ c. c.line) (λ c. c.end) (λ c. c.turns.items) bytes.now result }
{
    match cut_at(bytes, b"output".as_slice()) {
        Some(cut) => with_output(alloc, cut, bytes.len() - cut.after.len()),
        None => Err(alone(alloc, bytes)),
    }
}

/// What an input of at most 268,435,456 bytes claims, or why it claims nothing. It is cut at its first line that is exactly `output`: what stands before is
/// the document, whose end is that line, and what stands behind is an output, whose trace begins at its first line with the first word `trace`. That line is
/// `trace` and a number; each line behind it is that of an entry of the net, or begins with `out` and a space. In the output a line ends with a newline alone.
/// The document part is refused before any line behind it. It takes time in proportion to the input, but that a client is looked up for each command.
pub fn read_claim(alloc: Global, bytes: &[u8]) -> Result<Claim, ClaimFault>
    requires { length bytes.now ≤ 268435456 }
    ensures claim { IfOk result (λ c. IsClaimOf bytes.now c.net c.from c.line c.end c.turns.items) }
    ensures within { IfOk result (λ c. c.from ≤ length bytes.now) }
    ensures bound { IfOk result (λ c. c.line ≤ 268435458) }
    ensures given { CanClaim bytes.now → IsOk result ⊎ IsErrOf result NoMemory }
    ensures document { (line : ℕ) (kind : DocumentFault) → IsErrOf result (Document line kind) → IsBadDocument bytes.now line kind }
    ensures form { (line : ℕ) → IsErrOf result (Form line) → IsFormless bytes.now line }
    ensures refused_document { (line : ℕ) (kind : DocumentFault) → IsBadDocument bytes.now line kind
        → IsErrOf result (Document line kind) ⊎ IsErrOf result NoMemory }
    ensures refused_form { (line : ℕ) → MustBeFormless bytes.now line → IsErrOf result (Form line) ⊎ IsErrOf result NoMemory }
{
    answered(alloc, bytes)
}
