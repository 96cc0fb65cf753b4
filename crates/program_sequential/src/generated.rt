//! Makes the text that is printed for a seed.
ghost use Rattle.std.specs.Prelude.{ℕ, IfOk};
ghost use Rattle.document_reader.specs.Net.{IsBadAt};
ghost use Rattle.program_sequential.specs.Printed.{IsSummaryOf};
ghost use Rattle.program_sequential.specs.Answers.{IsGenerated};

use crate::body::Body;
use crate::printed::Printed;
use crate::ran::walked;
use crate::reading::net;
use crate::summary::run_summary;
use base::NoMemory;
use document_generate::generate;
use document_generated::law::lemma_has_net;
use document_reader::{Fault, InputFault};
use sequential_network::Kept;
use std::alloc::Global;

// The summary of the walk of a document of which no line is at fault.
fn summary(alloc: Global, bytes: &[u8]) -> Result<Printed, NoMemory>
    requires { (line : ℕ) (kind : Fault) → IsBadAt bytes.now line kind → ⊥ }
    ensures { IfOk result (λ p. IsSummaryOf bytes.now p.text p.journal) }
{
    let net = match net(alloc, bytes) {
        Ok(net) => net,
        Err(InputFault::NoMemory) => return Err(NoMemory),
        Err(InputFault::Bad { .. }) => unreachable!(),
    };
    let ran = walked::<Kept>(alloc, &net)?;
    let text = run_summary(alloc, &net, &ran)?;
    Printed::make(alloc, Body::Nothing, text, ran.journal)
}

/// The document that a seed makes, or the summary of its walk.
pub fn of_seed(alloc: Global, seed: u64, summarized: bool) -> Result<Printed, NoMemory>
    ensures { IfOk result (λ p. IsGenerated seed summarized p.text p.journal) }
{
    let document = generate(alloc, seed)?;
    lemma_has_net();
    if summarized {
        summary(alloc, &document)
    } else {
        Printed::alone(alloc, document)
    }
}
