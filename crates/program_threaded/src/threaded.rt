//! Makes what is printed for a run with threads.
ghost use Rattle.std.specs.Prelude.{◌⊎◌, ℕ, IfOk, IsOk, IsErrOf};
ghost use Rattle.net_model.specs.Sound.{IsSound};
ghost use Rattle.program_sequential.specs.Ran.{IsShown};
ghost use Rattle.program_sequential.specs.Faults.{IsAtFault, MustBeRefused, CanBeDone};
ghost use Rattle.program_sequential.specs.Answers.{IsPrintedOf};
ghost use Rattle.program_threaded.specs.Wishes.{query_of};

use crate::run::run_net;
use base::NoMemory;
use base_devices::Gate;
use document_reader::{Fault, InputFault};
use net_model::Net;
use program_sequential::{Printed, Schedule, Shown, lemma_promise, net, printed_run};
use std::alloc::Global;
use std::sync::Wait;
use std::thread::Threads;

/// So many threads a run of the program has at most: more of them gain nothing on four processors.
const THREADS: usize = 4;

/// The run of a net.
fn shown<R: Threads + Wait + Sync, G: Gate + Sync>(
    alloc: Global,
    rt: &R,
    net: Net,
    shown: Shown,
    gate: &G,
) -> Result<Printed, NoMemory>
    requires { IsSound net }
    ensures { IfOk result (λ p. IsShown Schedule.Threads shown net p.text p.journal) }
{
    let ran = run_net(alloc, rt, &net, gate, THREADS, shown.trace)?;
    printed_run(alloc, net, ran, shown)
}

/// The run of a document.
pub(crate) fn of_document<R: Threads + Wait + Sync, G: Gate + Sync>(
    alloc: Global,
    rt: &R,
    bytes: &[u8],
    options: Shown,
    gate: &G,
) -> Result<Printed, InputFault>
    ensures printed { IfOk result (λ p. IsPrintedOf (query_of options) bytes.now p.text p.journal) }
    ensures bad { (line : ℕ) (kind : Fault) → IsErrOf result (InputFault.Bad line kind)
        → IsAtFault (query_of options) bytes.now line kind }
    ensures refused { (line : ℕ) (kind : Fault) → MustBeRefused (query_of options) bytes.now line kind
        → IsErrOf result (InputFault.Bad line kind) ⊎ IsErrOf result InputFault.NoMemory }
    ensures done { CanBeDone (query_of options) bytes.now → IsOk result ⊎ IsErrOf result InputFault.NoMemory }
{
    lemma_promise();
    let net = net(alloc, bytes)?;
    match shown(alloc, rt, net, options, gate) {
        Ok(printed) => Ok(printed),
        Err(NoMemory) => Err(InputFault::NoMemory),
    }
}
