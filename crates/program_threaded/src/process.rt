//! The whole program: from its arguments and the three standard streams to the number with which it ends.
ghost use Rattle.std.specs.Prelude.{◌≡◌};
ghost use Rattle.std.specs.Io.KnownBytes.{Appends};
ghost use Rattle.base_devices.specs.Asked.{blank};
ghost use Rattle.program_sequential.specs.Status.{status_number, status_text};
ghost use Rattle.program_sequential.specs.Words.{wanted_by};
ghost use Rattle.program_threaded.specs.Processes.{IsCall, IsDone, Tells, words_behind};

use crate::arguments::words_of;
use crate::standard::with_devices;
use base_devices::{NoGate, StdSink, StdSource};
use program_sequential::{Outcome, Over, Status, Word, is_quiet, quiet_with_devices, tell};
use std::alloc::Global;
use std::env::Args;
use std::io;
use std::io::{Read, Write};
use std::sync::Wait;
use std::thread::Threads;

/// How the program ended.
#[derive(Drop)]
pub struct Ended<R: Read, W: Write, E: Write> {
    /// How its call ended, with standard input and output.
    pub over: Over<R, W>,
    /// Standard error, with what it took.
    pub errors: StdSink<E>,
    /// The number with which the program ends.
    pub number: u8,
}

// The words behind the program's name.
fn behind_name(words: &[Word]) -> &[Word]
    ensures { result.now ≡ words_behind words.now }
{
    match words {
        [_, rest @ ..] => rest,
        [] => &[],
    }
}

// The call with these words: with threads where they are words of `run`, and else on this thread, which waits for nobody.
fn called<T: Threads + Wait + Sync, R: Read, W: Write>(
    alloc: Global,
    rt: &T,
    words: &[Word],
    input: R,
    output: W,
) -> Over<R, W>
    ensures { IsCall (wanted_by words.now) input result.source.input.device result.source.input.answers result.source.ended
        (R.remaining input) (R.remaining result.source.input.device) output result.sink.output.device result.sink.output.answers
        (W.contents output) (W.contents result.sink.output.device) result.outcome.status result.outcome.journal.entries }
{
    if is_quiet(words) {
        quiet_with_devices(alloc, words, input, output)
    } else {
        with_devices(alloc, rt, words, input, output, &NoGate)
    }
}

// No call, where there are no words to be done: the devices are not asked.
fn uncalled<R: Read, W: Write>(alloc: Global, status: Status, input: R, output: W) -> Over<R, W>
    ensures status { result.outcome.status ≡ status }
    ensures input { (result.source.input.device ≡ input) × (result.source.input.answers ≡ blank) }
    ensures output { (result.sink.output.device ≡ output) × (result.sink.output.answers ≡ blank) }
{
    Over {
        outcome: Outcome::ended(alloc, status),
        source: StdSource::make(input),
        sink: StdSink::make(output),
    }
}

// Writes the text of a fault to standard error, which takes no memory. Nobody is told where that fails.
fn told<E: Write>(status: Status, errors: E) -> StdSink<E>
    ensures told { Tells (status_text status) result.output.answers }
    ensures held { Appends (E.contents errors) (E.contents result.output.device) result.output.answers.bytes }
{
    let mut sink = StdSink::make(errors);
    match tell(&mut sink, status) {
        Ok(()) => sink,
        Err(_) => sink,
    }
}

// The call by these arguments, where they can be read.
fn done<T: Threads + Wait + Sync, R: Read, W: Write>(
    alloc: Global,
    rt: &T,
    arguments: io::Result<Args>,
    input: R,
    output: W,
) -> Over<R, W>
    ensures { IsDone arguments input result.source.input.device result.source.input.answers result.source.ended
        (R.remaining input) (R.remaining result.source.input.device) output result.sink.output.device result.sink.output.answers
        (W.contents output) (W.contents result.sink.output.device) result.outcome.status result.outcome.journal.entries }
{
    match words_of(alloc, arguments) {
        Ok(words) => called(alloc, rt, behind_name(&words), input, output),
        Err(status) => uncalled(alloc, status, input, output),
    }
}

/// The whole program over its arguments, the first of which is its name, and over standard input, output and error, of which it
/// has read and written nothing before. It does what the words say, as [`with_devices`], and with no thread but this one where
/// they are none of `run`. Then it tells standard error how that ended.
///
/// Arguments that can't be read are outside of all words, unless memory was refused for them. Then nothing is done.
pub fn program<T: Threads + Wait + Sync, R: Read, W: Write, E: Write>(
    alloc: Global,
    rt: &T,
    arguments: io::Result<Args>,
    input: R,
    output: W,
    errors: E,
) -> Ended<R, W, E>
    ensures done { IsDone arguments input result.over.source.input.device result.over.source.input.answers result.over.source.ended
        (R.remaining input) (R.remaining result.over.source.input.device) output result.over.sink.output.device result.over.sink.output.answers
        (W.contents output) (W.contents result.over.sink.output.device) result.over.outcome.status result.over.outcome.journal.entries }
    ensures number { result.number ≡ status_number result.over.outcome.status }
    ensures told { Tells (status_text result.over.outcome.status) result.errors.output.answers }
    ensures held { Appends (E.contents errors) (E.contents result.errors.output.device) result.errors.output.answers.bytes }
{
    let over = done(alloc, rt, arguments, input, output);
    let status = over.outcome.status;
    let errors = told(status, errors);
    Ended {
        over,
        errors,
        number: status.number(),
    }
}
