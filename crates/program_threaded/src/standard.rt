//! The top call for all words over standard input and output.
ghost use Rattle.std.specs.Prelude.{◌≡◌, ◌≢◌, ◌≤◌, ◌<◌, ◌⊎◌, [], true, false, length};
ghost use Rattle.std.specs.Io.KnownBytes.{Appends, Consumes, IsAtEnd};
ghost use Rattle.base_devices.specs.Asked.{blank, write_faults};
ghost use Rattle.program_sequential.specs.Words.{wanted_by};
ghost use Rattle.program_sequential.specs.Answers.{reads, most_read, CanAnswer, IsReadOut};
ghost use Rattle.program_sequential.specs.Outcomes.{IsOutcome};

use crate::top::siena;
use base_devices::{Gate, StdSink, StdSource};
use program_sequential::{Over, Status, Word};
use std::alloc::Global;
use std::io::{Read, Write};
use std::sync::Wait;
use std::thread::Threads;

/// Does what the words say over a reader and a writer as standard input and output, of which this program has read and
/// written nothing before. A call with `run` returns where its threads do.
pub fn with_devices<E: Threads + Wait + Sync, R: Read, W: Write, G: Gate + Sync>(
    alloc: Global,
    rt: &E,
    words: &[Word],
    input: R,
    output: W,
    gate: &G,
) -> Over<R, W>
    ensures outcome { IsOutcome (wanted_by words.now) [] result.source.input.answers.bytes result.source.ended
        [] result.sink.output.answers.bytes result.outcome.status result.outcome.journal.entries }
    ensures sure { result.outcome.status ≢ Status.ReadFault → result.outcome.status ≢ Status.NoMemory → result.source.input.answers.errors ≡ 0 }
    ensures sure_written { result.outcome.status ≢ Status.WriteFault → write_faults result.sink.output.answers ≡ 0 }
    ensures unread { reads (wanted_by words.now) ≡ false → (result.source.input.device ≡ input) × (result.source.input.answers ≡ blank) }
    ensures at_most { length result.source.input.answers.bytes ≤ most_read (wanted_by words.now) }
    ensures told { Consumes (R.remaining input) (R.remaining result.source.input.device) result.source.input.answers.bytes }
    ensures end { result.source.ended ≡ true → IsAtEnd (R.remaining result.source.input.device) }
    ensures read_out { reads (wanted_by words.now) ≡ true → result.source.input.answers.errors ≡ 0
        → IsReadOut (most_read (wanted_by words.now)) [] result.source.input.answers.bytes result.source.ended
        ⊎ (result.outcome.status ≡ Status.NoMemory) }
    ensures held { Appends (W.contents output) (W.contents result.sink.output.device) result.sink.output.answers.bytes }
    ensures unwritten { result.outcome.status ≢ Status.Done → result.outcome.status ≢ Status.WriteFault
        → (result.sink.output.device ≡ output) × (result.sink.output.answers ≡ blank) }
    ensures read_fault { result.outcome.status ≡ Status.ReadFault → 0 < result.source.input.answers.errors }
    ensures write_fault { result.outcome.status ≡ Status.WriteFault → 0 < write_faults result.sink.output.answers }
    ensures complete { CanAnswer (wanted_by words.now) [] result.source.input.answers.bytes result.source.ended
        → write_faults result.sink.output.answers ≡ 0 → (result.outcome.status ≡ Status.Done) ⊎ (result.outcome.status ≡ Status.NoMemory) }
{
    let mut source = StdSource::make(input);
    let mut sink = StdSink::make(output);
    let outcome = siena(alloc, rt, words, &mut source, &mut sink, gate);
    Over {
        outcome,
        source,
        sink,
    }
}
