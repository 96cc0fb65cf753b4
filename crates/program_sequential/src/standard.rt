//! The top call on one thread over standard input and output.
ghost use Rattle.std.specs.Prelude.{◌≡◌, ◌≢◌, ◌≤◌, ◌<◌, ◌⊎◌, [], true, false, length};
ghost use Rattle.std.specs.Io.KnownBytes.{Appends, Consumes, IsAtEnd};
ghost use Rattle.base_devices.specs.Asked.{blank, write_faults};
ghost use Rattle.program_sequential.specs.Words.{wanted_by, AreNoneOfRun};
ghost use Rattle.program_sequential.specs.Answers.{reads, most_read, CanAnswer, IsReadOut};
ghost use Rattle.program_sequential.specs.Outcomes.{IsOutcome};

use crate::status::Status;
use crate::top::{Outcome, quiet};
use crate::words::Word;
use base_devices::{StdSink, StdSource};
use std::alloc::Global;
use std::io::{Read, Write};

/// How a call ended, with the devices that it was made over: contracts see what these gave and took.
#[derive(Drop)]
pub struct Over<R: Read, W: Write> {
    /// How it ended, with its journal.
    pub outcome: Outcome,
    /// The reader, with what it gave.
    pub source: StdSource<R>,
    /// The writer, with what it took.
    pub sink: StdSink<W>,
}

/// Does what the words say, which are none of `run`, over a reader and a writer as standard input and output, of which this
/// program has read and written nothing before. It starts no thread and waits for nobody.
pub fn quiet_with_devices<R: Read, W: Write>(
    alloc: Global,
    words: &[Word],
    input: R,
    output: W,
) -> Over<R, W>
    requires { AreNoneOfRun (wanted_by words.now) }
    ensures outcome { IsOutcome (wanted_by words.now) [] result.source.input.answers.bytes result.source.ended
        [] result.sink.output.answers.bytes result.outcome.status result.outcome.journal.entries }
    ensures sure { result.outcome.status ≢ Status.ReadFault → result.outcome.status ≢ Status.NoMemory → result.source.input.answers.errors ≡ 0 }
    ensures sure_written { result.outcome.status ≢ Status.WriteFault → write_faults result.sink.output.answers ≡ 0 }
    ensures unread { reads (wanted_by words.now) ≡ false → (result.source.input.device ≡ input) × (result.source.input.answers ≡ blank) }
    ensures at_most { length result.source.input.answers.bytes ≤ most_read (wanted_by words.now) }
    ensures told { Consumes (R.remaining input) (R.remaining result.source.input.device) result.source.input.answers.bytes }
    ensures end { result.source.ended ≡ true → IsAtEnd (R.remaining result.source.input.device) }
    ensures read_out { reads (wanted_by words.now) ≡ true → result.source.input.answers.errors ≡ 0
        → IsReadOut (most_read (wanted_by words.now)) [] result.source.input.answers.bytes result.source.ended
        ⊎ (result.outcome.status ≡ Status.NoMemory) }
    ensures held { Appends (W.contents output) (W.contents result.sink.output.device) result.sink.output.answers.bytes }
    ensures unwritten { result.outcome.status ≢ Status.Done → result.outcome.status ≢ Status.WriteFault
        → (result.sink.output.device ≡ output) × (result.sink.output.answers ≡ blank) }
    ensures read_fault { result.outcome.status ≡ Status.ReadFault → 0 < result.source.input.answers.errors }
    ensures write_fault { result.outcome.status ≡ Status.WriteFault → 0 < write_faults result.sink.output.answers }
    ensures complete { CanAnswer (wanted_by words.now) [] result.source.input.answers.bytes result.source.ended
        → write_faults result.sink.output.answers ≡ 0 → (result.outcome.status ≡ Status.Done) ⊎ (result.outcome.status ≡ Status.NoMemory) }
{
    let mut source = StdSource::make(input);
    let mut sink = StdSink::make(output);
    let outcome = quiet(alloc, words, &mut source, &mut sink);
    Over {
        outcome,
        source,
        sink,
    }
}
