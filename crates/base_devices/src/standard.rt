//! Makes standard input and output a source and a sink.
use crate::{Asked, Failed, Sink, Source};
use std::io::{Read, Write};

/// A source over a reader, as over standard input. Its faults are the errors that the reader answered.
#[derive(Drop)]
pub struct StdSource<R: Read> {
    input: Asked<R>,
    ended: bool,
}

impl<R: Read> StdSource<R> {
    ghost use Rattle.std.specs.Prelude.{◌≡◌, false};
    ghost use Rattle.base_devices.specs.Asked.{blank};

    /// A source over this reader, which was not asked yet.
    pub fn make(input: R) -> StdSource<R>
        ensures device { result.input.device ≡ input }
        ensures answers { result.input.answers ≡ blank }
        ensures ended { result.ended ≡ false }
    {
        StdSource {
            input: Asked::make(input),
            ended: false,
        }
    }
}

impl<R: Read> Source for StdSource<R> {
    ghost given = { λ s. s.input.answers.bytes };

    ghost ended = { λ s. s.ended };

    ghost left = { λ s. R.remaining s.input.device };

    ghost faults = { λ s. s.input.answers.errors };

    fn read(&mut self, into: &mut [u8]) -> Result<usize, Failed> {
        match self.input.read(into) {
            Ok(count) => {
                self.ended = count == 0 && !into.is_empty();
                Ok(count)
            }
            Err(_) => {
                self.ended = false;
                Err(Failed)
            }
        }
    }
}

/// A sink over a writer, as over standard output. Its faults are the errors that the writer answered, and the times when it
/// took nothing of a piece.
#[derive(Drop)]
pub struct StdSink<W: Write> {
    output: Asked<W>,
}

impl<W: Write> StdSink<W> {
    ghost use Rattle.std.specs.Prelude.{◌≡◌};
    ghost use Rattle.base_devices.specs.Asked.{blank};

    /// A sink over this writer, which was not asked yet.
    pub fn make(output: W) -> StdSink<W>
        ensures device { result.output.device ≡ output }
        ensures answers { result.output.answers ≡ blank }
    {
        StdSink {
            output: Asked::make(output),
        }
    }
}

impl<W: Write> Sink for StdSink<W> {
    ghost use Rattle.base_devices.specs.Asked.{write_faults};

    ghost state = { λ s. record {
      taken = s.output.answers.bytes;
      contents = W.contents s.output.device;
      faults = write_faults s.output.answers;
    } };

    fn write(&mut self, from: &[u8]) -> Result<usize, Failed> {
        match self.output.write(from) {
            Ok(count) if count > 0 || from.is_empty() => Ok(count),
            _ => Err(Failed),
        }
    }
}
