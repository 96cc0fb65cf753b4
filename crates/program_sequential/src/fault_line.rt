//! Tells a sink how a run ended: one line on each fault, in pieces. No call takes memory.
ghost use Rattle.std.specs.Prelude.{◌≡◌, OnOk, OnErr};
ghost use Rattle.base_devices.specs.Cause.{HasCause};
ghost use Rattle.base_devices.specs.Sinks.{Took, TookFront};
ghost use Rattle.program_sequential.specs.Pieces.{joined};
ghost use Rattle.program_sequential.specs.Status.{refusal_text, refuted_text, status_text, unanswerable_text};

use crate::sentences::{kind_means, pattern_means, unknown_means};
use crate::status::{Status, audit_text, kind_text, pattern_text, unknown_text};
use base_devices::{Failed, Sink, write_all};
use itoa::Buffer;
use program_help::usage;

// Writes pieces, one behind the other.
fn write_pieces<K: Sink>(sink: &mut K, pieces: &[&[u8]]) -> Result<(), Failed>
    ensures ok { OnOk result (Took (K.state sink.old) (K.state sink.new) (joined pieces.now)) }
    ensures err { OnErr result (TookFront (K.state sink.old) (K.state sink.new) (joined pieces.now)) }
    ensures cause { HasCause (K.state sink.old).faults (K.state sink.new).faults result }
{
    for piece in pieces {
        write_all(sink, piece)?;
    }
    Ok(())
}

// The line of a refusal: the word of its kind, and what this means.
fn tell_refusal<K: Sink>(
    sink: &mut K,
    line: u32,
    word: &[u8],
    represents: &[u8],
) -> Result<(), Failed>
    ensures ok { OnOk result (Took (K.state sink.old) (K.state sink.new) (refusal_text line word.now represents.now)) }
    ensures err { OnErr result (TookFront (K.state sink.old) (K.state sink.new) (refusal_text line word.now represents.now)) }
    ensures cause { HasCause (K.state sink.old).faults (K.state sink.new).faults result }
{
    let mut number = Buffer::new();
    let line = number.format(line).as_bytes();
    write_pieces(
        sink,
        &[b"siena: line ", line, b": ", word, b": ", represents, b"\n"],
    )
}

// The line of an audit that refutes: the word of its kind.
fn tell_refuted<K: Sink>(sink: &mut K, line: u32, word: &[u8]) -> Result<(), Failed>
    ensures ok { OnOk result (Took (K.state sink.old) (K.state sink.new) (refuted_text line word.now)) }
    ensures err { OnErr result (TookFront (K.state sink.old) (K.state sink.new) (refuted_text line word.now)) }
    ensures cause { HasCause (K.state sink.old).faults (K.state sink.new).faults result }
{
    let mut number = Buffer::new();
    let line = number.format(line).as_bytes();
    write_pieces(sink, &[b"siena: audit: line ", line, b": ", word, b"\n"])
}

// The line of a question that names what isn't there: the word of its kind, and what this means.
fn tell_unknown<K: Sink>(sink: &mut K, word: &[u8], represents: &[u8]) -> Result<(), Failed>
    ensures ok { OnOk result (Took (K.state sink.old) (K.state sink.new) (unanswerable_text word.now represents.now)) }
    ensures err { OnErr result (TookFront (K.state sink.old) (K.state sink.new) (unanswerable_text word.now represents.now)) }
    ensures cause { HasCause (K.state sink.old).faults (K.state sink.new).faults result }
{
    write_pieces(sink, &[b"siena: explain: ", word, b": ", represents, b"\n"])
}

/// Tells a sink how a run ended: one line on each fault, the usage where the words are outside, or nothing where the run is
/// done. It fails only where the sink does, and takes no memory.
#[tactic(auto, unfolding(crate::specs::Status::status_text))]
pub fn tell<K: Sink>(sink: &mut K, status: Status) -> Result<(), Failed>
    ensures ok { OnOk result (Took (K.state sink.old) (K.state sink.new) (status_text status)) }
    ensures err { OnErr result (TookFront (K.state sink.old) (K.state sink.new) (status_text status)) }
    ensures cause { HasCause (K.state sink.old).faults (K.state sink.new).faults result }
{
    match status {
        Status::Done => write_all(sink, b""),
        Status::Usage => write_all(sink, usage()),
        Status::BadInput { line, kind } => {
            tell_refusal(sink, line, kind_text(kind), kind_means(kind))
        }
        Status::BadPattern { line, kind } => {
            tell_refusal(sink, line, pattern_text(kind), pattern_means(kind))
        }
        Status::Refuted { line, kind } => tell_refuted(sink, line, audit_text(kind)),
        Status::Unknown { kind } => tell_unknown(sink, unknown_text(kind), unknown_means(kind)),
        Status::ReadFault => write_all(sink, b"siena: the input could not be read\n"),
        Status::WriteFault => write_all(sink, b"siena: the output could not be written\n"),
        Status::NoMemory => write_all(sink, b"siena: out of memory\n"),
    }
}
