//! One call of the program over devices in memory.
ghost use Rattle.std.specs.Prelude.{◌<◌};

use crate::row::Row;
use program_sequential::{Status, Word, is_quiet, quiet, tell};
use std::alloc::Global;
use test_support::{Failure, MemorySink, MemorySource};

/// Room for what is written.
const ROOM: usize = 16_000_000;

/// The bytes of a great piece.
const PIECE: usize = 65_536;

/// What a call reported and wrote.
#[derive(Drop)]
pub struct Tried {
    /// The line to standard error, or nothing.
    pub fault: Vec<u8>,
    /// What was written.
    pub text: Vec<u8>,
}

/// The words of a line.
pub fn words(alloc: Global, line: &str) -> Result<Vec<Word>, Failure> {
    let mut words = Vec::new(alloc);
    for word in line.split_whitespace() {
        words.push(Word::of(word.as_bytes().to_vec(alloc)?))?;
    }
    Ok(words)
}

/// Room for a line to standard error.
const LINE: usize = 4_096;

/// What standard error takes, where a call ended so.
pub fn told(alloc: Global, status: Status) -> Result<Vec<u8>, Failure> {
    let mut sink = MemorySink::make(alloc, PIECE, Vec::new(alloc), LINE)?;
    let _ = tell(&mut sink, status);
    Ok(sink.bytes().to_vec(alloc)?)
}

/// A device: the bytes that it gives or takes at a call, and the calls at which it fails.
type Device<'a> = (usize, &'a [u64]);

/// Runs the words over these devices.
fn called(
    alloc: Global,
    line: &str,
    document: &[u8],
    read: Device<'_>,
    write: Device<'_>,
) -> Result<Tried, Failure>
    requires read { 0 < read.0 }
    requires write { 0 < write.0 }
{
    let words = words(alloc, line)?;
    if !is_quiet(&words) {
        return Err(Failure::Threads);
    }
    let mut source = MemorySource::make(document.to_vec(alloc)?, read.0, read.1.to_vec(alloc)?);
    let mut sink = MemorySink::make(alloc, write.0, write.1.to_vec(alloc)?, ROOM)?;
    let ended = quiet(alloc, &words, &mut source, &mut sink);
    let fault = told(alloc, ended.status)?;
    let text = sink.bytes().to_vec(alloc)?;
    Ok(Tried { fault, text })
}

/// Runs the words over a source in pieces of 16 bytes and a sink in pieces of 10, which fail at these calls.
pub fn failing(
    alloc: Global,
    line: &str,
    document: &[u8],
    read_fails: &[u64],
    write_fails: &[u64],
) -> Result<Tried, Failure> {
    called(alloc, line, document, (16, read_fails), (10, write_fails))
}

/// Runs the words over devices that don't fail, in great pieces.
pub fn at_once(alloc: Global, line: &str, document: &[u8]) -> Result<Tried, Failure> {
    called(alloc, line, document, (PIECE, &[]), (PIECE, &[]))
}

/// Runs the words over such devices that don't fail, in small pieces.
pub fn outcome(alloc: Global, line: &str, document: &[u8]) -> Result<Tried, Failure> {
    failing(alloc, line, document, &[], &[])
}

/// The bytes as text, where they are one.
pub fn shown(bytes: &[u8]) -> &str {
    std::str::from_utf8(bytes).unwrap_or("no text")
}

/// Prints whether what was reported and written is what must come, and where it isn't, what came.
pub fn print_verdict(
    rt: &impl Print,
    name: &str,
    came: &Tried,
    fault: &[u8],
    text: &[u8],
) -> Result<(), Failure> {
    if came.fault.as_slice() == fault && came.text.as_slice() == text {
        println!(rt; "{name}: as wanted")?;
    } else {
        print!(rt;
            "{name}: differs\n{}{}",
            shown(&came.fault),
            shown(&came.text)
        )?;
    }
    Ok(())
}

/// Runs rows, with this text in front of each document, and prints of each whether it came as wanted.
pub fn print_rows(
    rt: &impl Print,
    alloc: Global,
    front: &str,
    rows: &[Row],
) -> Result<(), Failure> {
    for row in rows {
        let mut document = front.as_bytes().to_vec(alloc)?;
        document.extend_from_slice(row.document.as_bytes())?;
        let came = outcome(alloc, row.words, &document)?;
        print_verdict(
            rt,
            row.name,
            &came,
            row.fault.as_bytes(),
            row.text.as_bytes(),
        )?;
    }
    Ok(())
}
