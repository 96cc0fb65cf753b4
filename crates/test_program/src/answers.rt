//! A reader and a writer that answer as devices may: in small pieces, with an error, or with nothing.
ghost use Rattle.std.specs.Prelude.{◌≡◌, IfOk};

use std::alloc::Global;
use std::io;
use std::io::{ErrorKind, Read, Write};

/// What a device answers at one of its calls, in place of moving bytes.
#[derive(Clone, Copy, Debug, PartialEq, Eq)]
pub enum Stop {
    /// No error, and no byte.
    Nothing,
    /// An error of this kind.
    Error(ErrorKind),
}

impl Stop {
    ghost use Rattle.std.specs.Prelude.{◌≡◌, IfOk};

    /// The answer.
    fn answer(self) -> io::Result<usize>
        ensures { IfOk result (λ n. n ≡ 0) }
    {
        match self {
            Stop::Nothing => Ok(0),
            Stop::Error(kind) => Err(io::Error::from(kind)),
        }
    }
}

/// How a device moves bytes: at most so many a call, and at the call of this number, from 1, it stops.
#[derive(Clone, Copy)]
pub struct Manner {
    /// The bytes of a call.
    pub piece: usize,
    /// The call at which it stops, and how.
    pub stop: Option<(u64, Stop)>,
}

/// The calls so far, and how they go.
#[derive(Drop)]
struct Calls {
    manner: Manner,
    count: u64,
}

impl Calls {
    /// Counts a call, and says how it stops, if it does.
    fn next(&mut self) -> Option<Stop> {
        self.count = self.count.saturating_add(1);
        match self.manner.stop {
            Some((call, stop)) if call == self.count => Some(stop),
            _ => None,
        }
    }
}

/// Gives bytes in its manner.
#[derive(Drop)]
pub struct Reader {
    rest: &'static [u8],
    calls: Calls,
}

impl Reader {
    /// A reader of these bytes.
    pub fn make(bytes: &'static [u8], manner: Manner) -> Reader {
        Reader {
            rest: bytes,
            calls: Calls { manner, count: 0 },
        }
    }
}

impl Read for Reader {
    fn read(&mut self, into: &mut [u8]) -> io::Result<usize> {
        if let Some(stop) = self.calls.next() {
            return stop.answer();
        }
        let count = self.rest.len().min(self.calls.manner.piece).min(into.len());
        into[..count].copy_from_slice(&self.rest[..count]);
        self.rest = &self.rest[count..];
        Ok(count)
    }
}

/// Takes bytes in its manner.
#[derive(Drop)]
pub struct Writer {
    bytes: Vec<u8>,
    calls: Calls,
}

impl Writer {
    /// A writer that holds nothing.
    pub fn make(alloc: Global, manner: Manner) -> Writer {
        Writer {
            bytes: Vec::new(alloc),
            calls: Calls { manner, count: 0 },
        }
    }

    /// The bytes that it took.
    pub fn into_bytes(self) -> Vec<u8> {
        self.bytes
    }
}

impl Write for Writer {
    fn write(&mut self, from: &[u8]) -> io::Result<usize> {
        if let Some(stop) = self.calls.next() {
            return stop.answer();
        }
        let count = from.len().min(self.calls.manner.piece);
        self.bytes.extend_from_slice(&from[..count])?;
        Ok(count)
    }

    fn flush(&mut self) -> io::Result<()> {
        Ok(())
    }
}
