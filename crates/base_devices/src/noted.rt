//! A device with a record of its answers, which only clauses read: the trusted edge.
ghost use Rattle.std.specs.Prelude.{◌≡◌, ◌≤◌, ℕ, List, [], ◌++◌, ◌+◌, length, IfOk};
ghost use Rattle.std.specs.Borrow.{ftrue};
ghost use Rattle.base_devices.specs.Asked.{noted};

use std::io;
use std::io::{Read, Write};
use std::marker::{Model, PhantomData};

/// A list of bytes that takes no memory. Nothing at run time reads it, so it is no more than what its two calls say: `none`
/// starts it, and `note` puts bytes behind it.
#[derive(Drop)]
pub struct Noted {
    marker: PhantomData<u8>,
    /// The bytes noted so far, the first ones first.
    pub ghost bytes: { List ℕ },
}

impl Model for Noted {
    ghost also_owns = { λ _. ftrue };
}

impl Noted {
    /// Nothing is noted.
    fn none() -> Noted
        ensures { result.bytes ≡ [] }
    {
        Noted {
            marker: PhantomData,
        }
    }

    /// Notes these bytes behind those before.
    fn note(&mut self, _bytes: &[u8])
        ensures { self.new.bytes ≡ self.old.bytes ++ _bytes.now }
    {}
}

/// A number that takes no memory, as [`Noted`] is a list that takes none.
#[derive(Drop)]
pub struct Count {
    marker: PhantomData<u8>,
    /// The number.
    pub ghost number: { ℕ },
}

impl Model for Count {
    ghost also_owns = { λ _. ftrue };
}

impl Count {
    /// Nothing is counted.
    fn zero() -> Count
        ensures { result.number ≡ 0 }
    {
        Count {
            marker: PhantomData,
        }
    }

    /// Counts one more.
    fn more(&mut self)
        ensures { self.new.number ≡ self.old.number + 1 }
    {}
}

/// What a device answered: the bytes that moved, how often it failed, and how often nothing moved though there was room or
/// something to take. It takes no memory. Contracts see it as one value.
#[derive(Drop)]
pub struct Answers {
    bytes: Noted,
    errors: Count,
    empties: Count,
}

impl Model for Answers {
    ghost use Rattle.base_devices.specs.Asked.{AnswersParts};

    ghost Value = { AnswersParts };

    ghost view = { λ a. record { bytes = a.bytes.bytes; errors = a.errors.number; empties = a.empties.number } };
}

impl Answers {
    ghost use Rattle.base_devices.specs.Asked.{blank};

    /// Nothing was answered yet.
    fn blank() -> Answers
        ensures { result ≡ blank }
    {
        Answers {
            bytes: Noted::none(),
            errors: Count::zero(),
            empties: Count::zero(),
        }
    }

    /// Notes this answer to a read into these bytes, or to a write of them.
    fn note(&mut self, answer: &io::Result<usize>, piece: &[u8])
        requires { IfOk answer.now (λ n. n ≤ length piece.now) }
        ensures { self.new ≡ noted self.old answer.now piece.now }
    {
        match answer {
            Ok(count) => {
                self.bytes.note(&piece[..*count]);
                if *count == 0 && !piece.is_empty() {
                    self.empties.more();
                }
            }
            Err(_) => self.errors.more(),
        }
    }
}

/// A device with a record of its answers. **Its calls `read` and `write` are trusted**: they ask the device, and note the very
/// answer. No code outside this file can note one, so a clause about the record speaks of what the device answered.
#[derive(Drop)]
pub struct Asked<D> {
    /// The device.
    device: D,
    /// What it answered so far.
    answers: Answers,
}

impl<D> Asked<D> {
    ghost use Rattle.base_devices.specs.Asked.{blank};

    /// A device that was not asked yet.
    pub(crate) fn make(device: D) -> Asked<D>
        ensures device { result.device ≡ device }
        ensures answers { result.answers ≡ blank }
    {
        Asked {
            device,
            answers: Answers::blank(),
        }
    }
}

impl<R: Read> Asked<R> {
    ghost use Rattle.std.specs.Io.{ReadsAtMost};
    ghost use Rattle.std.specs.Io.KnownBytes.{ReadConsumes};

    /// Reads from the device, and notes its answer.
    pub(crate) fn read(&mut self, into: &mut [u8]) -> io::Result<usize>
        ensures bound { ReadsAtMost result into.new }
        ensures device { ReadConsumes (R.remaining self.old.device) (R.remaining self.new.device) result into.new }
        ensures answers { self.new.answers ≡ noted self.old.answers result into.new }
    {
        let answer = self.device.read(into);
        self.answers.note(&answer, into);
        answer
    }
}

impl<W: Write> Asked<W> {
    ghost use Rattle.std.specs.Io.{WritesAtMost};
    ghost use Rattle.std.specs.Io.KnownBytes.{WriteAppends};

    /// Writes to the device, and notes its answer.
    pub(crate) fn write(&mut self, from: &[u8]) -> io::Result<usize>
        ensures bound { WritesAtMost result from.now }
        ensures device { WriteAppends (W.contents self.old.device) (W.contents self.new.device) result from.now }
        ensures answers { self.new.answers ≡ noted self.old.answers result from.now }
    {
        let answer = self.device.write(from);
        self.answers.note(&answer, from);
        answer
    }
}
