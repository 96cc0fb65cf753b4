//! Rows of devices that give and take in pieces, fail in mid-stream, or move nothing.
ghost use Rattle.program_sequential.specs.Words.{wanted_by, AreNoneOfRun};

use crate::answers::{Manner, Reader, Stop, Writer};
use crate::tried::{Tried, print_verdict, told, words};
use program_sequential::{Word, is_quiet, quiet_with_devices};
use std::alloc::Global;
use std::io::ErrorKind;
use test_support::Failure;

/// A document of 153 bytes.
const DOCUMENT: &[u8] =
    b"siena 1\nsemantics subscription\nservers 1\nclient c1 1\nclient c2 1\nscript c1\nsubscribe x int = 7\n\
    barrier\nscript c2\nbarrier\npublish x int 7\npublish x int 5\n";

/// A reader and a writer, with what the walk of the document must tell and write over them.
struct Row {
    name: &'static str,
    reader: Manner,
    writer: Manner,
    fault: &'static str,
    text: &'static str,
}

/// All at once, without a stop.
const WHOLE: Manner = Manner {
    piece: 65_536,
    stop: None,
};

/// A byte at a time.
const BYTES: Manner = Manner {
    piece: 1,
    stop: None,
};

const UNREAD: &str = "siena: the input could not be read\n";

const UNWRITTEN: &str = "siena: the output could not be written\n";

const TEXT: &str = "client c1\ndeliver c2 1 x int 7\nclient c2\n";

const ROWS: [Row; 8] = [
    Row {
        name: "A reader that gives a byte at a time",
        reader: BYTES,
        writer: WHOLE,
        fault: "",
        text: TEXT,
    },
    Row {
        name: "A reader that fails at once",
        reader: Manner {
            piece: 10,
            stop: Some((1, Stop::Error(ErrorKind::Other))),
        },
        writer: WHOLE,
        fault: UNREAD,
        text: "",
    },
    Row {
        name: "A reader that fails in mid-stream",
        reader: Manner {
            piece: 10,
            stop: Some((7, Stop::Error(ErrorKind::Other))),
        },
        writer: WHOLE,
        fault: UNREAD,
        text: "",
    },
    Row {
        name: "A reader that is interrupted",
        reader: Manner {
            piece: 10,
            stop: Some((7, Stop::Error(ErrorKind::Interrupted))),
        },
        writer: WHOLE,
        fault: UNREAD,
        text: "",
    },
    Row {
        name: "A reader that ends in mid-line",
        reader: Manner {
            piece: 10,
            stop: Some((7, Stop::Nothing)),
        },
        writer: WHOLE,
        fault: "siena: line 5: words: the words behind the first are not those of such a line\n",
        text: "",
    },
    Row {
        name: "A writer that takes a byte at a time",
        reader: WHOLE,
        writer: BYTES,
        fault: "",
        text: TEXT,
    },
    Row {
        name: "A writer that fails in mid-stream",
        reader: WHOLE,
        writer: Manner {
            piece: 10,
            stop: Some((3, Stop::Error(ErrorKind::BrokenPipe))),
        },
        fault: UNWRITTEN,
        text: "client c1\ndeliver c2",
    },
    Row {
        name: "A writer that takes nothing",
        reader: WHOLE,
        writer: Manner {
            piece: 10,
            stop: Some((2, Stop::Nothing)),
        },
        fault: UNWRITTEN,
        text: "client c1\n",
    },
];

/// The line on the fault of a walk over this reader and this writer.
fn fault(
    alloc: Global,
    words: &[Word],
    reader: &mut Reader,
    writer: &mut Writer,
) -> Result<Vec<u8>, Failure>
    requires { AreNoneOfRun (wanted_by words.now) }
{
    let over = quiet_with_devices(alloc, words, reader, writer);
    let status = over.outcome.status;
    drop(over);
    Ok(told(alloc, status)?)
}

/// The walk of the document over a reader and a writer.
fn walked(alloc: Global, row: &Row) -> Result<Tried, Failure> {
    let words = words(alloc, "walk")?;
    if !is_quiet(&words) {
        return Err(Failure::Threads);
    }
    let mut reader = Reader::make(DOCUMENT, row.reader);
    let mut writer = Writer::make(alloc, row.writer);
    let fault = fault(alloc, &words, &mut reader, &mut writer)?;
    let text = writer.into_bytes();
    Ok(Tried { fault, text })
}

/// Prints of each row whether it came as wanted.
pub fn print_edges(rt: &impl Print, alloc: Global) -> Result<(), Failure> {
    for row in &ROWS {
        let came = walked(alloc, row)?;
        print_verdict(
            rt,
            row.name,
            &came,
            row.fault.as_bytes(),
            row.text.as_bytes(),
        )?;
    }
    Ok(())
}
