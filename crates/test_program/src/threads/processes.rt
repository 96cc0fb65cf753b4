//! The whole program by its arguments: each word, and each number with which it ends.
use program_threaded::program;
use std::alloc::Global;
use std::env::Args;
use std::io;
use std::io::{Error, ErrorKind, Read, Write};
use std::sync::Wait;
use std::thread::Threads;
use test_support::Failure;

/// A document that is good for each word but `patterns` and `audit`.
const GOOD: &str =
    "siena 1\nsemantics subscription\nservers 1\nclient a 1\nclient p 1\nscript a\nsubscribe x int = 7\nscript p\nbarrier\n\
    publish x int 7\n";

/// A schedule whose first turn isn't permitted.
const EARLY: &str =
    "siena 1\nsemantics subscription\nservers 1\nclient p 1\nscript p\nbarrier\npublish x int 7\nschedule\nversion 1\n";

/// Behind this document stands a pattern at fault.
const FAULTY: &str =
    "siena 1\nsemantics subscription\nservers 1\nclient a 1\npatterns\npattern a up\nstep s str prefix \"\"\n";

/// Words, a document, and the number with which the program ends.
type Call = (&'static str, &'static str, u8);

/// Each word, and each number that a document or words lead to.
const CALLS: [Call; 27] = [
    ("walk", GOOD, 0),
    ("run", GOOD, 0),
    ("run --trace --sorted", GOOD, 0),
    ("replay", GOOD, 0),
    ("hier", GOOD, 0),
    ("flood", GOOD, 0),
    ("traffic --dot", GOOD, 0),
    ("explain a p 1", GOOD, 0),
    ("explain a", GOOD, 0),
    ("check", GOOD, 0),
    ("format", GOOD, 0),
    ("gen --seed 1", "", 0),
    ("help", "", 0),
    ("version", "", 0),
    ("", GOOD, 2),
    ("run --dot", GOOD, 2),
    ("explain a p", GOOD, 2),
    ("check", "siena 3\n", 3),
    ("run", "siena 3\n", 3),
    ("explain a p 1", "siena 3\n", 3),
    ("explain a", "siena 3\n", 3),
    ("replay", EARLY, 3),
    ("patterns", FAULTY, 8),
    ("audit", GOOD, 9),
    ("explain b p 1", GOOD, 10),
    ("explain b", GOOD, 10),
    ("explain a p 2", GOOD, 10),
];

/// A device of which each call fails.
#[derive(Drop)]
struct Broken;

impl Read for Broken {
    fn read(&mut self, _into: &mut [u8]) -> io::Result<usize> {
        Err(Error::from(ErrorKind::Other))
    }
}

impl Write for Broken {
    fn write(&mut self, _from: &[u8]) -> io::Result<usize> {
        Err(Error::from(ErrorKind::Other))
    }

    fn flush(&mut self) -> io::Result<()> {
        Ok(())
    }
}

/// The program's name and these words.
fn arguments(alloc: Global, line: &str) -> Result<Args, Failure> {
    let mut all = Vec::new(alloc);
    all.push(String::from_str(alloc, "siena")?)?;
    for word in line.split_whitespace() {
        all.push(String::from_str(alloc, word)?)?;
    }
    Ok(all.into_iter())
}

/// The number with which the program ends, and how many bytes standard output and standard error took.
fn ended<T: Threads + Wait + Sync>(
    rt: &T,
    alloc: Global,
    arguments: io::Result<Args>,
    document: &str,
) -> (u8, usize, usize) {
    let mut output = Vec::new(alloc);
    let mut errors = Vec::new(alloc);
    let number = program(
        alloc,
        rt,
        arguments,
        document.as_bytes(),
        &mut output,
        &mut errors,
    )
    .number;
    (number, output.len(), errors.len())
}

/// Prints of each call whether it ends as wanted: with its number, and with a text on the one stream or on the other.
fn print_calls<R: Print + Threads + Wait + Sync>(rt: &R, alloc: Global) -> Result<(), Failure> {
    for (words, document, wanted) in &CALLS {
        let given = Ok(arguments(alloc, words)?);
        let (number, output, errors) = ended(rt, alloc, given, document);
        let told = (number == 0) == (errors == 0) && (number == 0) == (output > 0);
        println!(rt;
            "`{words}` ends with {number}: {}",
            told && number == *wanted
        )?;
    }
    Ok(())
}

/// Prints the numbers where devices fail.
fn print_broken<R: Print + Threads + Wait + Sync>(rt: &R, alloc: Global) -> Result<(), Failure> {
    for words in ["walk", "run"] {
        let mut taken = Vec::new(alloc);
        let given = Ok(arguments(alloc, words)?);
        let unread = program(alloc, rt, given, Broken, &mut taken, Broken);
        println!(rt; "`{words}` without an input ends with {}", unread.number)?;
        let mut told = Vec::new(alloc);
        let given = Ok(arguments(alloc, words)?);
        let unwritten = program(alloc, rt, given, GOOD.as_bytes(), Broken, &mut told);
        println!(rt;
            "`{words}` without an output ends with {}",
            unwritten.number
        )?;
    }
    Ok(())
}

/// Prints the numbers where arguments can't be read.
fn print_unread<R: Print + Threads + Wait + Sync>(rt: &R, alloc: Global) -> Result<(), Failure> {
    for kind in [
        ErrorKind::InvalidData,
        ErrorKind::Other,
        ErrorKind::OutOfMemory,
    ] {
        let (number, _, _) = ended(rt, alloc, Err(Error::from(kind)), GOOD);
        println!(rt; "arguments that can't be read end with {number}")?;
    }
    Ok(())
}

/// Prints with which numbers the whole program ends.
pub fn print_processes<R: Print + Threads + Wait + Sync>(
    rt: &R,
    alloc: Global,
) -> Result<(), Failure> {
    print_calls(rt, alloc)?;
    print_broken(rt, alloc)?;
    print_unread(rt, alloc)
}
