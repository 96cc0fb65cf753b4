//! Tries a generated document on one thread.
use crate::outlooks::print_told;
use crate::tried::{outcome, print_verdict, shown};
use md5::{Digest, Md5};
use std::alloc::Global;
use test_support::Failure;

/// The runs that bring what flooding brings.
const RUNS: [(&str, &str); 3] = [
    ("its sorted walk is its flood", "walk --sorted"),
    ("and so is its replay", "replay --sorted"),
    ("and so is its hierarchy's walk", "hier --sorted"),
];

/// How many lines begin with these bytes.
pub fn lines_with(text: &[u8], first: &[u8]) -> u32 {
    let mut count = 0u32;
    for line in text.split(|byte| *byte == b'\n') {
        if line.starts_with(first) {
            count = count.saturating_add(1);
        }
    }
    count
}

/// Prints how many bytes a text has, and its MD5 digest.
fn print_size(rt: &impl Print, name: &str, text: &[u8]) -> Result<(), Failure> {
    print!(rt; "{name}: {} bytes, digest ", text.len())?;
    for byte in Md5::digest(text) {
        print!(rt; "{byte:02x}")?;
    }
    println!(rt)?;
    Ok(())
}

/// Prints how much the document has.
fn print_document(rt: &impl Print, alloc: Global, document: &[u8]) -> Result<(), Failure> {
    println!(rt;
        "lines of the document: {}",
        lines_with(document, b"").saturating_sub(1)
    )?;
    print_size(rt, "the document", document)?;
    let came = outcome(alloc, "check", document)?;
    print_verdict(
        rt,
        "its counts",
        &came,
        b"",
        b"ok version 1 servers 16 clients 64 phases 2 commands 256 publications 2000\n",
    )
}

/// Prints whether the words write a text of a document.
fn print_same(
    rt: &impl Print,
    alloc: Global,
    name: &str,
    words: &str,
    document: &[u8],
    text: &[u8],
) -> Result<(), Failure> {
    let came = outcome(alloc, words, document)?;
    print_verdict(rt, name, &came, b"", text)
}

/// Prints what flooding makes of the document, and whether its runs do the same.
fn print_flooded(rt: &impl Print, alloc: Global, document: &[u8]) -> Result<(), Failure> {
    let flood = outcome(alloc, "flood", document)?.text;
    print_size(rt, "its flood", &flood)?;
    for (name, words) in RUNS {
        print_same(rt, alloc, name, words, document, &flood)?;
    }
    println!(rt; "deliveries: {}", lines_with(&flood, b"deliver "))?;
    print_told(rt, alloc, document, &flood)
}

/// Prints whether a document of 2,466 lines is generated, and what `check`, `walk`, `replay`, `hier`, `flood` and the
/// summary make of it.
pub fn print_generated(rt: &impl Print, alloc: Global) -> Result<(), Failure> {
    let document = outcome(alloc, "gen --seed 1", b"")?.text;
    print_document(rt, alloc, &document)?;
    print_flooded(rt, alloc, &document)?;
    let came = outcome(alloc, "gen --summary --seed=1", b"")?;
    print!(rt; "{}", shown(&came.text))?;
    Ok(())
}
