//! Tries audits of what the program writes itself, and of what was made of it.
use crate::examples::{Document, EXAMPLES};
use crate::tried::{Tried, at_once, shown};
use std::alloc::Global;
use test_support::Failure;

/// How many places of an output are changed.
const PLACES: u32 = 500;

/// A document, the line `output` behind it, and an output.
fn claim(alloc: Global, document: &[u8], output: &[u8]) -> Result<Vec<u8>, Failure> {
    let mut claim = document.to_vec(alloc)?;
    claim.extend_from_slice(b"output\n")?;
    claim.extend_from_slice(output)?;
    Ok(claim)
}

/// Whether an audit said yes.
fn says_yes(came: &Tried) -> bool {
    came.fault.is_empty() && came.text.starts_with(b"audit yes ")
}

/// What an audit says of the output of the words, behind the document.
fn audited(alloc: Global, audit: &str, words: &str, document: &[u8]) -> Result<Tried, Failure> {
    let output = at_once(alloc, words, document)?.text;
    at_once(alloc, audit, &claim(alloc, document, &output)?)
}

/// Prints what an audit said.
fn print_audit(rt: &impl Print, name: &str, words: &str, came: &Tried) -> Result<(), Failure> {
    print!(rt;
        "{name}, {words}: {}{}",
        shown(&came.fault),
        shown(&came.text)
    )?;
    Ok(())
}

/// A small document.
const SMALL: &[u8] =
    b"siena 1\nsemantics subscription\nservers 2\nedge 1 2\nclient a 1\nclient b 2\nscript a\nsubscribe x int any\nscript b\nbarrier\n\
    publish x int 7\npublish y str \"7\"\n";

/// How many of these documents are confirmed with the output of another.
fn confirmed_for_others(alloc: Global, documents: &[Document]) -> Result<u32, Failure> {
    let mut confirmed = 0u32;
    for (i, document) in documents.iter().enumerate() {
        let output = at_once(alloc, "walk --trace", document.text.as_bytes())?.text;
        for (k, other) in documents.iter().enumerate() {
            let claim = claim(alloc, other.text.as_bytes(), &output)?;
            if i != k && says_yes(&at_once(alloc, "audit", &claim)?) {
                confirmed = confirmed.saturating_add(1);
            }
        }
    }
    Ok(confirmed)
}

/// The next of a row of numbers that look like random ones.
fn next_number(number: u32) -> u32 {
    number.wrapping_mul(1_664_525).wrapping_add(1_013_904_223)
}

/// The output with another byte at one place.
fn changed(alloc: Global, output: &[u8], number: u32) -> Result<Vec<u8>, Failure> {
    let mut other = output.to_vec(alloc)?;
    let length = other.len().max(1);
    if let Some(byte) = other.get_mut((number >> 8) as usize % length) {
        *byte ^= (number & 127) as u8 | 1;
    }
    Ok(other)
}

/// How many outputs of the walk with another byte at one of many places are confirmed.
fn confirmed_changed(alloc: Global, document: &[u8]) -> Result<u32, Failure> {
    let output = at_once(alloc, "walk --trace", document)?.text;
    let mut number = 1u32;
    let mut confirmed = 0u32;
    for _ in 0..PLACES {
        number = next_number(number);
        let claim = claim(alloc, document, &changed(alloc, &output, number)?)?;
        if says_yes(&at_once(alloc, "audit", &claim)?) {
            confirmed = confirmed.saturating_add(1);
        }
    }
    Ok(confirmed)
}

/// How many front parts of the claim of a walk that end with a line, but for the whole, are confirmed.
fn confirmed_cut(alloc: Global, document: &[u8]) -> Result<u32, Failure> {
    let output = at_once(alloc, "walk --trace", document)?.text;
    let claim = claim(alloc, document, &output)?;
    let mut confirmed = 0u32;
    for (place, byte) in claim.iter().enumerate() {
        if *byte == b'\n' {
            let (front, rest) = claim.split_at(place + 1);
            if !rest.is_empty() && says_yes(&at_once(alloc, "audit", front)?) {
                confirmed = confirmed.saturating_add(1);
            }
        }
    }
    Ok(confirmed)
}

/// Prints what audits say of walks and replays of the examples, and of their hierarchies.
pub fn print_whole(rt: &impl Print, alloc: Global) -> Result<(), Failure> {
    for document in &EXAMPLES {
        for (audit, words) in [
            ("audit", "walk --trace"),
            ("audit", "replay --trace"),
            ("audit --hier", "hier --trace"),
        ] {
            let came = audited(alloc, audit, words, document.text.as_bytes())?;
            print_audit(rt, document.name, words, &came)?;
        }
    }
    Ok(())
}

/// Prints what an audit says of the walk of a generated document.
pub fn print_generated(rt: &impl Print, alloc: Global) -> Result<(), Failure> {
    let generated = at_once(alloc, "gen --seed 1", b"")?.text;
    let came = audited(alloc, "audit", "walk --trace", &generated)?;
    print_audit(rt, "A generated document", "walk --trace", &came)
}

/// Prints how many outputs are confirmed that were made of those of walks, of the examples and of a small document.
pub fn print_made(rt: &impl Print, alloc: Global) -> Result<(), Failure> {
    println!(rt;
        "confirmed with the output of another document: {}",
        confirmed_for_others(alloc, &EXAMPLES)?
    )?;
    let came = audited(alloc, "audit", "walk --trace", SMALL)?;
    print_audit(rt, "A small document", "walk --trace", &came)?;
    println!(rt;
        "confirmed with another byte at one of {PLACES} places: {}",
        confirmed_changed(alloc, SMALL)?
    )?;
    println!(rt;
        "confirmed where it is cut at a line: {}",
        confirmed_cut(alloc, SMALL)?
    )?;
    Ok(())
}
