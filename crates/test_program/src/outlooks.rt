//! Compares what clients are told by `explain` with what flooding makes of the same document.
use crate::tried::{at_once, shown};
use std::alloc::Global;
use test_support::Failure;

/// The words that explain all publications for a client.
fn question(alloc: Global, client: &[u8]) -> Result<Vec<u8>, Failure> {
    let mut words = b"explain ".to_vec(alloc)?;
    words.extend_from_slice(client)?;
    Ok(words)
}

/// The lines of an explanation as flooding writes them: `deliver` for `owed`, and none of a publication that is near.
fn as_flooded(alloc: Global, explanation: &[u8]) -> Result<Vec<u8>, Failure> {
    let mut lines = Vec::new(alloc);
    for line in explanation.split(|byte| *byte == b'\n') {
        if let Some(publication) = line.strip_prefix(b"owed ") {
            lines.extend_from_slice(b"deliver ")?;
            lines.extend_from_slice(publication)?;
            lines.push(b'\n')?;
        }
        if line.starts_with(b"may ") {
            lines.extend_from_slice(line)?;
            lines.push(b'\n')?;
        }
    }
    Ok(lines)
}

/// Whether a client is told just these lines.
fn is_told(alloc: Global, document: &[u8], client: &[u8], lines: &[u8]) -> Result<bool, Failure> {
    let words = question(alloc, client)?;
    let told = at_once(alloc, shown(&words), document)?.text;
    Ok(as_flooded(alloc, &told)?.as_slice() == lines)
}

/// How many clients there are in a text of flooding, and how many of them are told just the lines that stand there.
fn count_told(alloc: Global, document: &[u8], flood: &[u8]) -> Result<(u32, u32), Failure> {
    let mut clients = 0u32;
    let mut agreeing = 0u32;
    let mut name = Vec::new(alloc);
    let mut lines = Vec::new(alloc);
    for line in flood.split(|byte| *byte == b'\n') {
        if let Some(next) = line.strip_prefix(b"client ") {
            if clients > 0 && is_told(alloc, document, &name, &lines)? {
                agreeing = agreeing.saturating_add(1);
            }
            clients = clients.saturating_add(1);
            name = next.to_vec(alloc)?;
            lines = Vec::new(alloc);
        } else if line.starts_with(b"deliver ") || line.starts_with(b"may ") {
            lines.extend_from_slice(line)?;
            lines.push(b'\n')?;
        }
    }
    if clients > 0 && is_told(alloc, document, &name, &lines)? {
        agreeing = agreeing.saturating_add(1);
    }
    Ok((clients, agreeing))
}

/// Prints for how many clients of a document the explanations are those of its flood.
pub fn print_told(
    rt: &impl Print,
    alloc: Global,
    document: &[u8],
    flood: &[u8],
) -> Result<(), Failure> {
    let (clients, agreeing) = count_told(alloc, document, flood)?;
    println!(rt; "explained as flooded: {agreeing} of {clients} clients")?;
    Ok(())
}
