//! Prints what reading a document gives, as lines.
use document_reader::{InputFault, read_net};
use std::alloc::Global;
use test_support::Failure;

/// Prints that a document is read, or its line and fault.
pub fn print_outcome(
    rt: &impl Print,
    alloc: Global,
    name: &str,
    document: &[u8],
) -> Result<(), Failure> {
    match read_net(alloc, document) {
        Ok(_) => println!(rt; "{name}: read")?,
        Err(InputFault::Bad { line, kind }) => println!(rt; "{name}: line {line}, {kind:?}")?,
        Err(InputFault::NoMemory) => return Err(Failure::NoMemory),
    }
    Ok(())
}

/// Prints the outcome of each document that has these lines behind a beginning. A newline is printed
/// as `|`, a carriage return as `^`.
pub fn print_outcomes(
    rt: &impl Print,
    alloc: Global,
    beginning: &str,
    endings: &[&str],
) -> Result<(), Failure> {
    for ending in endings {
        let document = format!(in alloc; "{beginning}{ending}")?;
        let name = ending.replace(alloc, "\n", "|")?;
        let name = name.replace(alloc, "\r", "^")?;
        print_outcome(rt, alloc, name.as_str(), document.as_bytes())?;
    }
    Ok(())
}
