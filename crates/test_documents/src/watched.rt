//! What reading an input with patterns gives, as lines.
use crate::nets::shown;
use document_reader::MOST_BYTES;
use filter_text::write_filter;
use output_patterns::{Pattern, PatternFault, read_patterns};
use std::alloc::Global;
use test_support::Failure;

/// Prints a pattern with its steps.
fn print_pattern(rt: &impl Print, alloc: Global, pattern: &Pattern) -> Result<(), Failure> {
    let label = shown(pattern.label.bytes());
    println!(rt; "  {} {label}", pattern.client)?;
    for step in &pattern.steps {
        let filter = write_filter(alloc, step)?;
        println!(rt; "    {}", shown(&filter))?;
    }
    Ok(())
}

/// Prints how many patterns are read, or the line and the fault.
pub fn print_outcome(
    rt: &impl Print,
    alloc: Global,
    name: &str,
    input: &[u8],
) -> Result<(), Failure> {
    if input.len() > MOST_BYTES {
        return Ok(());
    }
    match read_patterns(alloc, input) {
        Ok(watch) => println!(rt; "{name}: read, {} patterns", watch.patterns.len())?,
        Err(PatternFault::Document { line, kind }) => {
            println!(rt; "{name}: document, line {line}, {kind:?}")?
        }
        Err(PatternFault::Bad { line, kind }) => println!(rt; "{name}: line {line}, {kind:?}")?,
        Err(PatternFault::NoMemory) => return Err(Failure::NoMemory),
    }
    Ok(())
}

/// Prints the patterns that are read.
pub fn print_patterns(rt: &impl Print, alloc: Global, input: &[u8]) -> Result<(), Failure> {
    if input.len() > MOST_BYTES {
        return Ok(());
    }
    match read_patterns(alloc, input) {
        Ok(watch) => {
            for pattern in &watch.patterns {
                print_pattern(rt, alloc, pattern)?;
            }
            Ok(())
        }
        Err(_) => Ok(()),
    }
}

/// Prints the outcome of each input that has these lines behind a beginning, and its patterns. A newline is printed as `|`,
/// a carriage return as `^`, a tab as `~`.
pub fn print_outcomes(
    rt: &impl Print,
    alloc: Global,
    beginning: &str,
    endings: &[&str],
) -> Result<(), Failure> {
    for ending in endings {
        let input = format!(in alloc; "{beginning}{ending}")?;
        let name = ending.replace(alloc, "\n", "|")?;
        let name = name.replace(alloc, "\r", "^")?;
        let name = name.replace(alloc, "\t", "~")?;
        print_outcome(rt, alloc, name.as_str(), input.as_bytes())?;
        print_patterns(rt, alloc, input.as_bytes())?;
    }
    Ok(())
}
