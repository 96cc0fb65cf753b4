//! Tries inputs with patterns at the limits and one beyond.
use crate::watched::print_outcome;
use std::alloc::Global;
use test_support::Failure;

/// A document with a client.
const DOCUMENT: &[u8] =
    b"siena 1\nsemantics subscription\nservers 1\nclient a 1\nscript a\npublish x int 1\npatterns\n";

/// So many patterns of one client.
fn with_patterns(alloc: Global, count: u32) -> Result<Vec<u8>, Failure> {
    let mut input = DOCUMENT.to_vec(alloc)?;
    for i in 1..=count {
        let lines = format!(in alloc; "pattern a p{i}\nstep x int = {i}\nstep x int any\n")?;
        input.extend_from_slice(lines.as_bytes())?;
    }
    Ok(input)
}

/// Prints the outcome at each limit and beyond.
pub fn print_large(rt: &impl Print, alloc: Global) -> Result<(), Failure> {
    let mut input = with_patterns(alloc, 1024)?;
    print_outcome(rt, alloc, "1024 patterns", &input)?;
    input.extend_from_slice(b"pattern a ")?;
    let length = input.len();
    input.extend_from_slice(b"p1\n")?;
    print_outcome(rt, alloc, "a label of them again", &input)?;
    input.truncate(length);
    input.extend_from_slice(b"p1025\n")?;
    print_outcome(rt, alloc, "one more", &input)?;
    let mut input = with_patterns(alloc, 1)?;
    input.resize(4_194_304, b'\n')?;
    print_outcome(rt, alloc, "4194304 bytes", &input)
}
