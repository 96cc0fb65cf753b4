//! Runs the program over devices that fail in mid-stream.
use crate::tried::failing;
use std::alloc::Global;
use test_support::Failure;

/// A document of 153 bytes.
const DOCUMENT: &str =
    "siena 1\nsemantics subscription\nservers 1\nclient c1 1\nclient c2 1\nscript c1\nsubscribe x int = 7\n\
    barrier\nscript c2\nbarrier\npublish x int 7\npublish x int 5\n";

/// The 41 bytes that its walk writes.
const TEXT: &[u8] = b"client c1\ndeliver c2 1 x int 7\nclient c2\n";

/// Whether a source that fails at this call is reported, with nothing written.
fn is_unread(alloc: Global, call: u64) -> Result<bool, Failure> {
    let came = failing(alloc, "walk", DOCUMENT.as_bytes(), &[call], &[])?;
    Ok(
        came.text.is_empty()
            && came.fault.as_slice() == b"siena: the input could not be read\n".as_slice(),
    )
}

/// Whether a sink that fails at this call is reported, with only the pieces of the calls before it written.
fn is_unwritten(alloc: Global, call: u64) -> Result<bool, Failure> {
    let came = failing(alloc, "walk", DOCUMENT.as_bytes(), &[], &[call])?;
    Ok(
        came.fault.as_slice() == b"siena: the output could not be written\n".as_slice()
            && came.text.len() as u64 <= call.saturating_sub(1).saturating_mul(10)
            && TEXT.starts_with(&came.text),
    )
}

/// Prints for each call whether a fault there is reported.
pub fn print_devices(rt: &impl Print, alloc: Global) -> Result<(), Failure> {
    for call in 1..12 {
        println!(rt; "reading fails at call {call}: {}", is_unread(alloc, call)?)?;
    }
    for call in 1..6 {
        println!(rt;
            "writing fails at call {call}: {}",
            is_unwritten(alloc, call)?
        )?;
    }
    Ok(())
}
