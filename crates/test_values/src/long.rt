//! Makes texts at the limits of how long they may be.
use std::alloc::Global;
use test_support::RowFault;

/// A beginning, so many quotation marks as a string has them, and the end of the string.
pub fn marks(alloc: Global, begin: &[u8], count: u32) -> Result<Vec<u8>, RowFault> {
    let mut text = Vec::from_slice(alloc, begin)?;
    for _ in 0..count {
        text.extend_from_slice(b"\\\"")?;
    }
    text.push(b'"')?;
    Ok(text)
}

/// The name at a place, of two letters that rise with it.
fn push_name(text: &mut Vec<u8>, place: u32) -> Result<(), RowFault> {
    text.push(b'a' + (place / 26 % 26) as u8)?;
    text.push(b'a' + (place % 26) as u8)?;
    Ok(())
}

/// A beginning and so many members with names that rise, each with this end.
pub fn members(alloc: Global, begin: &[u8], count: u32, end: &[u8]) -> Result<Vec<u8>, RowFault> {
    let mut text = Vec::from_slice(alloc, begin)?;
    for place in 0..count {
        if place > 0 {
            text.extend_from_slice(b"; ")?;
        }
        push_name(&mut text, place)?;
        text.extend_from_slice(end)?;
    }
    Ok(text)
}

/// A beginning and so many members of one name, each with this end.
pub fn repeats(alloc: Global, begin: &[u8], count: u32, end: &[u8]) -> Result<Vec<u8>, RowFault> {
    let mut text = Vec::from_slice(alloc, begin)?;
    for place in 0..count {
        if place > 0 {
            text.extend_from_slice(b"; ")?;
        }
        push_name(&mut text, 0)?;
        text.extend_from_slice(end)?;
    }
    Ok(text)
}
