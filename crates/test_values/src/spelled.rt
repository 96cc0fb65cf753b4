//! Answers the questions on names and texts that are read or refused.
use filter_values::{Name, Text, is_name, is_text};
use std::alloc::Global;
use test_support::{RowFault, put, put_truth, spelled, truths, two_parts};

/// Whether the bytes are a name, and else why not.
pub fn name(alloc: Global, rest: &str) -> Result<Vec<u8>, RowFault> {
    let bytes = spelled(alloc, rest)?;
    let mut answer = Vec::new(alloc);
    put_truth(&mut answer, is_name(&bytes))?;
    if let Err(fault) = Name::read(alloc, &bytes) {
        put(&mut answer, format!(in alloc; "{fault:?}")?.as_bytes())?;
    }
    Ok(answer)
}

/// Whether the bytes are a text, and else why not.
pub fn text(alloc: Global, rest: &str) -> Result<Vec<u8>, RowFault> {
    let bytes = spelled(alloc, rest)?;
    let mut answer = Vec::new(alloc);
    put_truth(&mut answer, is_text(&bytes))?;
    if let Err(fault) = Text::read(alloc, &bytes) {
        put(&mut answer, format!(in alloc; "{fault:?}")?.as_bytes())?;
    }
    Ok(answer)
}

/// The name of these bytes.
fn name_of(alloc: Global, bytes: &str) -> Result<Name, RowFault> {
    match Name::read(alloc, bytes.as_bytes()) {
        Ok(name) => Ok(name.copy(alloc)?),
        Err(_) => Err(RowFault::Form),
    }
}

/// The text of these bytes.
fn text_of(alloc: Global, bytes: &str) -> Result<Text, RowFault> {
    match Text::from_bytes(spelled(alloc, bytes)?) {
        Some(text) => Ok(text.copy(alloc)?),
        None => Err(RowFault::Form),
    }
}

/// Whether copies of two names are equal, and whether the first stands before the second.
pub fn names(alloc: Global, rest: &str) -> Result<Vec<u8>, RowFault> {
    let (first, second) = two_parts(rest)?;
    let (first, second) = (name_of(alloc, first)?, name_of(alloc, second)?);
    truths(alloc, first == second, first < second)
}

/// The same of two texts.
pub fn texts(alloc: Global, rest: &str) -> Result<Vec<u8>, RowFault> {
    let (first, second) = two_parts(rest)?;
    let (first, second) = (text_of(alloc, first)?, text_of(alloc, second)?);
    truths(alloc, first == second, first < second)
}
