//! Reads and writes the parts of questions and answers.
use crate::fault::RowFault;
use std::alloc::Global;

/// The text up to the first blank, and the rest after it.
pub fn first_word(text: &str) -> (&str, &str) {
    text.split_once(' ').unwrap_or((text, ""))
}

/// The texts before and after a stroke.
pub fn two_parts(text: &str) -> Result<(&str, &str), RowFault> {
    match text.split_once(" | ") {
        Some(parts) => Ok(parts),
        None => Err(RowFault::Form),
    }
}

/// The number that a word spells.
pub fn number(word: &str) -> Result<u32, RowFault> {
    match word.parse::<u32>() {
        Ok(number) => Ok(number),
        Err(_) => Err(RowFault::Form),
    }
}

/// The number of a hexadecimal digit.
fn digit(byte: u8) -> Option<u8> {
    match byte {
        b'0'..=b'9' => Some(byte - b'0'),
        b'A'..=b'F' => Some(byte - b'A' + 10),
        _ => None,
    }
}

/// The byte of two hexadecimal digits.
fn byte(high: u8, low: u8) -> Option<u8> {
    Some((digit(high)? << 4) | digit(low)?)
}

/// The bytes that a text spells: `%` with two hexadecimal digits is a byte, each other character
/// represents itself.
pub fn spelled(alloc: Global, text: &str) -> Result<Vec<u8>, RowFault> {
    let mut bytes = Vec::new(alloc);
    let mut rest = text.as_bytes();
    for _ in 0..text.len() {
        match rest {
            [] => break,
            [b'%', high, low, after @ ..] => {
                bytes.push(byte(*high, *low).unwrap_or(b'%'))?;
                rest = after;
            }
            [first, after @ ..] => {
                bytes.push(*first)?;
                rest = after;
            }
        }
    }
    Ok(bytes)
}

/// Puts a part of an answer behind the others.
pub fn put(answer: &mut Vec<u8>, part: &[u8]) -> Result<(), RowFault> {
    if !answer.is_empty() {
        answer.extend_from_slice(b", ")?;
    }
    answer.extend_from_slice(part)?;
    Ok(())
}

/// Puts a number behind the other parts of an answer.
pub fn put_number(alloc: Global, answer: &mut Vec<u8>, number: usize) -> Result<(), RowFault> {
    let text = format!(in alloc; "{number}")?;
    put(answer, text.as_bytes())
}

/// Puts yes or no behind the other parts of an answer.
pub fn put_truth(answer: &mut Vec<u8>, holds: bool) -> Result<(), RowFault> {
    put(answer, if holds { b"yes" } else { b"no" })
}

/// The answer to a question of yes or no.
pub fn truth(alloc: Global, holds: bool) -> Result<Vec<u8>, RowFault> {
    let mut answer = Vec::new(alloc);
    put_truth(&mut answer, holds)?;
    Ok(answer)
}

/// The answers to two questions of yes or no.
pub fn truths(alloc: Global, first: bool, second: bool) -> Result<Vec<u8>, RowFault> {
    let mut answer = Vec::new(alloc);
    put_truth(&mut answer, first)?;
    put_truth(&mut answer, second)?;
    Ok(answer)
}
