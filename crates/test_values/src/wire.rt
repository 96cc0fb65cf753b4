//! Reads wire texts and writes them again, or shows their faults.
use crate::long::{marks, members};
use filter_text::{
    Sent, SentText, WireFault, read_advert, read_filter, read_message, read_notice, write_advert,
    write_filter, write_message, write_notice,
};
use std::alloc::Global;
use test_support::{RowFault, first_word, number, spelled, truth};

/// Whether bytes that are the text of nothing were asked for; else why they were not read.
fn refused(alloc: Global, fault: WireFault) -> Result<Vec<u8>, RowFault> {
    match fault {
        WireFault::Outside => truth(alloc, false),
        WireFault::NoMemory => Err(RowFault::NoMemory),
    }
}

/// Whether the bytes are a notice's text, and are written as they were read.
fn is_notice(alloc: Global, bytes: &[u8]) -> Result<Vec<u8>, RowFault> {
    match read_notice(alloc, bytes) {
        Ok(notice) => truth(alloc, write_notice(alloc, &notice)?.as_slice() == bytes),
        Err(fault) => refused(alloc, fault),
    }
}

/// The same of a filter.
fn is_filter(alloc: Global, bytes: &[u8]) -> Result<Vec<u8>, RowFault> {
    match read_filter(alloc, bytes) {
        Ok(filter) => truth(alloc, write_filter(alloc, &filter)?.as_slice() == bytes),
        Err(fault) => refused(alloc, fault),
    }
}

/// The same of an advertisement.
fn is_advert(alloc: Global, bytes: &[u8]) -> Result<Vec<u8>, RowFault> {
    match read_advert(alloc, bytes) {
        Ok(advert) => truth(alloc, write_advert(alloc, &advert)?.as_slice() == bytes),
        Err(fault) => refused(alloc, fault),
    }
}

/// The same of a message.
fn is_message(alloc: Global, bytes: &[u8]) -> Result<Vec<u8>, RowFault> {
    match read_message(alloc, bytes) {
        Ok(message) => truth(alloc, write_message(alloc, &message)?.as_slice() == bytes),
        Err(fault) => refused(alloc, fault),
    }
}

/// Whether a notice's text is spelled.
pub fn notice(alloc: Global, rest: &str) -> Result<Vec<u8>, RowFault> {
    is_notice(alloc, &spelled(alloc, rest)?)
}

/// Whether a filter's text is spelled.
pub fn filter(alloc: Global, rest: &str) -> Result<Vec<u8>, RowFault> {
    is_filter(alloc, &spelled(alloc, rest)?)
}

/// Whether an advertisement's text is spelled.
pub fn advert(alloc: Global, rest: &str) -> Result<Vec<u8>, RowFault> {
    is_advert(alloc, &spelled(alloc, rest)?)
}

/// Whether a message's text is spelled.
pub fn message(alloc: Global, rest: &str) -> Result<Vec<u8>, RowFault> {
    is_message(alloc, &spelled(alloc, rest)?)
}

/// The text of a copy of a message.
pub fn written(alloc: Global, rest: &str) -> Result<Vec<u8>, RowFault> {
    match read_message(alloc, rest.as_bytes()) {
        Ok(message) => Ok(write_message(alloc, &message)?),
        Err(fault) => refused(alloc, fault),
    }
}

/// Whether a notice may have so many quotation marks.
pub fn long_notice(alloc: Global, rest: &str) -> Result<Vec<u8>, RowFault> {
    is_notice(alloc, &marks(alloc, b"s str \"", number(rest)?)?)
}

/// Whether there may be so many members.
pub fn many(alloc: Global, rest: &str) -> Result<Vec<u8>, RowFault> {
    let (what, count) = first_word(rest);
    let count = number(count)?;
    match what {
        "notice" => is_notice(alloc, &members(alloc, b"", count, b" int 1")?),
        "filter" => is_filter(alloc, &members(alloc, b"", count, b" int any")?),
        "advert" => is_advert(alloc, &members(alloc, b"", count, b" int any")?),
        _ => Err(RowFault::Form),
    }
}

/// The bytes of what is sent.
fn pushed(alloc: Global, sent: &Sent) -> Result<Vec<u8>, RowFault> {
    let mut bytes = Vec::new(alloc);
    sent.bytes.push(&mut bytes)?;
    Ok(bytes)
}

/// The bytes of what is sent that was written already.
fn carried(alloc: Global, bytes: Vec<u8>) -> Result<Vec<u8>, RowFault> {
    let bytes = SentText::written(bytes);
    pushed(alloc, &Sent { to: 7, bytes })
}

/// The text of a notice that was carried as what is sent of it.
pub fn copied(alloc: Global, rest: &str) -> Result<Vec<u8>, RowFault> {
    let bytes = carried(alloc, Vec::from_slice(alloc, rest.as_bytes())?)?;
    match read_notice(alloc, bytes.as_slice()) {
        Ok(notice) => Ok(write_notice(alloc, &notice)?),
        Err(fault) => refused(alloc, fault),
    }
}
