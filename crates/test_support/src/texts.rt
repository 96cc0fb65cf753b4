//! Reads filters, advertisements and notifications from their wire texts.
use crate::fault::RowFault;
use crate::parts::put;
use filter_constraints::Constraint;
use filter_text::{WireFault, read_advert, read_filter, read_notice, write_filter};
use filter_types::{Advert, Filter, Notice};
use filter_values::Value;
use std::alloc::Global;

/// Why a text of a row is not read.
fn fault(fault: WireFault) -> RowFault {
    match fault {
        WireFault::NoMemory => RowFault::NoMemory,
        WireFault::Outside => RowFault::Form,
    }
}

/// The filter of a text.
pub fn filter(alloc: Global, text: &str) -> Result<Filter, RowFault> {
    match read_filter(alloc, text.as_bytes()) {
        Ok(filter) => Ok(filter),
        Err(told) => Err(fault(told)),
    }
}

/// The advertisement of a text.
pub fn advert(alloc: Global, text: &str) -> Result<Advert, RowFault> {
    match read_advert(alloc, text.as_bytes()) {
        Ok(advert) => Ok(advert),
        Err(told) => Err(fault(told)),
    }
}

/// The notice of a text.
pub fn notice(alloc: Global, text: &str) -> Result<Notice, RowFault> {
    match read_notice(alloc, text.as_bytes()) {
        Ok(notice) => Ok(notice),
        Err(told) => Err(fault(told)),
    }
}

/// The filters of texts, each parted from the next by a stroke.
pub fn filters(alloc: Global, texts: &str) -> Result<Vec<Filter>, RowFault> {
    let mut filters = Vec::new(alloc);
    for text in texts.split(" | ") {
        filters.push(filter(alloc, text)?)?;
    }
    Ok(filters)
}

/// The advertisements of texts, each parted from the next by a stroke.
pub fn adverts(alloc: Global, texts: &str) -> Result<Vec<Advert>, RowFault> {
    let mut adverts = Vec::new(alloc);
    for text in texts.split(" | ") {
        adverts.push(advert(alloc, text)?)?;
    }
    Ok(adverts)
}

/// Puts a filter's text behind the other parts of an answer.
pub fn put_filter(alloc: Global, answer: &mut Vec<u8>, filter: &Filter) -> Result<(), RowFault> {
    let text = write_filter(alloc, filter)?;
    put(answer, &text)
}

/// A copy of the first constraint of a filter's text.
pub fn first_constraint(alloc: Global, text: &str) -> Result<Constraint, RowFault> {
    let filter = filter(alloc, text)?;
    match filter.constraints().first() {
        Some(constraint) => Ok(constraint.copy(alloc)?),
        None => Err(RowFault::Form),
    }
}

/// A copy of the first value of a notice's text.
pub fn first_value(alloc: Global, text: &str) -> Result<Value, RowFault> {
    let notice = notice(alloc, text)?;
    match notice.attributes().first() {
        Some((_, value)) => Ok(value.copy(alloc)?),
        None => Err(RowFault::Form),
    }
}
