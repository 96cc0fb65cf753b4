//! Makes constraints, notices, filters and advertisements, or shows their faults.
use filter_constraints::{Constraint, Normal};
use filter_text::{kind_named, op_named, write_advert, write_filter, write_notice};
use filter_types::{Advert, Filter, FilterFault, Notice, NoticeFault};
use filter_values::{Name, Value};
use std::alloc::Global;
use test_support::{RowFault, first_constraint, first_value, first_word, truth, truths};

/// The fault of the constraint of a kind, an operator, and a value where one is given.
pub fn constraint(alloc: Global, rest: &str) -> Result<Vec<u8>, RowFault> {
    let (kind, rest) = first_word(rest);
    let (op, rest) = first_word(rest);
    let Some(kind) = kind_named(kind.as_bytes()) else {
        return Err(RowFault::Form);
    };
    let Some(op) = op_named(op.as_bytes()) else {
        return Err(RowFault::Form);
    };
    let operand = match rest {
        "" => None,
        text => Some(first_value(alloc, text)?),
    };
    let Ok(name) = Name::read(alloc, b"x") else {
        return Err(RowFault::NoMemory);
    };
    match Constraint::make(name, kind, op, operand) {
        Ok(_) => Ok(Vec::from_slice(alloc, b"made")?),
        Err(fault) => told(alloc, format!(in alloc; "{fault:?}")?),
    }
}

/// A text as an answer.
fn told(alloc: Global, text: String) -> Result<Vec<u8>, RowFault> {
    Ok(Vec::from_slice(alloc, text.as_bytes())?)
}

/// A normal form as a text: a set of numbers or of times, a truth, or the operator of texts.
fn form(alloc: Global, normal: &Normal<'_>) -> Result<String, RowFault> {
    Ok(match normal {
        Normal::Empty => format!(in alloc; "nothing")?,
        Normal::All => format!(in alloc; "all")?,
        Normal::Int(set) => format!(in alloc; "{set:?}")?,
        Normal::Time(set) => format!(in alloc; "{set:?}")?,
        Normal::Bool(one) => format!(in alloc; "{one}")?,
        Normal::Str(op, _) => format!(in alloc; "{op:?}")?,
    })
}

/// The normal form of a constraint.
pub fn normal(alloc: Global, rest: &str) -> Result<Vec<u8>, RowFault> {
    let constraint = first_constraint(alloc, rest)?;
    told(alloc, form(alloc, &constraint.normal())?)
}

/// The attributes of a list, in its order, which need not be that of a notice.
fn attributes(alloc: Global, rest: &str) -> Result<Vec<(Name, Value)>, RowFault> {
    let mut attributes = Vec::new(alloc);
    if rest.is_empty() {
        return Ok(attributes);
    }
    for part in rest.split("; ") {
        let notice = test_support::notice(alloc, part)?;
        let Some((name, value)) = notice.attributes().first() else {
            return Err(RowFault::Form);
        };
        attributes.push((name.copy(alloc)?, value.copy(alloc)?))?;
    }
    Ok(attributes)
}

/// The constraints of a list, in its order, which need not be that of a filter.
fn constraints(alloc: Global, rest: &str) -> Result<Vec<Constraint>, RowFault> {
    let mut constraints = Vec::new(alloc);
    if rest.is_empty() {
        return Ok(constraints);
    }
    for part in rest.split("; ") {
        constraints.push(first_constraint(alloc, part)?)?;
    }
    Ok(constraints)
}

/// The notice of a list of attributes, or why there is none.
pub fn notice(alloc: Global, rest: &str) -> Result<Vec<u8>, RowFault> {
    match Notice::make(attributes(alloc, rest)?) {
        Ok(notice) => Ok(write_notice(alloc, &notice.copy(alloc)?)?),
        Err(NoticeFault::NoMemory) => Err(RowFault::NoMemory),
        Err(fault) => told(alloc, format!(in alloc; "{fault:?}")?),
    }
}

/// Whether a list of attributes is in order.
pub fn notice_in_order(alloc: Global, rest: &str) -> Result<Vec<u8>, RowFault> {
    let notice = Notice::of_rising(attributes(alloc, rest)?)?;
    truth(alloc, notice.is_some())
}

/// The filter of a list of constraints, or why there is none.
pub fn filter(alloc: Global, rest: &str) -> Result<Vec<u8>, RowFault> {
    match Filter::make(constraints(alloc, rest)?) {
        Ok(filter) => Ok(write_filter(alloc, &filter.copy(alloc)?)?),
        Err(FilterFault::NoMemory) => Err(RowFault::NoMemory),
        Err(fault) => told(alloc, format!(in alloc; "{fault:?}")?),
    }
}

/// The advertisement of a list of constraints, or why there is none.
pub fn advert(alloc: Global, rest: &str) -> Result<Vec<u8>, RowFault> {
    match Advert::make(constraints(alloc, rest)?) {
        Ok(advert) => Ok(write_advert(alloc, &advert.copy(alloc)?)?),
        Err(FilterFault::NoMemory) => Err(RowFault::NoMemory),
        Err(fault) => told(alloc, format!(in alloc; "{fault:?}")?),
    }
}

/// Whether a list of constraints is in order, for a filter and for an advertisement.
pub fn filter_in_order(alloc: Global, rest: &str) -> Result<Vec<u8>, RowFault> {
    let filter = Filter::of_rising(constraints(alloc, rest)?)?;
    let advert = Advert::of_rising(constraints(alloc, rest)?)?;
    truths(alloc, filter.is_some(), advert.is_some())
}

/// Whether a copy of a constraint and a copy of its operand, if it has one, are equal to it.
pub fn copied(alloc: Global, rest: &str) -> Result<Vec<u8>, RowFault> {
    let constraint = first_constraint(alloc, rest)?;
    let copy = constraint.copy(alloc)?;
    let same = match (constraint.operand(), copy.operand()) {
        (Some(value), Some(other)) => *value == other.copy(alloc)?,
        (None, None) => true,
        _ => false,
    };
    truths(alloc, constraint == copy, same)
}
