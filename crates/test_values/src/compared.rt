//! Answers the questions that compare two things.
use base::Cover;
use filter_covering::{Ad, Sub, advert_covers, filter_covers};
use filter_types::{allows, matches};
use std::alloc::Global;
use test_support::{
    RowFault, advert, filter, first_constraint, first_value, notice, put_truth, truth, truths,
    two_parts,
};

/// Whether a value satisfies a constraint.
pub fn satisfied(alloc: Global, rest: &str) -> Result<Vec<u8>, RowFault> {
    let (value, constraint) = two_parts(rest)?;
    let value = first_value(alloc, value)?;
    truth(
        alloc,
        first_constraint(alloc, constraint)?.satisfied(&value),
    )
}

/// Whether a constraint covers another one, and whether that one covers it.
pub fn covers(alloc: Global, rest: &str) -> Result<Vec<u8>, RowFault> {
    let (c, d) = two_parts(rest)?;
    let (c, d) = (first_constraint(alloc, c)?, first_constraint(alloc, d)?);
    truths(alloc, c.covers(&d), d.covers(&c))
}

/// Whether two constraints are compatible, either way.
pub fn compatible(alloc: Global, rest: &str) -> Result<Vec<u8>, RowFault> {
    let (c, d) = two_parts(rest)?;
    let (c, d) = (first_constraint(alloc, c)?, first_constraint(alloc, d)?);
    truths(alloc, c.compatible(&d), d.compatible(&c))
}

/// Whether two constraints are on one name and of one kind.
pub fn alike(alloc: Global, rest: &str) -> Result<Vec<u8>, RowFault> {
    let (c, d) = two_parts(rest)?;
    truth(
        alloc,
        first_constraint(alloc, c)?.same_subject(&first_constraint(alloc, d)?),
    )
}

/// Whether a constraint stands before another one, and whether the two are equal.
pub fn before(alloc: Global, rest: &str) -> Result<Vec<u8>, RowFault> {
    let (c, d) = two_parts(rest)?;
    let (c, d) = (first_constraint(alloc, c)?, first_constraint(alloc, d)?);
    truths(alloc, c < d, c == d)
}

/// Whether a value stands before another one, and whether the two are equal.
pub fn rises(alloc: Global, rest: &str) -> Result<Vec<u8>, RowFault> {
    let (a, b) = two_parts(rest)?;
    let (a, b) = (first_value(alloc, a)?, first_value(alloc, b)?);
    truths(alloc, a < b, a == b)
}

/// The answers of an item to another: whether it covers it and is covered by it, whether it stands
/// before it and after it.
fn stands<T: Cover>(alloc: Global, item: &T, other: &T) -> Result<Vec<u8>, RowFault> {
    let mut answer = truths(alloc, item.covers(other), other.covers(item))?;
    put_truth(&mut answer, item.before(other))?;
    put_truth(&mut answer, other.before(item))?;
    Ok(answer)
}

/// How a filter stands to another one as an item, and whether the two are equal.
pub fn filters(alloc: Global, rest: &str) -> Result<Vec<u8>, RowFault> {
    let (f, g) = two_parts(rest)?;
    let (f, g) = (Sub(filter(alloc, f)?), Sub(filter(alloc, g)?));
    let mut answer = stands(alloc, &f, &g)?;
    put_truth(&mut answer, f.0 == g.0)?;
    Ok(answer)
}

/// The same of advertisements.
pub fn adverts(alloc: Global, rest: &str) -> Result<Vec<u8>, RowFault> {
    let (a, b) = two_parts(rest)?;
    let (a, b) = (Ad(advert(alloc, a)?), Ad(advert(alloc, b)?));
    let mut answer = stands(alloc, &a, &b)?;
    put_truth(&mut answer, a.0 == b.0)?;
    Ok(answer)
}

/// Whether constraints cover others as filters, and as advertisements.
pub fn covering(alloc: Global, rest: &str) -> Result<Vec<u8>, RowFault> {
    let (c, d) = two_parts(rest)?;
    let as_filters = filter_covers(&filter(alloc, c)?, &filter(alloc, d)?);
    let as_adverts = advert_covers(&advert(alloc, c)?, &advert(alloc, d)?);
    truths(alloc, as_filters, as_adverts)
}

/// Whether a filter and an advertisement overlap.
pub fn overlap(alloc: Global, rest: &str) -> Result<Vec<u8>, RowFault> {
    let (f, a) = two_parts(rest)?;
    truth(
        alloc,
        filter_types::overlaps(&filter(alloc, f)?, &advert(alloc, a)?),
    )
}

/// Whether constraints as a filter are matched by a notice, and as an advertisement allow it.
pub fn matched(alloc: Global, rest: &str) -> Result<Vec<u8>, RowFault> {
    let (constraints, attributes) = two_parts(rest)?;
    let (filter, advert) = (filter(alloc, constraints)?, advert(alloc, constraints)?);
    let notice = notice(alloc, attributes)?.copy(alloc)?;
    truths(alloc, matches(&filter, &notice), allows(&advert, &notice))
}

/// Of a type that threads may share and drop.
fn is_shared<T: Drop + Send + Sync>(value: T) -> bool {
    drop(value);
    true
}

/// Whether copies stay where what they are of is handed away.
pub fn shared(alloc: Global, rest: &str) -> Result<Vec<u8>, RowFault> {
    let (constraints, attributes) = two_parts(rest)?;
    let (f, n) = (filter(alloc, constraints)?, notice(alloc, attributes)?);
    let (g, m) = (f.copy(alloc)?, n.copy(alloc)?);
    let away = is_shared(f) && is_shared(advert(alloc, constraints)?) && is_shared(n);
    truth(alloc, away && matches(&g, &m))
}
