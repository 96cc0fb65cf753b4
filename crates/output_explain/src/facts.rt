//! Gathers the facts of filters and advertisements about a publication.
ghost use Rattle.std.specs.Prelude.{◌≡◌, ◌++◌, ◌+◌, ◌<◌, ◌^◌, length, IfOk, OnOk};
ghost use Rattle.std.specs.Option.{option_copied};
ghost use Rattle.filter_types.specs.Cover.{some_allows};
ghost use Rattle.output_explain.specs.Facts.{value_at, is_satisfied, first_miss, first_denied, fact_by, filter_fact, filter_facts, advert_fact, advert_facts};

use crate::stay::{Stay, is_there, stay_of};
use base::NoMemory;
use base_pool::Items;
use filter_constraints::Constraint;
use filter_covering::{Ad, Sub};
use filter_text::Command;
use filter_types::{Advert, Filter, Notice};
use filter_values::{Name, Value};
use std::alloc::Global;

/// Why a notification doesn't match a filter.
#[derive(Drop)]
pub struct Miss {
    /// The first constraint that isn't satisfied.
    pub constraint: Constraint,
    /// The value that the notification has under its name; none where the attribute is missing.
    pub value: Option<Value>,
}

/// What a filter says of a publication.
#[derive(Drop)]
pub struct FilterFact {
    /// The filter.
    pub filter: Filter,
    /// Why the notification doesn't match it; none where it does.
    pub miss: Option<Miss>,
    /// When it is in the client's list within the publication's phase.
    pub stay: Stay,
}

/// What an advertisement says of a publication.
#[derive(Drop)]
pub struct AdvertFact {
    /// The advertisement.
    pub advert: Advert,
    /// The first attribute that it doesn't allow; none where it allows the notification.
    pub denied: Option<(Name, Value)>,
    /// Whether it is in the publisher's list when the notification is published.
    pub here: bool,
    /// When it is in the publisher's list within the publication's phase.
    pub stay: Stay,
}

// The value that a notification has under a name.
fn value_at<'a>(notice: &'a Notice, name: &Name) -> Option<&'a Value>
    ensures { option_copied result ≡ value_at notice.now name.now }
{
    for (other, value) in notice.attributes() {
        if other == name {
            return Some(value);
        }
    }
    None
}

// Whether there is a value, and it satisfies the constraint.
fn is_satisfied(constraint: &Constraint, value: Option<&Value>) -> bool
    ensures { result ≡ is_satisfied constraint.now (option_copied value.entry) }
{
    match value {
        None => false,
        Some(value) => constraint.satisfied(value),
    }
}

// A copy of the value, where there is one.
fn copied(alloc: Global, value: Option<&Value>) -> Result<Option<Value>, NoMemory>
    ensures { IfOk result (λ copy. copy ≡ option_copied value.entry) }
{
    match value {
        None => Ok(None),
        Some(value) => Ok(Some(value.copy(alloc)?)),
    }
}

// Why the notification doesn't match the filter.
fn first_miss(alloc: Global, notice: &Notice, filter: &Filter) -> Result<Option<Miss>, NoMemory>
    ensures { IfOk result (λ miss. miss ≡ first_miss notice.now filter.now) }
{
    for constraint in filter.constraints() {
        let value = value_at(notice, constraint.name());
        if !is_satisfied(constraint, value) {
            let constraint = constraint.copy(alloc)?;
            let value = copied(alloc, value)?;
            return Ok(Some(Miss { constraint, value }));
        }
    }
    Ok(None)
}

// Whether one of the advertisement's constraints on the name is satisfied by the value.
fn some_allows(advert: &Advert, name: &Name, value: &Value) -> bool
    ensures { result ≡ some_allows advert.now name.now value.now }
{
    let constraints = advert.constraints();
    constraints.iter().any(|constraint| constraint.name() == name && constraint.satisfied(value))
}

// The first attribute that the advertisement doesn't allow.
fn first_denied(
    alloc: Global,
    advert: &Advert,
    notice: &Notice,
) -> Result<Option<(Name, Value)>, NoMemory>
    ensures { IfOk result (λ denied. denied ≡ first_denied advert.now notice.now) }
{
    for (name, value) in notice.attributes() {
        if !some_allows(advert, name, value) {
            return Ok(Some((name.copy(alloc)?, value.copy(alloc)?)));
        }
    }
    Ok(None)
}

// Puts the fact of a filter at the end, where it is in force at some moment.
fn push_filter_fact(
    alloc: Global,
    facts: &mut Vec<FilterFact>,
    notice: &Notice,
    filter: &Filter,
    stay: Option<Stay>,
) -> Result<(), NoMemory>
    ensures { OnOk result (facts.new.items ≡ facts.old.items ++ fact_by (filter_fact notice.now filter.now) stay) }
{
    let Some(stay) = stay else {
        return Ok(());
    };
    facts.push(FilterFact {
        filter: filter.copy(alloc)?,
        miss: first_miss(alloc, notice, filter)?,
        stay,
    })?;
    Ok(())
}

/// The facts of those of the filters that are in a client's list at some moment of a phase, by the client's commands before
/// the phase and those of the phase.
pub(crate) fn filter_facts(
    alloc: Global,
    notice: &Notice,
    before: &[(u32, Command)],
    within: &[(u32, Command)],
    known: &Items<Sub>,
) -> Result<Vec<FilterFact>, NoMemory>
    requires { length before.now + length within.now < 2 ^ 64 }
    ensures { IfOk result (λ facts. facts.items ≡ filter_facts notice.now before.now within.now known.now) }
{
    let mut facts = Vec::new(alloc);
    for i in 0..known.len() {
        let sub = known.at(i);
        let stay = stay_of(sub, before, within);
        push_filter_fact(alloc, &mut facts, notice, &sub.0, stay)?;
    }
    Ok(facts)
}

// Puts the fact of an advertisement at the end, where it is in force at some moment. It is in force or not at the publish.
fn push_advert_fact(
    alloc: Global,
    facts: &mut Vec<AdvertFact>,
    notice: &Notice,
    ahead: &[(u32, Command)],
    ad: &Ad,
    stay: Option<Stay>,
) -> Result<(), NoMemory>
    ensures { OnOk result (facts.new.items ≡ facts.old.items ++ fact_by (advert_fact notice.now ahead.now ad.now) stay) }
{
    let Some(stay) = stay else {
        return Ok(());
    };
    facts.push(AdvertFact {
        advert: ad.0.copy(alloc)?,
        denied: first_denied(alloc, &ad.0, notice)?,
        here: is_there(ad, ahead),
        stay,
    })?;
    Ok(())
}

/// The facts of those of the advertisements that are in a publisher's list at some moment of a phase, by its commands before
/// the phase, those of the phase, and those ahead of the publish.
pub(crate) fn advert_facts(
    alloc: Global,
    notice: &Notice,
    ahead: &[(u32, Command)],
    before: &[(u32, Command)],
    within: &[(u32, Command)],
    known: &Items<Ad>,
) -> Result<Vec<AdvertFact>, NoMemory>
    requires { length before.now + length within.now < 2 ^ 64 }
    ensures { IfOk result (λ facts. facts.items ≡ advert_facts notice.now ahead.now before.now within.now known.now) }
{
    let mut facts = Vec::new(alloc);
    for i in 0..known.len() {
        let ad = known.at(i);
        let stay = stay_of(ad, before, within);
        push_advert_fact(alloc, &mut facts, notice, ahead, ad, stay)?;
    }
    Ok(facts)
}
