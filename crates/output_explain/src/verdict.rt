//! Decides whether a publication is owed to a client, allowed to it or neither, by the facts of filters and advertisements.
ghost use Rattle.std.specs.Prelude.{◌≡◌, ◌||◌, ◌&&◌, not};
ghost use Rattle.std.specs.List.{list_any};
ghost use Rattle.net_model.specs.Nets.{with_adverts};
ghost use Rattle.output_explain.specs.Verdicts.{is_match, is_match_throughout, is_leave, is_leave_throughout, at_best, verdict_by};

use crate::facts::{AdvertFact, FilterFact};
use net_model::Semantics;

/// What a client gets of a publication.
#[derive(Clone, Copy, Debug, PartialEq, Eq)]
pub enum Verdict {
    /// It gets it exactly once, in every run to its end.
    Owed,
    /// It gets it once or not at all, as messages overtake one another: this is missing for it to be owed.
    May(Missing),
    /// It never gets it, for this reason.
    Never(Reason),
}

/// What is missing for a publication to be owed.
#[derive(Clone, Copy, Debug, PartialEq, Eq)]
pub enum Missing {
    /// A filter of the client that matches and is in force throughout the phase.
    Filter,
    /// An advertisement of the publisher that allows it and is in force throughout the phase.
    Advert,
    /// Both.
    Both,
}

/// Why a publication never comes to a client.
#[derive(Clone, Copy, Debug, PartialEq, Eq)]
pub enum Reason {
    /// It was refused.
    Refused,
    /// No filter of the client that matches is in force at any moment of the phase.
    Unmatched,
}

// Whether a filter in force at some moment matches.
fn is_matched(filters: &[FilterFact]) -> bool
    ensures { result ≡ list_any is_match filters.now }
{
    filters.iter().any(|fact| fact.miss.is_none())
}

// Whether a filter in force throughout matches.
fn is_matched_throughout(filters: &[FilterFact]) -> bool
    ensures { result ≡ list_any is_match_throughout filters.now }
{
    filters
        .iter()
        .any(|fact| fact.miss.is_none() && fact.stay.is_throughout())
}

// Whether an advertisement in force at the publish allows the notification.
fn is_allowed(adverts: &[AdvertFact]) -> bool
    ensures { result ≡ list_any is_leave adverts.now }
{
    adverts
        .iter()
        .any(|fact| fact.denied.is_none() && fact.here)
}

// Whether an advertisement in force throughout allows the notification.
fn is_allowed_throughout(adverts: &[AdvertFact]) -> bool
    ensures { result ≡ list_any is_leave_throughout adverts.now }
{
    adverts
        .iter()
        .any(|fact| fact.denied.is_none() && fact.stay.is_throughout())
}

// The verdict on a publication that was accepted and is allowed to the client.
fn at_best(steady: bool, advertised: bool) -> Verdict
    ensures { result ≡ at_best steady advertised }
{
    match (steady, advertised) {
        (true, true) => Verdict::Owed,
        (false, true) => Verdict::May(Missing::Filter),
        (true, false) => Verdict::May(Missing::Advert),
        (false, false) => Verdict::May(Missing::Both),
    }
}

// Whether the publish is accepted: no advertisement is asked for, or one in force there allows it.
fn is_accepted(semantics: Semantics, adverts: &[AdvertFact]) -> bool
    ensures { result ≡ not (with_adverts semantics) || list_any is_leave adverts.now }
{
    match semantics {
        Semantics::Subscription => true,
        Semantics::Advertisement => is_allowed(adverts),
    }
}

// Whether no advertisement is asked for, or one in force throughout allows it.
fn is_advertised(semantics: Semantics, adverts: &[AdvertFact]) -> bool
    ensures { result ≡ not (with_adverts semantics) || list_any is_leave_throughout adverts.now }
{
    match semantics {
        Semantics::Subscription => true,
        Semantics::Advertisement => is_allowed_throughout(adverts),
    }
}

/// The verdict by the facts.
pub(crate) fn verdict_by(
    semantics: Semantics,
    filters: &[FilterFact],
    adverts: &[AdvertFact],
) -> Verdict
    ensures { result ≡ verdict_by semantics filters.now adverts.now }
{
    if !is_accepted(semantics, adverts) {
        return Verdict::Never(Reason::Refused);
    }
    if !is_matched(filters) {
        return Verdict::Never(Reason::Unmatched);
    }
    at_best(
        is_matched_throughout(filters),
        is_advertised(semantics, adverts),
    )
}
