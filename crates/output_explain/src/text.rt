//! Writes the text of an explanation.
ghost use Rattle.std.specs.Prelude.{◌≡◌, ◌++◌, ◌∷◌, [], IfOk, OnOk};
ghost use Rattle.std.specs.List.{flat_map};
ghost use Rattle.filter_text.specs.FilterText.{constraints_text};
ghost use Rattle.filter_text.specs.NoticeText.{notice_text};
ghost use Rattle.output_explain.specs.Text.{moment_text, since_until, stay_line, against, unsatisfied_line, miss_line, filter_lines};
ghost use Rattle.output_explain.specs.Text.{denial_line, denied_line, here_line, advert_line, advert_lines, verdict_line, id_text};
ghost use Rattle.output_explain.specs.Text.{publication_line, client_line, phase_line, server_text, path_line, head_lines, explanation_text};

use crate::answer::Explanation;
use crate::facts::{AdvertFact, FilterFact, Miss};
use crate::stay::Stay;
use crate::verdict::{Missing, Reason, Verdict};
use base::{NoMemory, push_number};
use filter_constraints::Constraint;
use filter_text::{Id, write_advert, write_filter, write_notice};
use filter_types::{Advert, Filter, Notice};
use filter_values::{Name, Value};
use net_model::{Client, client_name};
use std::alloc::Global;

// A word and the number of a command, where there is one.
fn push_moment(out: &mut Vec<u8>, word: &[u8], moment: Option<usize>) -> Result<(), NoMemory>
    ensures { OnOk result (out.new.items ≡ out.old.items ++ moment_text word.now moment) }
{
    match moment {
        None => Ok(()),
        Some(moment) => {
            out.extend_from_slice(word)?;
            push_number(out, moment as u64)
        }
    }
}

// Since when and until when.
fn push_since_until(
    out: &mut Vec<u8>,
    since: Option<usize>,
    until: Option<usize>,
) -> Result<(), NoMemory>
    ensures { OnOk result (out.new.items ≡ out.old.items ++ since_until since until) }
{
    match (since, until) {
        (None, None) => {
            out.extend_from_slice(b" throughout the phase")?;
            Ok(())
        }
        _ => {
            push_moment(out, b" since command ", since)?;
            push_moment(out, b" until command ", until)
        }
    }
}

// When a filter or an advertisement is in force.
#[tactic(auto, unfolding(crate::specs::Text::stay_line))]
fn push_stay(out: &mut Vec<u8>, stay: Stay) -> Result<(), NoMemory>
    ensures { OnOk result (out.new.items ≡ out.old.items ++ stay_line stay) }
{
    out.extend_from_slice(b"in force")?;
    push_since_until(out, stay.since, stay.until)?;
    out.extend_from_slice(b"\n")?;
    Ok(())
}

// The text of a filter.
fn push_filter(alloc: Global, out: &mut Vec<u8>, filter: &Filter) -> Result<(), NoMemory>
    ensures { OnOk result (out.new.items ≡ out.old.items ++ constraints_text filter.now) }
{
    let text = write_filter(alloc, filter)?;
    out.extend_from_slice(&text)?;
    Ok(())
}

// The text of an advertisement.
fn push_advert(alloc: Global, out: &mut Vec<u8>, advert: &Advert) -> Result<(), NoMemory>
    ensures { OnOk result (out.new.items ≡ out.old.items ++ constraints_text advert.now) }
{
    let text = write_advert(alloc, advert)?;
    out.extend_from_slice(&text)?;
    Ok(())
}

// The text of a notification.
pub(crate) fn push_notice(alloc: Global, out: &mut Vec<u8>, notice: &Notice) -> Result<(), NoMemory>
    ensures { OnOk result (out.new.items ≡ out.old.items ++ notice_text notice.now) }
{
    let text = write_notice(alloc, notice)?;
    out.extend_from_slice(&text)?;
    Ok(())
}

// The text of a constraint: that of the filter that has it alone.
#[tactic(auto, unfolding(filter_types::specs::Canonical::is_listed))]
fn push_constraint(
    alloc: Global,
    out: &mut Vec<u8>,
    constraint: &Constraint,
) -> Result<(), NoMemory>
    ensures { OnOk result (out.new.items ≡ out.old.items ++ constraints_text (constraint.now ∷ [])) }
{
    let mut alone = Vec::new(alloc);
    alone.push(constraint.copy(alloc)?)?;
    match Filter::of_rising(alone)? {
        Some(filter) => push_filter(alloc, out, &filter),
        None => Ok(()),
    }
}

// The text of an attribute: that of the notification that has it alone.
#[tactic(auto, unfolding(filter_types::specs::Notice::is_notice))]
fn push_attribute(
    alloc: Global,
    out: &mut Vec<u8>,
    name: &Name,
    value: &Value,
) -> Result<(), NoMemory>
    ensures { OnOk result (out.new.items ≡ out.old.items ++ notice_text ((name.now, value.now) ∷ [])) }
{
    let mut alone = Vec::new(alloc);
    alone.push((name.copy(alloc)?, value.copy(alloc)?))?;
    match Notice::of_rising(alone)? {
        Some(notice) => push_notice(alloc, out, &notice),
        None => Ok(()),
    }
}

// What stands against a constraint on this name.
fn push_against(
    alloc: Global,
    out: &mut Vec<u8>,
    name: &Name,
    value: &Option<Value>,
) -> Result<(), NoMemory>
    ensures { OnOk result (out.new.items ≡ out.old.items ++ against name.now value.now) }
{
    match value {
        None => {
            out.extend_from_slice(b" as there is no such attribute")?;
            Ok(())
        }
        Some(value) => {
            out.extend_from_slice(b" by ")?;
            push_attribute(alloc, out, name, value)
        }
    }
}

// The first constraint of a filter that isn't satisfied.
#[tactic(auto, unfolding(crate::specs::Text::unsatisfied_line))]
fn push_unsatisfied(alloc: Global, out: &mut Vec<u8>, miss: &Miss) -> Result<(), NoMemory>
    ensures { OnOk result (out.new.items ≡ out.old.items ++ unsatisfied_line miss.now) }
{
    out.extend_from_slice(b"unsatisfied ")?;
    push_constraint(alloc, out, &miss.constraint)?;
    push_against(alloc, out, miss.constraint.name(), &miss.value)?;
    out.extend_from_slice(b"\n")?;
    Ok(())
}

// Whether a filter matches, and why not.
fn push_miss(alloc: Global, out: &mut Vec<u8>, miss: &Option<Miss>) -> Result<(), NoMemory>
    ensures { OnOk result (out.new.items ≡ out.old.items ++ miss_line miss.now) }
{
    match miss {
        None => {
            out.extend_from_slice(b"matches\n")?;
            Ok(())
        }
        Some(miss) => push_unsatisfied(alloc, out, miss),
    }
}

// The lines of a filter.
#[tactic(auto, unfolding(crate::specs::Text::filter_lines))]
fn push_filter_fact(alloc: Global, out: &mut Vec<u8>, fact: &FilterFact) -> Result<(), NoMemory>
    ensures { OnOk result (out.new.items ≡ out.old.items ++ filter_lines fact.now) }
{
    out.extend_from_slice(b"filter ")?;
    push_filter(alloc, out, &fact.filter)?;
    out.extend_from_slice(b"\n")?;
    push_miss(alloc, out, &fact.miss)?;
    push_stay(out, fact.stay)
}

// The first attribute that an advertisement doesn't allow.
#[tactic(auto, unfolding(crate::specs::Text::denial_line))]
fn push_denial(alloc: Global, out: &mut Vec<u8>, name: &Name, value: &Value) -> Result<(), NoMemory>
    ensures { OnOk result (out.new.items ≡ out.old.items ++ denial_line name.now value.now) }
{
    out.extend_from_slice(b"does not allow ")?;
    push_attribute(alloc, out, name, value)?;
    out.extend_from_slice(b"\n")?;
    Ok(())
}

// Whether an advertisement allows the notification, and which attribute it doesn't.
fn push_denied(
    alloc: Global,
    out: &mut Vec<u8>,
    denied: &Option<(Name, Value)>,
) -> Result<(), NoMemory>
    ensures { OnOk result (out.new.items ≡ out.old.items ++ denied_line denied.now) }
{
    match denied {
        None => {
            out.extend_from_slice(b"allows it\n")?;
            Ok(())
        }
        Some((name, value)) => push_denial(alloc, out, name, value),
    }
}

// Whether it is in force at the publish.
fn here_line(here: bool) -> &'static [u8]
    ensures { result.now ≡ here_line here }
{
    if here {
        b"in force at the publish\n"
    } else {
        b"not in force at the publish\n"
    }
}

// The line of an advertisement.
#[tactic(auto, unfolding(crate::specs::Text::advert_line))]
fn push_advert_line(alloc: Global, out: &mut Vec<u8>, advert: &Advert) -> Result<(), NoMemory>
    ensures { OnOk result (out.new.items ≡ out.old.items ++ advert_line advert.now) }
{
    out.extend_from_slice(b"advertisement ")?;
    push_advert(alloc, out, advert)?;
    out.extend_from_slice(b"\n")?;
    Ok(())
}

// The lines of an advertisement.
#[tactic(auto, unfolding(crate::specs::Text::advert_lines))]
fn push_advert_fact(alloc: Global, out: &mut Vec<u8>, fact: &AdvertFact) -> Result<(), NoMemory>
    ensures { OnOk result (out.new.items ≡ out.old.items ++ advert_lines fact.now) }
{
    push_advert_line(alloc, out, &fact.advert)?;
    push_denied(alloc, out, &fact.denied)?;
    out.extend_from_slice(here_line(fact.here))?;
    push_stay(out, fact.stay)
}

// The line of a verdict.
fn verdict_line(verdict: Verdict) -> &'static [u8]
    ensures { result.now ≡ verdict_line verdict }
{
    match verdict {
        Verdict::Owed => b"owed: delivered exactly once in every run\n",
        Verdict::May(Missing::Filter) => {
            b"may: no filter that matches is in force throughout the phase\n"
        }
        Verdict::May(Missing::Advert) => {
            b"may: no advertisement that allows it is in force throughout the phase\n"
        }
        Verdict::May(Missing::Both) => {
            b"may: no filter that matches and no advertisement that allows it is in force throughout the phase\n"
        }
        Verdict::Never(Reason::Refused) => {
            b"never: refused, as no advertisement in force at the publish allows it\n"
        }
        Verdict::Never(Reason::Unmatched) => {
            b"never: no filter that matches is in force in the phase\n"
        }
    }
}

// The publisher's name, and the ordinal.
#[tactic(auto, unfolding(crate::specs::Text::id_text))]
pub(crate) fn push_id(out: &mut Vec<u8>, clients: &[Client], id: Id) -> Result<(), NoMemory>
    ensures { OnOk result (out.new.items ≡ out.old.items ++ id_text clients.now id) }
{
    out.extend_from_slice(client_name(clients, id.publisher))?;
    out.extend_from_slice(b" ")?;
    push_number(out, u64::from(id.ordinal))
}

// The line of the publication.
#[tactic(auto, unfolding(crate::specs::Text::publication_line))]
fn push_publication(
    alloc: Global,
    out: &mut Vec<u8>,
    clients: &[Client],
    e: &Explanation,
) -> Result<(), NoMemory>
    ensures { OnOk result (out.new.items ≡ out.old.items ++ publication_line clients.now e.now) }
{
    out.extend_from_slice(b"publication ")?;
    push_id(out, clients, e.id)?;
    out.extend_from_slice(b" ")?;
    push_notice(alloc, out, &e.notice)?;
    out.extend_from_slice(b"\n")?;
    Ok(())
}

// The line of the client.
#[tactic(auto, unfolding(crate::specs::Text::client_line))]
fn push_client(out: &mut Vec<u8>, clients: &[Client], e: &Explanation) -> Result<(), NoMemory>
    ensures { OnOk result (out.new.items ≡ out.old.items ++ client_line clients.now e.now) }
{
    out.extend_from_slice(b"client ")?;
    out.extend_from_slice(client_name(clients, e.client))?;
    out.extend_from_slice(b"\n")?;
    Ok(())
}

// The line of the phase.
#[tactic(auto, unfolding(crate::specs::Text::phase_line))]
fn push_phase(out: &mut Vec<u8>, e: &Explanation) -> Result<(), NoMemory>
    ensures { OnOk result (out.new.items ≡ out.old.items ++ phase_line e.now) }
{
    out.extend_from_slice(b"phase ")?;
    push_number(out, u64::from(e.phase))?;
    out.extend_from_slice(b"\n")?;
    Ok(())
}

// The servers of a path.
fn push_servers(out: &mut Vec<u8>, path: &[u32]) -> Result<(), NoMemory>
    ensures { OnOk result (out.new.items ≡ out.old.items ++ flat_map server_text path.now) }
{
    for server in path {
        out.extend_from_slice(b" ")?;
        push_number(out, u64::from(*server))?;
    }
    Ok(())
}

// The line of the path.
#[tactic(auto, unfolding(crate::specs::Text::path_line))]
fn push_path(out: &mut Vec<u8>, path: &[u32]) -> Result<(), NoMemory>
    ensures { OnOk result (out.new.items ≡ out.old.items ++ path_line path.now) }
{
    out.extend_from_slice(b"path")?;
    push_servers(out, path)?;
    out.extend_from_slice(b"\n")?;
    Ok(())
}

// The lines of all filters.
fn push_filters(alloc: Global, out: &mut Vec<u8>, facts: &[FilterFact]) -> Result<(), NoMemory>
    ensures { OnOk result (out.new.items ≡ out.old.items ++ flat_map filter_lines facts.now) }
{
    for fact in facts {
        push_filter_fact(alloc, out, fact)?;
    }
    Ok(())
}

// The lines of all advertisements.
fn push_adverts(alloc: Global, out: &mut Vec<u8>, facts: &[AdvertFact]) -> Result<(), NoMemory>
    ensures { OnOk result (out.new.items ≡ out.old.items ++ flat_map advert_lines facts.now) }
{
    for fact in facts {
        push_advert_fact(alloc, out, fact)?;
    }
    Ok(())
}

// What is explained.
#[tactic(auto, unfolding(crate::specs::Text::head_lines))]
fn push_head(
    alloc: Global,
    out: &mut Vec<u8>,
    clients: &[Client],
    e: &Explanation,
) -> Result<(), NoMemory>
    ensures { OnOk result (out.new.items ≡ out.old.items ++ head_lines clients.now e.now) }
{
    push_publication(alloc, out, clients, e)?;
    push_client(out, clients, e)?;
    push_phase(out, e)?;
    push_path(out, &e.path)
}

/// The text of an explanation, with the names of a net's clients: one fact a line.
#[tactic(auto, unfolding(crate::specs::Text::explanation_text))]
pub fn explanation_text(
    alloc: Global,
    clients: &[Client],
    e: &Explanation,
) -> Result<Vec<u8>, NoMemory>
    ensures { IfOk result (λ text. text.items ≡ explanation_text clients.now e.now) }
{
    let mut out = Vec::new(alloc);
    push_head(alloc, &mut out, clients, e)?;
    push_filters(alloc, &mut out, &e.filters)?;
    push_adverts(alloc, &mut out, &e.adverts)?;
    out.extend_from_slice(verdict_line(e.verdict))?;
    Ok(out)
}
