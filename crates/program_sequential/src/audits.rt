//! Whether the output of an input is that of a whole run.
ghost use Rattle.std.specs.Prelude.{◌≡◌, ◌≤◌, ℕ, List, true, false, length, IfOk};
ghost use Rattle.net_model.specs.Parts.{EntryParts};
ghost use Rattle.audit_claim.specs.Claim.{EndsLine, with_output};
ghost use Rattle.program_sequential.specs.declared.words.Schedule.{Schedule};
ghost use Rattle.program_sequential.specs.Headline.{Headline};
ghost use Rattle.program_sequential.specs.Hierarchy.{IsHierarchyOf};
ghost use Rattle.program_sequential.specs.Audits.{CanConfirm, audit_text, traced};
ghost use Rattle.program_sequential.specs.Auditing.{AuditsInput, AuditsKind};

use crate::body::Body;
use crate::hierarchy_law::lemma_hierarchy_promise;
use crate::law::lemma_promise;
use crate::notices::lemma_notices;
use crate::printed::Printed;
use crate::unanswered::Unanswered;
use audit_hierarchy::Hierarchies;
use audit_verdict::{Audited, AuditedKind, Peers, audit};
use base::{NoMemory, push_number};
use document_reader::law::lemma_net_sound;
use net_journal::{Journal, Record};
use output_report::push_total;
use std::alloc::Global;

// How much a confirmed run has, as a text.
fn counts_text(
    alloc: Global,
    entries: u64,
    owed: u128,
    deliveries: u128,
) -> Result<Vec<u8>, NoMemory>
    ensures { IfOk result (λ text. text.items ≡ audit_text entries owed deliveries) }
{
    let mut out = Vec::new(alloc);
    out.extend_from_slice(b"audit yes entries ")?;
    push_number(&mut out, entries)?;
    out.extend_from_slice(b" owed ")?;
    push_total(&mut out, owed)?;
    out.extend_from_slice(b" deliveries ")?;
    push_total(&mut out, deliveries)?;
    out.extend_from_slice(b"\n")?;
    Ok(out)
}

// What is printed of a confirmed run.
fn confirmed(alloc: Global, audited: Audited) -> Result<Printed, NoMemory>
    ensures text { IfOk result (λ p. p.text ≡ audit_text (length audited.journal.items) audited.owed audited.deliveries) }
    ensures journal { IfOk result (λ p. p.journal ≡ audited.journal.items) }
{
    let Audited {
        net: _,
        journal,
        owed,
        deliveries,
    } = audited;
    let text = counts_text(alloc, journal.len() as u64, owed, deliveries)?;
    Printed::make(alloc, Body::Nothing, text, Record::of(Journal::of(journal)))
}

// Whether the output is that of a whole run of networks of a kind.
fn of_kind<K: AuditedKind>(alloc: Global, bytes: &[u8]) -> Result<Printed, Unanswered>
    requires { length bytes.now ≤ 268435456 }
    ensures { AuditsKind K.kind bytes.now result }
{
    lemma_net_sound();
    let audited = match audit::<K>(alloc, bytes) {
        Ok(audited) => audited,
        Err(fault) => return Err(Unanswered::from(fault)),
    };
    lemma_notices(&audited.net);
    match confirmed(alloc, audited) {
        Ok(printed) => Ok(printed),
        Err(NoMemory) => Err(Unanswered::NoMemory),
    }
}

/// Whether the output is that of a whole run, of a hierarchy where one is asked for, by an input of at most 268,435,456 bytes, or why nothing is written.
pub fn of_audit(alloc: Global, hierarchy: bool, bytes: &[u8]) -> Result<Printed, Unanswered>
    requires { length bytes.now ≤ 268435456 }
    ensures { AuditsInput hierarchy bytes.now result }
{
    if hierarchy {
        lemma_hierarchy_promise();
        hierarchy_turns::law::promise();
        of_kind::<Hierarchies>(alloc, bytes)
    } else {
        lemma_promise();
        of_kind::<Peers>(alloc, bytes)
    }
}

/// What is printed of a document in the order received with its trace is confirmed, whatever the schedule: put behind its document, whose last line is ended,
/// and the line `output`, where all that is not too long. What is printed of its hierarchy is confirmed as that of one.
pub fn printed_is_confirmed()
    ensures peers { (schedule : Schedule) (input text : List ℕ) (journal : List EntryParts) → Headline schedule traced input text journal → EndsLine input
        → length (with_output input text) ≤ 268435456 → CanConfirm false (with_output input text) }
    ensures hierarchies { (input text : List ℕ) (journal : List EntryParts) → IsHierarchyOf traced input text journal → EndsLine input
        → length (with_output input text) ≤ 268435456 → CanConfirm true (with_output input text) }
{}
