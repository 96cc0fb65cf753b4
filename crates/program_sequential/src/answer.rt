//! Answers what the words ask for, over a source.
ghost use Rattle.std.specs.Prelude.{◌≡◌, ◌≤◌, ◌<◌, ◌+◌, ◌++◌, ◌⊎◌, ℕ, Bool, List, true, false, length, IfOk, IsErrOf};
ghost use Rattle.std.specs.Io.KnownBytes.{Consumes, IsAtEnd};
ghost use Rattle.base_devices.specs.Cause.{Rose};
ghost use Rattle.base_devices.specs.Whole.{Gave};
ghost use Rattle.program_sequential.specs.Words.{IsQuietWish};
ghost use Rattle.program_sequential.specs.Answers.{IsPrintedBy, IsReadOut, reads_document, most_for};
ghost use Rattle.program_sequential.specs.Answering.{IsAnswer};

use crate::audits::of_audit;
use crate::generated::of_seed;
use crate::outlook::of_subject;
use crate::page::of_page;
use crate::patterns::of_patterns;
use crate::printed::{Printed, of_document};
use crate::unanswered::{Unanswered, widened};
use crate::words::Wanted;
use base::NoMemory;
use base_devices::{Source, read_all};
use std::alloc::Global;

// Whether an input is read for it.
fn reads_document(wanted: &Wanted<'_>) -> bool
    ensures { result ≡ reads_document wanted.now }
{
    match wanted {
        Wanted::Document(_) | Wanted::Patterns | Wanted::Explain(_) | Wanted::Audit { .. } => true,
        _ => false,
    }
}

// How many bytes are read for it at the most.
fn most_bytes(wanted: &Wanted<'_>) -> usize
    ensures { result + 1 ≡ most_for wanted.now }
{
    match wanted {
        Wanted::Audit { .. } => 268_435_456,
        _ => 4_194_304,
    }
}

// What needs no source.
fn unasked(printed: Result<Printed, NoMemory>) -> Result<Printed, Unanswered>
    ensures answers { (wanted : Wanted) (given : List ℕ) (ended : Bool) → reads_document wanted ≡ false
        → IfOk printed (λ p. IsPrintedBy wanted given given ended p.text p.journal) → IsAnswer wanted given given ended result }
    ensures read { IsErrOf result Unanswered.ReadFault → ⊥ }
{
    match printed {
        Ok(printed) => Ok(printed),
        Err(NoMemory) => Err(Unanswered::NoMemory),
    }
}

// What is wanted, by the bytes of the input where one is read.
fn of_bytes(alloc: Global, wanted: Wanted<'_>, bytes: &[u8]) -> Result<Printed, Unanswered>
    requires quiet { IsQuietWish wanted }
    requires few { length bytes.now < most_for wanted }
    ensures read { reads_document wanted.entry ≡ true → (given : List ℕ) → IsAnswer wanted.entry given (given ++ bytes.now) true result }
    ensures unread { reads_document wanted.entry ≡ false → (given : List ℕ) (ended : Bool) → IsAnswer wanted.entry given given ended result }
    ensures at_hand { IsErrOf result Unanswered.ReadFault → ⊥ }
{
    match wanted {
        Wanted::Document(query) => widened(of_document(alloc, query, bytes)),
        Wanted::Generate { seed, summary } => unasked(of_seed(alloc, seed, summary)),
        Wanted::Patterns => of_patterns(alloc, bytes),
        Wanted::Explain(subject) => of_subject(alloc, bytes, &subject),
        Wanted::Audit { hierarchy } => of_audit(alloc, hierarchy, bytes),
        Wanted::About(page) => unasked(of_page(alloc, page)),
    }
}

/// What is wanted, or why nothing is written.
pub fn answer<S: Source>(
    alloc: Global,
    wanted: Wanted<'_>,
    source: &mut S,
) -> Result<Printed, Unanswered>
    requires { IsQuietWish wanted }
    ensures answers { IsAnswer wanted.entry (S.given source.old) (S.given source.new) (S.ended source.new) result }
    ensures sure { (IsErrOf result Unanswered.ReadFault → ⊥) → (IsErrOf result Unanswered.NoMemory → ⊥)
        → S.faults source.new ≡ S.faults source.old }
    ensures unread { reads_document wanted.entry ≡ false → source.new ≡ source.old }
    ensures failed { IsErrOf result Unanswered.ReadFault → Rose (S.faults source.old) (S.faults source.new) }
    ensures at_most { reads_document wanted.entry ≡ true
        → Gave (S.given source.old) (S.given source.new) (λ given. length given ≤ most_for wanted.entry) }
    ensures told { (given : List ℕ) → S.given source.new ≡ S.given source.old ++ given → Consumes (S.left source.old) (S.left source.new) given }
    ensures read_out { reads_document wanted.entry ≡ true → (Rose (S.faults source.old) (S.faults source.new) → ⊥)
        → IsReadOut (most_for wanted.entry) (S.given source.old) (S.given source.new) (S.ended source.new) ⊎ IsErrOf result Unanswered.NoMemory }
    ensures end { reads_document wanted.entry ≡ true → S.ended source.new ≡ true → IsAtEnd (S.left source.new) }
{
    if !reads_document(&wanted) {
        return of_bytes(alloc, wanted, &[]);
    }
    match read_all(alloc, source, most_bytes(&wanted)) {
        Ok(bytes) => of_bytes(alloc, wanted, &bytes),
        Err(fault) => Err(Unanswered::from(fault)),
    }
}
