//! The top call, for all words.
ghost use Rattle.std.specs.Prelude.{◌≡◌, ◌≢◌, ◌≤◌, ◌⊎◌, ◌++◌, ℕ, List, true, false, None, Some, length, IsErrOf};
ghost use Rattle.std.specs.Io.KnownBytes.{Consumes, IsAtEnd};
ghost use Rattle.base_devices.specs.Cause.{Rose};
ghost use Rattle.base_devices.specs.Sinks.{Grew};
ghost use Rattle.base_devices.specs.Whole.{Gave};
ghost use Rattle.program_sequential.specs.Words.{wanted_by, AreNoneOfRun};
ghost use Rattle.program_sequential.specs.Answers.{reads, most_read, CanAnswer, IsReadOut};
ghost use Rattle.program_sequential.specs.Answering.{IsAnswer};
ghost use Rattle.program_sequential.specs.Outcomes.{IsOutcome};
ghost use Rattle.program_threaded.specs.Wishes.{with_threads};

use crate::threaded::of_document;
use base_devices::{Gate, Sink, Source};
use program_sequential::{
    Outcome, Printed, Query, Schedule, Shown, Status, Unanswered, Wanted, Word, document, quiet,
    read_words, widened,
};
use std::alloc::Global;
use std::sync::Wait;
use std::thread::Threads;

/// How the run is shown, where the words are those of `run`.
fn threads_by(words: &[Word]) -> Option<Shown>
    ensures some { (shown : Shown) → result ≡ Some shown → wanted_by words.now ≡ Some (with_threads shown) }
    ensures none { result ≡ None → AreNoneOfRun (wanted_by words.now) }
{
    match read_words(words) {
        Some(Wanted::Document(Query::Run(Schedule::Threads, shown))) => Some(shown),
        _ => None,
    }
}

/// The run of the source's document with threads, among all answers.
fn run<R: Threads + Wait + Sync, S: Source, G: Gate + Sync>(
    alloc: Global,
    rt: &R,
    shown: Shown,
    source: &mut S,
    gate: &G,
) -> Result<Printed, Unanswered>
    ensures answers { IsAnswer (with_threads shown) (S.given source.old) (S.given source.new) (S.ended source.new) result }
    ensures sure { (IsErrOf result Unanswered.ReadFault → ⊥) → (IsErrOf result Unanswered.NoMemory → ⊥)
        → S.faults source.new ≡ S.faults source.old }
    ensures failed { IsErrOf result Unanswered.ReadFault → Rose (S.faults source.old) (S.faults source.new) }
    ensures at_most { Gave (S.given source.old) (S.given source.new) (λ given. length given ≤ 4194305) }
    ensures told { (given : List ℕ) → S.given source.new ≡ S.given source.old ++ given → Consumes (S.left source.old) (S.left source.new) given }
    ensures read_out { (Rose (S.faults source.old) (S.faults source.new) → ⊥)
        → IsReadOut 4194305 (S.given source.old) (S.given source.new) (S.ended source.new) ⊎ IsErrOf result Unanswered.NoMemory }
    ensures end { S.ended source.new ≡ true → IsAtEnd (S.left source.new) }
{
    match document(alloc, source) {
        Ok(bytes) => widened(of_document(alloc, rt, &bytes, shown, gate)),
        Err(fault) => Err(Unanswered::from(fault)),
    }
}

/// Does what the words say. The words are read first, then the source, whose document is refused at its first fault; then the
/// run is made, and then the text is written. All memory is taken before the first write.
///
/// `run` makes the run of the network with two workers a server and prints what each client receives in it. The workers of all
/// servers share a few threads, of which this one is the first; such a call returns when the others end. For all other words it
/// is [`quiet`].
pub fn siena<R: Threads + Wait + Sync, S: Source, K: Sink, G: Gate + Sync>(
    alloc: Global,
    rt: &R,
    words: &[Word],
    source: &mut S,
    sink: &mut K,
    gate: &G,
) -> Outcome
    ensures outcome { IsOutcome (wanted_by words.now) (S.given source.old) (S.given source.new) (S.ended source.new)
        (K.state sink.old).taken (K.state sink.new).taken result.status result.journal.entries }
    ensures sure { result.status ≢ Status.ReadFault → result.status ≢ Status.NoMemory → S.faults source.new ≡ S.faults source.old }
    ensures sure_written { result.status ≢ Status.WriteFault → (K.state sink.new).faults ≡ (K.state sink.old).faults }
    ensures unread { reads (wanted_by words.now) ≡ false → source.new ≡ source.old }
    ensures at_most { reads (wanted_by words.now) ≡ true
        → Gave (S.given source.old) (S.given source.new) (λ given. length given ≤ most_read (wanted_by words.now)) }
    ensures told { (given : List ℕ) → S.given source.new ≡ S.given source.old ++ given → Consumes (S.left source.old) (S.left source.new) given }
    ensures end { reads (wanted_by words.now) ≡ true → S.ended source.new ≡ true → IsAtEnd (S.left source.new) }
    ensures read_out { reads (wanted_by words.now) ≡ true → (Rose (S.faults source.old) (S.faults source.new) → ⊥)
        → IsReadOut (most_read (wanted_by words.now)) (S.given source.old) (S.given source.new) (S.ended source.new)
        ⊎ (result.status ≡ Status.NoMemory) }
    ensures held { Grew (K.state sink.old) (K.state sink.new) }
    ensures unwritten { result.status ≢ Status.Done → result.status ≢ Status.WriteFault → sink.new ≡ sink.old }
    ensures read_fault { result.status ≡ Status.ReadFault → Rose (S.faults source.old) (S.faults source.new) }
    ensures write_fault { result.status ≡ Status.WriteFault → Rose (K.state sink.old).faults (K.state sink.new).faults }
    ensures complete { CanAnswer (wanted_by words.now) (S.given source.old) (S.given source.new) (S.ended source.new)
        → (Rose (K.state sink.old).faults (K.state sink.new).faults → ⊥)
        → (result.status ≡ Status.Done) ⊎ (result.status ≡ Status.NoMemory) }
{
    match threads_by(words) {
        Some(shown) => Outcome::of_answer(alloc, run(alloc, rt, shown, source, gate), sink),
        None => quiet(alloc, words, source, sink),
    }
}
