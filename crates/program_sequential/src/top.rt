//! The top call on one thread, over any source and sink.
ghost use Rattle.std.specs.Prelude.{◌≡◌, ◌≢◌, ◌≤◌, ◌⊎◌, ◌++◌, ℕ, List, true, false, length};
ghost use Rattle.std.specs.Io.KnownBytes.{Consumes, IsAtEnd};
ghost use Rattle.base_devices.specs.Cause.{Rose};
ghost use Rattle.base_devices.specs.Sinks.{Grew};
ghost use Rattle.base_devices.specs.Whole.{Gave};
ghost use Rattle.program_sequential.specs.Words.{wanted_by, AreNoneOfRun};
ghost use Rattle.program_sequential.specs.Answers.{reads, most_read, CanAnswer, IsReadOut};
ghost use Rattle.program_sequential.specs.Outcomes.{IsOutcome};

use crate::answer::answer;
use crate::printed::Printed;
use crate::status::Status;
use crate::unanswered::Unanswered;
use crate::words::{Wanted, Word, read_words};
use base_devices::{Failed, Sink, Source};
use net_journal::Record;
use std::alloc::Global;

/// How a run ended, and its journal in the order of the turns: that of the run for `walk`, `hier`, `replay`, `traffic`,
/// `patterns`, `explain` of one publication, `audit` and a summary, and empty for all else and where it is not done.
#[derive(Drop)]
pub struct Outcome {
    /// How it ended.
    pub status: Status,
    /// The journal.
    pub journal: Record,
}

impl Outcome {
    ghost use Rattle.std.specs.Prelude.{◌≡◌, ◌≢◌, ◌⊎◌, ◌++◌, ℕ, Bool, List, [], Some, IsOk, IsErrOf};
    ghost use Rattle.base_devices.specs.Cause.{Rose};
    ghost use Rattle.base_devices.specs.Sinks.{Grew};
    ghost use Rattle.base_devices.specs.Whole.{TookPart};
    ghost use Rattle.program_sequential.specs.Answering.{IsAnswer};
    ghost use Rattle.program_sequential.specs.Outcomes.{IsOutcome};

    /// The outcome of what is not done.
    pub fn ended(alloc: Global, status: Status) -> Outcome
        ensures status { result.status ≡ status }
        ensures journal { result.journal.entries ≡ [] }
    {
        Outcome {
            status,
            journal: Record::empty(alloc),
        }
    }

    /// Writes what is printed, and gives the journal where all of it is written.
    pub fn written<K: Sink>(alloc: Global, printed: Printed, sink: &mut K) -> Outcome
        ensures done { result.status ≡ Status.Done → (K.state sink.new).taken ≡ (K.state sink.old).taken ++ printed.text }
        ensures sure { result.status ≢ Status.WriteFault → (K.state sink.new).faults ≡ (K.state sink.old).faults }
        ensures journal { result.status ≡ Status.Done → result.journal.entries ≡ printed.journal }
        ensures part { result.status ≡ Status.WriteFault → TookPart (K.state sink.old).taken (K.state sink.new).taken printed.text }
        ensures write_fault { result.status ≡ Status.WriteFault → Rose (K.state sink.old).faults (K.state sink.new).faults }
        ensures held { Grew (K.state sink.old) (K.state sink.new) }
        ensures empty { result.status ≢ Status.Done → result.journal.entries ≡ [] }
        ensures ends { (result.status ≡ Status.Done) ⊎ (result.status ≡ Status.WriteFault) }
    {
        match printed.write(sink) {
            Ok(journal) => Outcome {
                status: Status::Done,
                journal,
            },
            Err(Failed) => Outcome::ended(alloc, Status::WriteFault),
        }
    }

    /// Writes what is answered, or answers why nothing is written.
    pub fn of_answer<K: Sink>(
        alloc: Global,
        answer: Result<Printed, Unanswered>,
        sink: &mut K,
    ) -> Outcome
        ensures outcome { (wanted : Wanted) (given now : List ℕ) (ended : Bool) → IsAnswer wanted given now ended answer
            → IsOutcome (Some wanted) given now ended (K.state sink.old).taken (K.state sink.new).taken result.status result.journal.entries }
        ensures done { result.status ≡ Status.Done → IsOk answer }
        ensures sure { result.status ≢ Status.WriteFault → (K.state sink.new).faults ≡ (K.state sink.old).faults }
        ensures held { Grew (K.state sink.old) (K.state sink.new) }
        ensures no_memory { IsErrOf answer Unanswered.NoMemory → result.status ≡ Status.NoMemory }
        ensures unwritten { result.status ≢ Status.Done → result.status ≢ Status.WriteFault → sink.new ≡ sink.old }
        ensures read_fault { result.status ≡ Status.ReadFault → IsErrOf answer Unanswered.ReadFault }
        ensures unread { IsErrOf answer Unanswered.ReadFault → result.status ≡ Status.ReadFault }
        ensures write_fault { result.status ≡ Status.WriteFault → Rose (K.state sink.old).faults (K.state sink.new).faults }
        ensures complete { IsOk answer ⊎ IsErrOf answer Unanswered.NoMemory → (Rose (K.state sink.old).faults (K.state sink.new).faults → ⊥)
            → (result.status ≡ Status.Done) ⊎ (result.status ≡ Status.NoMemory) }
    {
        match answer {
            Ok(printed) => Outcome::written(alloc, printed, sink),
            Err(why) => Outcome::ended(alloc, why.status()),
        }
    }
}

/// Does what the words say, which are none of `run`, and waits for nobody. The words are read first, then the source, whose
/// document is refused at its first fault; then the run is made, and then the text is written. All memory is taken before
/// the first write.
///
/// `walk` and `replay` print what each client receives in a run of the network, `hier` what it receives where server 1 is the
/// top of a hierarchy, `flood` what flooding owes and allows it,
/// `traffic` what each link carries in the walk beside plain flooding, `check` how much the document has, `format` its
/// canonical text, and `gen` the document of a seed, or the summary of its walk. `patterns` prints where the patterns behind a
/// document occur in what the clients receive in its walk. `explain` prints why a client gets a publication, or doesn't.
/// `audit` prints how much a run has whose output stands behind a
/// document, with its trace, where that is the output of a whole run. `help` and `version` print what the program says of
/// itself.
pub fn quiet<S: Source, K: Sink>(
    alloc: Global,
    words: &[Word],
    source: &mut S,
    sink: &mut K,
) -> Outcome
    requires { AreNoneOfRun (wanted_by words.now) }
    ensures outcome { IsOutcome (wanted_by words.now) (S.given source.old) (S.given source.new) (S.ended source.new)
        (K.state sink.old).taken (K.state sink.new).taken result.status result.journal.entries }
    ensures sure { result.status ≢ Status.ReadFault → result.status ≢ Status.NoMemory → S.faults source.new ≡ S.faults source.old }
    ensures sure_written { result.status ≢ Status.WriteFault → (K.state sink.new).faults ≡ (K.state sink.old).faults }
    ensures unread { reads (wanted_by words.now) ≡ false → source.new ≡ source.old }
    ensures at_most { reads (wanted_by words.now) ≡ true
        → Gave (S.given source.old) (S.given source.new) (λ given. length given ≤ most_read (wanted_by words.now)) }
    ensures told { (given : List ℕ) → S.given source.new ≡ S.given source.old ++ given → Consumes (S.left source.old) (S.left source.new) given }
    ensures end { reads (wanted_by words.now) ≡ true → S.ended source.new ≡ true → IsAtEnd (S.left source.new) }
    ensures read_out { reads (wanted_by words.now) ≡ true → (Rose (S.faults source.old) (S.faults source.new) → ⊥)
        → IsReadOut (most_read (wanted_by words.now)) (S.given source.old) (S.given source.new) (S.ended source.new)
        ⊎ (result.status ≡ Status.NoMemory) }
    ensures held { Grew (K.state sink.old) (K.state sink.new) }
    ensures unwritten { result.status ≢ Status.Done → result.status ≢ Status.WriteFault → sink.new ≡ sink.old }
    ensures read_fault { result.status ≡ Status.ReadFault → Rose (S.faults source.old) (S.faults source.new) }
    ensures write_fault { result.status ≡ Status.WriteFault → Rose (K.state sink.old).faults (K.state sink.new).faults }
    ensures complete { CanAnswer (wanted_by words.now) (S.given source.old) (S.given source.new) (S.ended source.new)
        → (Rose (K.state sink.old).faults (K.state sink.new).faults → ⊥)
        → (result.status ≡ Status.Done) ⊎ (result.status ≡ Status.NoMemory) }
{
    match read_words(words) {
        Some(wanted) => Outcome::of_answer(alloc, answer(alloc, wanted, source), sink),
        None => Outcome::ended(alloc, Status::Usage),
    }
}
