//! Makes what is printed for a document, and writes it.
ghost use Rattle.std.specs.Prelude.{◌≡◌, ◌⊎◌, ◌++◌, ℕ, List, true, [], IfOk, IsOk, IsErrOf};
ghost use Rattle.base_devices.specs.Cause.{Rose};
ghost use Rattle.base_devices.specs.Sinks.{Grew};
ghost use Rattle.base_devices.specs.Whole.{TookPart};
ghost use Rattle.net_model.specs.Sound.{IsSound};
ghost use Rattle.document_reader.specs.Net.{IsNetOf};
ghost use Rattle.document_reader.specs.declared.fault.Fault.TheVariants.{BadTurn};
ghost use Rattle.program_sequential.specs.Headline.{Headline};
ghost use Rattle.program_sequential.specs.Promise.{AreOfNotices};
ghost use Rattle.program_sequential.specs.Runs.{turns_first};
ghost use Rattle.program_sequential.specs.Words.{is_quiet, IsQuietQuery};
ghost use Rattle.program_sequential.specs.Ran.{IsRan, IsShown, turns_for};
ghost use Rattle.program_sequential.specs.Faults.{ArePermitted, StopsAtLine, IsAtFault, MustBeRefused, CanBeDone};
ghost use Rattle.program_sequential.specs.Answers.{IsPrintedOf};

use crate::body::Body;
use crate::hierarchy::hierarchy;
use crate::law::lemma_promise;
use crate::ran::make_run;
use crate::reading::net;
use crate::text::printed_run;
use crate::traffic::traffic;
use crate::words::{Query, Schedule, Shown};
use base::NoMemory;
use base_devices::{Failed, Pending, Sink};
use document_format::law::lemma_text_read;
use document_reader::{Fault, InputFault};
use net_journal::{Ran, Record};
use net_model::Net;
use output_flood::must_may;
use output_report::{Flooded, check_text};
use sequential_network::{Kept, Passed};
use std::alloc::Global;
use std::marker::Model;

/// What is to be written, with the journal of its run: empty where there is none. It holds all memory that writing wants.
///
/// Contracts see the text and the journal.
#[derive(Drop)]
pub struct Printed {
    body: Body,
    rest: Vec<u8>,
    journal: Record,
    pending: Pending,
}

impl Model for Printed {
    ghost use Rattle.std.specs.Prelude.{◌≡◌, false};
    ghost use Rattle.base_devices.specs.Pending.{drained};
    ghost use Rattle.program_sequential.specs.Showing.{PrintedParts, printed_parts};

    ghost Value = { PrintedParts };

    ghost view = { λ p. printed_parts p.body p.rest.items p.journal.entries };

    ghost invariant = { λ p. p.pending ≡ drained false };
}

impl Printed {
    ghost use Rattle.std.specs.Prelude.{◌≡◌, ◌++◌, [], IfOk, OnOk, OnErr};
    ghost use Rattle.program_sequential.specs.Showing.{printed_parts};

    /// What clients received or flooding brings, where that is printed, and then a text.
    pub fn make(
        alloc: Global,
        body: Body,
        rest: Vec<u8>,
        journal: Record,
    ) -> Result<Printed, NoMemory>
        ensures { IfOk result (λ p. p ≡ printed_parts body rest.items journal.entries) }
    {
        Ok(Printed {
            body,
            rest,
            journal,
            pending: Pending::new(alloc)?,
        })
    }

    /// A text without a run.
    pub fn alone(alloc: Global, text: Vec<u8>) -> Result<Printed, NoMemory>
        ensures { IfOk result (λ p. p ≡ printed_parts Body.Nothing text.items []) }
    {
        Printed::make(alloc, Body::Nothing, text, Record::empty(alloc))
    }

    /// Writes the text, and hands on the journal. It takes no memory.
    pub fn write<K: Sink>(self, sink: &mut K) -> Result<Record, Failed>
        ensures journal { IfOk result (λ journal. journal.entries ≡ self.journal) }
        ensures ok { OnOk result ((K.state sink.new).taken ≡ (K.state sink.old).taken ++ self.text) }
        ensures sure { OnOk result ((K.state sink.new).faults ≡ (K.state sink.old).faults) }
        ensures err { OnErr result (TookPart (K.state sink.old).taken (K.state sink.new).taken self.text) }
        ensures rose { OnErr result (Rose (K.state sink.old).faults (K.state sink.new).faults) }
        ensures held { Grew (K.state sink.old) (K.state sink.new) }
    {
        let Printed {
            body,
            rest,
            journal,
            mut pending,
        } = self;
        body.put(&mut pending, sink);
        pending.put(sink, &rest);
        match pending.finish(sink) {
            Ok(()) => Ok(journal),
            Err(failed) => Err(failed),
        }
    }
}

// The run of a net, whose entries are kept where they are to be shown.
fn made(alloc: Global, net: &Net, schedule: Schedule, kept: bool) -> Result<Ran, InputFault>
    requires sound { IsSound net.now }
    requires quiet { is_quiet schedule ≡ true }
    ensures ran { IfOk result (λ ran. IsRan schedule net.now ran) }
    ensures kept { kept ≡ true → IfOk result (λ ran. ran.journal.kept ≡ true) }
    ensures bad { (line : ℕ) (kind : Fault) → IsErrOf result (InputFault.Bad line kind)
        → (kind ≡ BadTurn) × StopsAtLine net.now [] (turns_first schedule net.now) line }
{
    if kept {
        make_run::<Kept>(alloc, net, schedule)
    } else {
        make_run::<Passed>(alloc, net, schedule)
    }
}

// The run of a net.
fn shown(alloc: Global, net: Net, schedule: Schedule, shown: Shown) -> Result<Printed, InputFault>
    requires sound { IsSound net }
    requires quiet { is_quiet schedule ≡ true }
    ensures shown { IfOk result (λ p. IsShown schedule shown net p.text p.journal) }
    ensures permitted { IfOk result (λ p. ArePermitted net (turns_first schedule net)) }
    ensures bad { (line : ℕ) (kind : Fault) → IsErrOf result (InputFault.Bad line kind)
        → (kind ≡ BadTurn) × StopsAtLine net [] (turns_first schedule net) line }
{
    let ran = made(alloc, &net, schedule, shown.trace)?;
    Ok(printed_run(alloc, net, ran, shown)?)
}

// What each client of a document's net receives in a run.
fn run(alloc: Global, net: Net, schedule: Schedule, options: Shown) -> Result<Printed, InputFault>
    requires quiet { is_quiet schedule ≡ true }
    requires sound { IsSound net }
    requires notices { AreOfNotices net.clients }
    ensures printed { IfOk result (λ p. (input : List ℕ) → IsNetOf input net → Headline schedule options input p.text p.journal) }
    ensures permitted { IfOk result (λ p. ArePermitted net (turns_first schedule net)) }
    ensures bad { (line : ℕ) (kind : Fault) → IsErrOf result (InputFault.Bad line kind)
        → (kind ≡ BadTurn) × StopsAtLine net [] (turns_first schedule net) line }
{
    lemma_promise();
    shown(alloc, net, schedule, options)
}

// What flooding brings by a document's net.
fn flood(alloc: Global, net: Net) -> Result<Printed, NoMemory>
    requires { IsSound net }
    ensures { IfOk result (λ p. (input : List ℕ) → IsNetOf input net → IsPrintedOf Query.Flood input p.text p.journal) }
{
    let owed = must_may(alloc, &net)?;
    let flooded = Flooded::make(alloc, net, owed)?;
    Printed::make(
        alloc,
        Body::Flooded(flooded),
        Vec::new(alloc),
        Record::empty(alloc),
    )
}

// How much a document's net has.
fn check(alloc: Global, net: &Net) -> Result<Printed, NoMemory>
    requires { IsSound net.now }
    ensures { IfOk result (λ p. (input : List ℕ) → IsNetOf input net.now → IsPrintedOf Query.Check input p.text p.journal) }
{
    let text = check_text(alloc, net)?;
    Printed::alone(alloc, text)
}

// The canonical text of a document's net.
fn format(alloc: Global, net: Net) -> Result<Printed, NoMemory>
    requires { IsSound net }
    ensures { IfOk result (λ p. (input : List ℕ) → IsNetOf input net → IsPrintedOf Query.Format input p.text p.journal) }
{
    lemma_text_read();
    Printed::make(
        alloc,
        Body::Formatted(net),
        Vec::new(alloc),
        Record::empty(alloc),
    )
}

// What is wanted of a document's net; only the turns of a schedule can be at fault.
fn of_net(alloc: Global, query: Query, net: Net) -> Result<Printed, InputFault>
    requires quiet { IsQuietQuery query }
    requires sound { IsSound net }
    requires notices { AreOfNotices net.clients }
    ensures printed { IfOk result (λ p. (input : List ℕ) → IsNetOf input net → IsPrintedOf query input p.text p.journal) }
    ensures permitted { IfOk result (λ p. ArePermitted net (turns_for query net)) }
    ensures bad { (line : ℕ) (kind : Fault) → IsErrOf result (InputFault.Bad line kind)
        → (kind ≡ BadTurn) × StopsAtLine net [] (turns_for query net) line }
{
    match query {
        Query::Run(schedule, shown) => run(alloc, net, schedule, shown),
        Query::Hierarchy(shown) => Ok(hierarchy(alloc, net, shown)?),
        Query::Flood => Ok(flood(alloc, net)?),
        Query::Check => Ok(check(alloc, &net)?),
        Query::Format => Ok(format(alloc, net)?),
        Query::Traffic { graph } => Ok(traffic(alloc, net, graph)?),
    }
}

/// What is wanted of a document, or its fault.
pub fn of_document(alloc: Global, query: Query, bytes: &[u8]) -> Result<Printed, InputFault>
    requires { IsQuietQuery query }
    ensures printed { IfOk result (λ p. IsPrintedOf query bytes.now p.text p.journal) }
    ensures bad { (line : ℕ) (kind : Fault) → IsErrOf result (InputFault.Bad line kind) → IsAtFault query bytes.now line kind }
    ensures refused { (line : ℕ) (kind : Fault) → MustBeRefused query bytes.now line kind
        → IsErrOf result (InputFault.Bad line kind) ⊎ IsErrOf result InputFault.NoMemory }
    ensures done { CanBeDone query bytes.now → IsOk result ⊎ IsErrOf result InputFault.NoMemory }
{
    let net = net(alloc, bytes)?;
    of_net(alloc, query, net)
}
