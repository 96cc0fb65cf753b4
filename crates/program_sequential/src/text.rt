//! Makes the texts of runs: traces and deliveries.
ghost use Rattle.std.specs.Prelude.{◌≡◌, ◌++◌, true, length, IfOk};
ghost use Rattle.net_model.specs.Sound.{IsSound};
ghost use Rattle.output_report.specs.Deliveries.{deliveries_text};
ghost use Rattle.output_report.specs.Trace.{trace_text};
ghost use Rattle.program_sequential.specs.Printed.{run_text, where_wanted};
ghost use Rattle.program_sequential.specs.Ran.{IsCollected};

use crate::body::Body;
use crate::given::Given;
use crate::printed::Printed;
use crate::telling::{Peers, Telling};
use crate::words::Shown;
use base::NoMemory;
use net_journal::{Ran, Record};
use net_model::{Entry, Net};
use net_tables::Tables;
use output_report::trace_text;
use std::alloc::Global;

// The trace of a journal with its messages, by the tables of its run.
fn trace_over<T: Telling>(
    alloc: Global,
    tables: &Tables<'_>,
    journal: &[Entry],
) -> Result<Vec<u8>, NoMemory>
    requires sound { IsSound tables.now }
    requires legal { T.legal tables.now journal.now }
    ensures { IfOk result (λ text. text.items ≡ trace_text tables.now journal.now (T.told_by tables.now journal.now)) }
{
    let told = T::retell(alloc, tables, journal)?;
    trace_text(alloc, tables.net(), journal, &told)
}

// The trace of a journal with its messages.
fn trace<T: Telling>(alloc: Global, net: &Net, journal: &[Entry]) -> Result<Vec<u8>, NoMemory>
    requires sound { IsSound net.now }
    requires legal { T.legal net.now journal.now }
    ensures { IfOk result (λ text. text.items ≡ trace_text net.now journal.now (T.told_by net.now journal.now)) }
{
    let tables = Tables::of(alloc, net)?;
    trace_over::<T>(alloc, &tables, journal)
}

/// The trace of a journal with its messages, where it is wanted.
pub fn trace_where<T: Telling>(
    alloc: Global,
    wanted: bool,
    net: &Net,
    journal: &Record,
) -> Result<Vec<u8>, NoMemory>
    requires sound { IsSound net.now }
    requires kept { wanted ≡ true → journal.now.kept ≡ true }
    requires legal { T.legal net.now journal.now.entries }
    ensures { IfOk result (λ text. text.items ≡
        where_wanted wanted (trace_text net.now journal.now.entries (T.told_by net.now journal.now.entries))) }
{
    if wanted {
        trace::<T>(alloc, net, journal.entries())
    } else {
        Ok(Vec::new(alloc))
    }
}

/// What is printed of what clients received, and a trace behind it.
pub fn printed_lists(
    alloc: Global,
    net: Net,
    ran: Ran,
    sorted: bool,
    trace: Vec<u8>,
) -> Result<Printed, NoMemory>
    requires refused { length ran.refused.items ≡ length net.clients }
    requires received { length ran.received.items ≡ length net.clients }
    ensures text { IfOk result (λ p. p.text ≡ deliveries_text net ran.refused.items ran.received.items sorted ++ trace.items) }
    ensures journal { IfOk result (λ p. p.journal ≡ ran.journal.entries) }
{
    let Ran {
        journal,
        refused,
        received,
    } = ran;
    let given = Given::make(alloc, net, refused, received, sorted)?;
    Printed::make(alloc, Body::Received(given), trace, journal)
}

/// What is printed of a run, whose entries are kept where its trace is shown.
pub fn printed_run(alloc: Global, net: Net, ran: Ran, shown: Shown) -> Result<Printed, NoMemory>
    requires sound { IsSound net }
    requires collected { IsCollected net ran }
    requires kept { shown.trace ≡ true → ran.journal.kept ≡ true }
    ensures text { IfOk result (λ p. p.text ≡ run_text shown net ran.journal.entries) }
    ensures journal { IfOk result (λ p. p.journal ≡ ran.journal.entries) }
{
    let trace = trace_where::<Peers>(alloc, shown.trace, &net, &ran.journal)?;
    printed_lists(alloc, net, ran, shown.sorted, trace)
}
