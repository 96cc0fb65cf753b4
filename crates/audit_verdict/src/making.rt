//! Makes the turns of a claimed run and compares its text with the output.
ghost use Rattle.std.specs.Prelude.{◌≡◌, ◌≤◌, ◌++◌, false, drop, length, IfOk, OnOk};
ghost use Rattle.net_model.specs.Nets.{of_clients};
ghost use Rattle.net_model.specs.Sound.{IsSound};
ghost use Rattle.sequential_network.specs.Ruling.{refused_by};
ghost use Rattle.output_report.specs.Counts.{total};
ghost use Rattle.output_report.specs.Deliveries.{deliveries_text};
ghost use Rattle.output_report.specs.Trace.{trace_text};
ghost use Rattle.audit_verdict.specs.Answers.{Concludes, TellsMade, TellsRun};
ghost use Rattle.audit_verdict.specs.Comparing.{GoesOn, IsComparedTo};
ghost use Rattle.audit_verdict.specs.Laws.{MakesRuns};
ghost use Rattle.audit_verdict.specs.Verdict.{traced_text};

use crate::compared::compare_deliveries;
use crate::comparing::Comparing;
use crate::fault::{AuditFault, AuditKind};
use crate::kind::NetworkKind;
use crate::place::{line_at, trace_at};
use crate::traced::{compare_trace, is_drained, make_compared};
use base::NoMemory;
use net_model::{Entry, Turn};
use net_tables::Tables;
use output_report::total_received;
use sequential_network::{Kept, Networked, RuledNetwork};
use std::alloc::Global;

// The journal of a network, and how many deliveries there were.
fn left<'a, P: Networked<'a>>(
    network: RuledNetwork<'a, P, Kept>,
) -> Result<(Vec<Entry>, u128), NoMemory>
    ensures journal { IfOk result (λ p. p.0.items ≡ network.entry.journal) }
    ensures deliveries { IfOk result (λ p. p.1 ≡ total (of_clients network.entry.net (P.ruling.received_by network.entry.net network.entry.journal))) }
{
    let (journal, received) = network.into_parts()?;
    Ok((journal.into_entries(), total_received(&received)))
}

// Compares the text of the run of a network with an output, whose trace was compared with what stands behind a place of it. Where the deliveries do not end
// at that place the turns are made again.
fn compare<'a, P: Networked<'a>>(
    alloc: Global,
    tables: &'a Tables<'a>,
    network: &RuledNetwork<'a, P, Kept>,
    text: &mut Comparing<'_>,
    traced: &Comparing<'_>,
    at: usize,
) -> Result<(), NoMemory>
    requires sound { IsSound tables.now }
    requires same { network.now.net ≡ tables.now }
    requires part { traced.now.claimed ≡ drop at text.old.claimed }
    requires within { at ≤ length text.old.claimed }
    requires compared { IsComparedTo traced.now (trace_text tables.now network.now.journal (P.telling.told_by tables.now network.now.journal)) }
    ensures { OnOk result (GoesOn text.old text.new
        (deliveries_text tables.now (of_clients tables.now (refused_by P.ruling tables.now network.now.journal))
        (of_clients tables.now (P.ruling.received_by tables.now network.now.journal)) false
        ++ trace_text tables.now network.now.journal (P.telling.told_by tables.now network.now.journal))) }
{
    compare_deliveries(alloc, text, tables.net(), network)?;
    if text.follow(traced, at) {
        return Ok(());
    }
    compare_trace::<P>(alloc, text, tables, network.journal())
}

// The network after turns, whose text was compared with an output.
fn made<'a, 'b, P: Networked<'a>, K: NetworkKind>(
    alloc: Global,
    tables: &'a Tables<'a>,
    turns: &[(u32, Turn)],
    output: &'b [u8],
) -> Result<(RuledNetwork<'a, P, Kept>, Comparing<'b>), AuditFault>
    requires laws { MakesRuns K.kind P.trying P.walking P.telling P.ruling }
    requires sound { IsSound tables.now }
    ensures made { TellsMade K.kind (λ p. p.0) tables.now turns.now result }
    ensures claimed { IfOk result (λ p. p.1.claimed ≡ output.now) }
    ensures compared { IfOk result (λ p. IsComparedTo p.1 (traced_text K.kind tables.now p.0.journal)) }
{
    let at = trace_at(output);
    let (_, trace) = output.split_at(at);
    let mut traced = Comparing::new(trace);
    let network = match make_compared::<P, K>(alloc, &mut traced, tables, turns) {
        Ok(network) => network,
        Err(fault) => return Err(fault),
    };
    let mut text = Comparing::new(output);
    compare(alloc, tables, &network, &mut text, &traced, at)?;
    Ok((network, text))
}

// Whether the text that was compared, of a run that is drained or not, is what is claimed.
fn concluded(
    text: &Comparing<'_>,
    first: u32,
    end: u32,
    output: &[u8],
    drained: bool,
) -> Result<(), AuditFault>
    requires first { first ≤ 268435458 }
    requires short { length output.now ≤ 268435456 }
    requires claimed { text.now.claimed ≡ output.now }
    ensures { Concludes text.now first end output.now drained result }
{
    if let Some(place) = text.place() {
        return Err(AuditFault::Refuted {
            line: line_at(first, end, output, place),
            kind: AuditKind::Differs,
        });
    }
    if drained {
        Ok(())
    } else {
        Err(AuditFault::Refuted {
            line: end,
            kind: AuditKind::Open,
        })
    }
}

/// Makes the turns of a claimed run in a network with servers of a kind, and compares the text of that run with the output: the journal of the run and how
/// many deliveries there were, where the output is its text and it is drained.
pub fn make_run<'a, P: Networked<'a>, K: NetworkKind>(
    alloc: Global,
    tables: &'a Tables<'a>,
    turns: &[(u32, Turn)],
    first: u32,
    end: u32,
    output: &[u8],
) -> Result<(Vec<Entry>, u128), AuditFault>
    requires laws { MakesRuns K.kind P.trying P.walking P.telling P.ruling }
    requires sound { IsSound tables.now }
    requires first { first ≤ 268435458 }
    requires short { length output.now ≤ 268435456 }
    ensures { TellsRun K.kind (λ p. p.0.items) (λ p. p.1) tables.now first end output.now turns.now result }
{
    let (mut network, text) = match made::<P, K>(alloc, tables, turns, output) {
        Ok(made) => made,
        Err(fault) => return Err(fault),
    };
    network.journal();
    let drained = is_drained::<P, K>(&mut network)?;
    match concluded(&text, first, end, output, drained) {
        Ok(()) => Ok(left(network)?),
        Err(fault) => Err(fault),
    }
}
