//! Compares the trace of a run with what is claimed.
ghost use Rattle.std.specs.Prelude.{◌≡◌, true, IfOk, OnOk, length};
ghost use Rattle.net_model.specs.Sound.{IsSound};
ghost use Rattle.output_report.specs.Trace.{entry_text, trace_head, trace_text};
ghost use Rattle.audit_verdict.specs.Comparing.{ComparesLast, ComparesTurn, GoesOn};
ghost use Rattle.audit_verdict.specs.Answers.{TellsDrained, TellsMade};
ghost use Rattle.audit_verdict.specs.Laws.{MakesRuns};

use crate::comparing::Comparing;
use crate::fault::{AuditFault, AuditKind};
use crate::kind::NetworkKind;
use base::NoMemory;
use net_model::{Client, Entry, Sent, Turn};
use net_tables::Tables;
use net_turns::turn_of;
use output_report::{push_trace_entry, push_trace_head};
use sequential_network::{Kept, Networked, Passed, RuledNetwork};
use std::alloc::Global;

// The line of an entry with those of its messages, put together in a buffer.
fn compare_entry(
    text: &mut Comparing<'_>,
    lines: &mut Vec<u8>,
    clients: &[Client],
    entry: &Entry,
    messages: &[Sent],
) -> Result<(), NoMemory>
    ensures { OnOk result (GoesOn text.old text.new (entry_text clients.now entry.now messages.now)) }
{
    lines.clear();
    push_trace_entry(lines, clients, entry, messages)?;
    text.compare(lines);
    Ok(())
}

// The line before the entries.
fn compare_head(alloc: Global, text: &mut Comparing<'_>, entries: usize) -> Result<(), NoMemory>
    ensures { OnOk result (GoesOn text.old text.new (trace_head entries)) }
{
    let mut line = Vec::new(alloc);
    push_trace_head(&mut line, entries)?;
    text.compare(&line);
    Ok(())
}

// The clients of the net of a run.
fn clients_of<'t>(tables: &'t Tables<'_>) -> &'t [Client]
    ensures { result.now ≡ tables.now.clients }
{
    &tables.net().clients
}

/// Whether the run of a network is drained; where it is the network is as before.
pub fn is_drained<'a, P: Networked<'a>, K: NetworkKind>(
    network: &mut RuledNetwork<'a, P, Kept>,
) -> Result<bool, NoMemory>
    requires laws { MakesRuns K.kind P.trying P.walking P.telling P.ruling }
    ensures drained { IfOk result (λ drained. TellsDrained K.kind drained network.old.net network.old.journal) }
    ensures same { IfOk result (λ drained. drained ≡ true → network.new ≡ network.old) }
{
    match network.walk_phase() {
        Ok(more) => {
            network.journal();
            Ok(!more)
        }
        Err(NoMemory) => Err(NoMemory),
    }
}

/// Compares the trace of a legal run, whose turns it makes again for the messages.
pub fn compare_trace<'a, P: Networked<'a>>(
    alloc: Global,
    text: &mut Comparing<'_>,
    tables: &'a Tables<'a>,
    journal: &[Entry],
) -> Result<(), NoMemory>
    requires sound { IsSound tables.now }
    requires legal { P.trying.IsLegal tables.now journal.now }
    ensures { OnOk result (GoesOn text.old text.new (trace_text tables.now journal.now (P.telling.told_by tables.now journal.now))) }
{
    compare_head(alloc, text, journal.len())?;
    let mut lines = Vec::new(alloc);
    let mut network: RuledNetwork<'a, P, Passed> = RuledNetwork::start(alloc, tables)?;
    let clients = clients_of(tables);
    for entry in journal {
        network.turn(turn_of(entry))?;
        let told = network.last_told()?;
        compare_entry(text, &mut lines, clients, entry, told.as_slice())?;
    }
    Ok(())
}

// The last entry of a run with its messages.
fn compare_last<'a, P: Networked<'a>>(
    text: &mut Comparing<'_>,
    lines: &mut Vec<u8>,
    clients: &[Client],
    network: &RuledNetwork<'a, P, Kept>,
) -> Result<(), NoMemory>
    requires { clients.now ≡ network.now.net.clients }
    ensures { OnOk result (ComparesLast P.telling.told_at network.now text.old text.new) }
{
    let told = network.last_told()?;
    match network.journal().last() {
        Some(entry) => compare_entry(text, lines, clients, entry, told.as_slice()),
        None => Ok(()),
    }
}

// Makes a turn where it is permitted, and compares its entry with its messages.
fn make_turn<'a, P: Networked<'a>>(
    text: &mut Comparing<'_>,
    lines: &mut Vec<u8>,
    clients: &[Client],
    network: &mut RuledNetwork<'a, P, Kept>,
    turn: Turn,
) -> Result<bool, NoMemory>
    requires { clients.now ≡ network.old.net.clients }
    ensures turn { IfOk result (λ made. P.trying.IsTurn made turn network.old network.new) }
    ensures compared { IfOk result (λ made. ComparesTurn P.telling.told_at made network.new text.old text.new) }
{
    if !network.turn(turn)? {
        return Ok(false);
    }
    compare_last(text, lines, clients, network)?;
    Ok(true)
}

/// The network after turns, each with its line, whose run is compared as it is made: the trace of the run, or the first turn that is not
/// permitted.
pub fn make_compared<'a, P: Networked<'a>, K: NetworkKind>(
    alloc: Global,
    text: &mut Comparing<'_>,
    tables: &'a Tables<'a>,
    turns: &[(u32, Turn)],
) -> Result<RuledNetwork<'a, P, Kept>, AuditFault>
    requires laws { MakesRuns K.kind P.trying P.walking P.telling P.ruling }
    requires sound { IsSound tables.now }
    ensures made { TellsMade K.kind (λ network. network) tables.now turns.now result }
    ensures compared { IfOk result (λ network. GoesOn text.old text.new
        (trace_text tables.now network.journal (P.telling.told_by tables.now network.journal))) }
{
    compare_head(alloc, text, turns.len())?;
    let mut lines = Vec::new(alloc);
    let mut network = RuledNetwork::start(alloc, tables)?;
    let clients = clients_of(tables);
    for (line, turn) in turns {
        if !make_turn(text, &mut lines, clients, &mut network, *turn)? {
            return Err(AuditFault::Refuted {
                line: *line,
                kind: AuditKind::BadTurn,
            });
        }
    }
    Ok(network)
}
