//! Writes the text of what the servers did.
ghost use Rattle.std.specs.Prelude.{◌≡◌, ◌++◌, length, IfOk, OnOk};
ghost use Rattle.std.specs.List.{flat_map};
ghost use Rattle.output_report.specs.Trace.{act_text, entry_line, sent_line, entry_text, trace_text, trace_head};

use base::{NoMemory, push_number};
use filter_text::Lists;
use net_model::{Act, Client, Entry, Net, Sent, client_name};
use std::alloc::Global;

#[tactic(auto, unfolding(crate::specs::Trace::act_text))]
fn push_act(out: &mut Vec<u8>, clients: &[Client], act: Act) -> Result<(), NoMemory>
    ensures { OnOk result (out.new.items ≡ out.old.items ++ act_text clients.now act) }
{
    match act {
        Act::Command(client) => {
            out.extend_from_slice(b"command ")?;
            out.extend_from_slice(client_name(clients, client))?;
            Ok(())
        }
        Act::Receive(from) => {
            out.extend_from_slice(b"take ")?;
            push_number(out, u64::from(from))
        }
        Act::TableUpdate => {
            out.extend_from_slice(b"version")?;
            Ok(())
        }
    }
}

#[tactic(auto, unfolding(crate::specs::Trace::entry_line))]
fn push_line(out: &mut Vec<u8>, clients: &[Client], entry: &Entry) -> Result<(), NoMemory>
    ensures { OnOk result (out.new.items ≡ out.old.items ++ entry_line clients.now entry.now) }
{
    out.extend_from_slice(b"entry ")?;
    push_number(out, entry.stamp)?;
    out.extend_from_slice(b" ")?;
    push_number(out, u64::from(entry.server))?;
    out.extend_from_slice(b" ")?;
    push_act(out, clients, entry.act)?;
    out.extend_from_slice(b"\n")?;
    Ok(())
}

#[tactic(auto, unfolding(crate::specs::Trace::sent_line))]
fn push_message(out: &mut Vec<u8>, sent: &Sent) -> Result<(), NoMemory>
    ensures { OnOk result (out.new.items ≡ out.old.items ++ sent_line sent.now) }
{
    out.extend_from_slice(b"out ")?;
    push_number(out, u64::from(sent.to))?;
    out.extend_from_slice(b" ")?;
    sent.bytes.push(out)?;
    out.extend_from_slice(b"\n")?;
    Ok(())
}

fn push_messages(out: &mut Vec<u8>, messages: &[Sent]) -> Result<(), NoMemory>
    ensures { OnOk result (out.new.items ≡ out.old.items ++ flat_map sent_line messages.now) }
{
    for sent in messages {
        push_message(out, sent)?;
    }
    Ok(())
}

/// An entry of a journal, with the messages of its step.
#[tactic(auto, unfolding(crate::specs::Trace::entry_text))]
pub fn push_trace_entry(
    out: &mut Vec<u8>,
    clients: &[Client],
    entry: &Entry,
    messages: &[Sent],
) -> Result<(), NoMemory>
    ensures { OnOk result (out.new.items ≡ out.old.items ++ entry_text clients.now entry.now messages.now) }
{
    push_line(out, clients, entry)?;
    push_messages(out, messages)
}

/// The line before the entries, of which there are so many.
#[tactic(auto, unfolding(crate::specs::Trace::trace_head))]
pub fn push_trace_head(out: &mut Vec<u8>, entries: usize) -> Result<(), NoMemory>
    ensures { OnOk result (out.new.items ≡ out.old.items ++ trace_head entries) }
{
    out.extend_from_slice(b"trace ")?;
    push_number(out, entries as u64)?;
    out.extend_from_slice(b"\n")?;
    Ok(())
}

/// What the servers did: how many entries there are, and a line for each in the order of the journal, followed by a
/// line for each message of that step.
pub fn trace_text(
    alloc: Global,
    net: &Net,
    journal: &[Entry],
    outs: &[Lists<Sent>],
) -> Result<Vec<u8>, NoMemory>
    requires { length outs.now ≡ length journal.now }
    ensures { IfOk result (λ text. text.items ≡ trace_text net.now journal.now outs.now) }
{
    let mut out = Vec::new(alloc);
    push_trace_head(&mut out, journal.len())?;
    for (i, entry) in journal.iter().enumerate() {
        push_trace_entry(&mut out, &net.clients, entry, outs[i].as_slice())?;
    }
    Ok(out)
}
