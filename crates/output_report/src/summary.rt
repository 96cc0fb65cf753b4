//! Writes the texts of one line: of `check` and of a summary.
ghost use Rattle.std.specs.Prelude.{◌≡◌, ◌++◌, ◌≤◌, ◌<◌, ◌^◌, IfOk, OnOk};
ghost use Rattle.net_model.specs.Nets.{first_tree};
ghost use Rattle.net_model.specs.Sound.{IsSound};
ghost use Rattle.output_report.specs.Summary.{counts_text, check_text, summary_text};

use crate::commands::count_commands;
use crate::counting::push_labelled_total;
use base::{NoMemory, push_labelled};
use net_model::Net;
use std::alloc::Global;

/// How much a run did: the accepted publications, the deliveries over all clients, the entries of the journal, and the
/// messages that were put on links.
pub fn summary_text(
    alloc: Global,
    publications: u128,
    deliveries: u128,
    entries: u64,
    messages: u128,
) -> Result<Vec<u8>, NoMemory>
    ensures { IfOk result (λ text. text.items ≡ summary_text publications deliveries entries messages) }
{
    let mut out = Vec::new(alloc);
    push_labelled_total(&mut out, b"publications ", publications)?;
    push_labelled_total(&mut out, b" deliveries ", deliveries)?;
    push_labelled(&mut out, b" entries ", entries)?;
    push_labelled_total(&mut out, b" messages ", messages)?;
    out.extend_from_slice(b"\n")?;
    Ok(out)
}

// How many servers a net has: those of its first tree.
fn servers(net: &Net) -> u32
    requires { IsSound net.now }
    ensures { result ≡ (first_tree net.now.trees).count }
{
    net.trees[0].1.servers()
}

// The line of what a net has.
#[tactic(auto, unfolding(crate::specs::Summary::counts_text))]
fn push_counts(
    out: &mut Vec<u8>,
    version: u64,
    servers: u64,
    clients: u64,
    phases: u64,
    commands: u64,
    publications: u64,
) -> Result<(), NoMemory>
    ensures { OnOk result (out.new.items ≡ out.old.items ++ counts_text version servers clients phases commands publications) }
{
    push_labelled(out, b"ok version ", version)?;
    push_labelled(out, b" servers ", servers)?;
    push_labelled(out, b" clients ", clients)?;
    push_labelled(out, b" phases ", phases)?;
    push_labelled(out, b" commands ", commands)?;
    push_labelled(out, b" publications ", publications)?;
    out.extend_from_slice(b"\n")?;
    Ok(())
}

/// What a net has: its version, how many servers, clients and phases, how many commands that are no publishes, and how many
/// publishes.
pub fn check_text(alloc: Global, net: &Net) -> Result<Vec<u8>, NoMemory>
    requires { IsSound net.now }
    ensures { IfOk result (λ text. text.items ≡ check_text net.now) }
{
    let mut out = Vec::new(alloc);
    let commands = count_commands(&net.clients);
    push_counts(
        &mut out,
        u64::from(net.version),
        u64::from(servers(net)),
        net.clients.len() as u64,
        u64::from(net.phases()),
        commands.controls,
        commands.publishes,
    )?;
    Ok(out)
}
