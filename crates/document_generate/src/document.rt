//! Writes a whole document from a seed: its servers, clients and scripts.
ghost use Rattle.std.specs.Prelude.{◌≡◌, ◌++◌, ◌*◌, ◌<◌, ℕ, OnOk, IfOk};
ghost use Rattle.document_generate.specs.Draws.{after};
ghost use Rattle.document_generate.specs.Lines.{texts_drawn, edge_line, client_line, subscribe_line, publish_line};
ghost use Rattle.document_generate.specs.Document.{publications, script_draws, script_text, generated};

use crate::draws::Draws;
use crate::lines::{push_client, push_edge, push_publish, push_subscribe};
use base::{NoMemory, push_number};
use std::alloc::Global;

// The tree.
fn push_edges(out: &mut Vec<u8>, draws: &mut Draws) -> Result<(), NoMemory>
    ensures text { OnOk result (out.new.items ≡ out.old.items ++ texts_drawn edge_line (λ n. 1) 15 0 draws.old.state) }
    ensures state { OnOk result (draws.new.state ≡ after 15 draws.old.state) }
{
    for i in 0..15 {
        push_edge(out, draws, i)?;
    }
    Ok(())
}

// The clients.
fn push_clients(out: &mut Vec<u8>) -> Result<(), NoMemory>
    ensures { (seed : ℕ) → OnOk result (out.new.items ≡ out.old.items ++ texts_drawn client_line (λ n. 0) 64 0 seed) }
{
    for i in 0..64 {
        push_client(out, i)?;
    }
    Ok(())
}

// Four subscriptions.
fn push_subscribes(out: &mut Vec<u8>, draws: &mut Draws) -> Result<(), NoMemory>
    ensures text { OnOk result (out.new.items ≡ out.old.items ++ texts_drawn (λ n. subscribe_line) (λ n. 5) 4 0 draws.old.state) }
    ensures state { OnOk result (draws.new.state ≡ after 20 draws.old.state) }
{
    for _ in 0..4u32 {
        push_subscribe(out, draws)?;
    }
    Ok(())
}

// So many publications.
fn push_publishes(out: &mut Vec<u8>, draws: &mut Draws, count: u64) -> Result<(), NoMemory>
    ensures text { OnOk result (out.new.items ≡ out.old.items ++ texts_drawn (λ n. publish_line) (λ n. 6) count 0 draws.old.state) }
    ensures state { OnOk result (draws.new.state ≡ after (6 * count) draws.old.state) }
{
    for _ in 0..count {
        push_publish(out, draws)?;
    }
    Ok(())
}

// The script of a client.
#[tactic(auto, unfolding(crate::specs::Document::script_text, crate::specs::Document::script_draws, crate::specs::Document::publications))]
fn push_script(out: &mut Vec<u8>, draws: &mut Draws, place: u64) -> Result<(), NoMemory>
    requires { place < 64 }
    ensures text { OnOk result (out.new.items ≡ out.old.items ++ script_text place draws.old.state) }
    ensures state { OnOk result (draws.new.state ≡ after (script_draws place) draws.old.state) }
{
    let count = if place < 16 { 32 } else { 31 };
    out.extend_from_slice(b"script c")?;
    push_number(out, place + 1)?;
    out.push(b'\n')?;
    push_subscribes(out, draws)?;
    out.extend_from_slice(b"barrier\n")?;
    push_publishes(out, draws, count)
}

// The scripts.
fn push_scripts(out: &mut Vec<u8>, draws: &mut Draws) -> Result<(), NoMemory>
    ensures { OnOk result (out.new.items ≡ out.old.items ++ texts_drawn script_text script_draws 64 0 draws.old.state) }
{
    for i in 0..64 {
        push_script(out, draws, i)?;
    }
    Ok(())
}

/// The document that a seed makes, in the lenient form that the program reads: 16 servers under subscription semantics,
/// 64 clients with four filters each, and 2,000 publications in the phase after these, 2,466 lines in all.
///
/// Every filter is held before the publications' phase begins and none is withdrawn, so what is owed is what is allowed.
#[tactic(auto, unfolding(crate::specs::Document::generated))]
pub fn generate(alloc: Global, seed: u64) -> Result<Vec<u8>, NoMemory>
    ensures { IfOk result (λ text. text.items ≡ generated seed) }
{
    let mut draws = Draws { state: seed };
    let mut out = Vec::from_slice(alloc, b"siena 1\nsemantics subscription\nservers 16\n")?;
    push_edges(&mut out, &mut draws)?;
    push_clients(&mut out)?;
    push_scripts(&mut out, &mut draws)?;
    Ok(out)
}
