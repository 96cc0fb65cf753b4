//! Writes the text of what comes to a client.
ghost use Rattle.std.specs.Prelude.{◌≡◌, ◌++◌, IfOk, OnOk};
ghost use Rattle.std.specs.List.{flat_map};
ghost use Rattle.output_explain.specs.Prospects.{chance_word, prospect_line, prospects_text};

use crate::prospect::{Chance, Prospect};
use crate::text::{push_id, push_notice};
use base::NoMemory;
use net_model::Client;
use std::alloc::Global;

// The word of a chance.
fn chance_word(chance: Chance) -> &'static [u8]
    ensures { result.now ≡ chance_word chance }
{
    match chance {
        Chance::Owed => b"owed ",
        Chance::May => b"may ",
        Chance::Near => b"near ",
    }
}

// The line of a publication.
#[tactic(auto, unfolding(crate::specs::Prospects::prospect_line))]
fn push_line(
    alloc: Global,
    out: &mut Vec<u8>,
    clients: &[Client],
    prospect: &Prospect,
) -> Result<(), NoMemory>
    ensures { OnOk result (out.new.items ≡ out.old.items ++ prospect_line clients.now prospect.now) }
{
    out.extend_from_slice(chance_word(prospect.chance))?;
    push_id(out, clients, prospect.id)?;
    out.extend_from_slice(b" ")?;
    push_notice(alloc, out, &prospect.notice)?;
    out.extend_from_slice(b"\n")?;
    Ok(())
}

/// The text of what comes to a client, with the names of a net's clients: one publication a line.
pub fn prospects_text(
    alloc: Global,
    clients: &[Client],
    prospects: &[Prospect],
) -> Result<Vec<u8>, NoMemory>
    ensures { IfOk result (λ text. text.items ≡ prospects_text clients.now prospects.now) }
{
    let mut out = Vec::new(alloc);
    for prospect in prospects {
        push_line(alloc, &mut out, clients, prospect)?;
    }
    Ok(out)
}
