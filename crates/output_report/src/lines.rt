//! Writes parts of lines.
ghost use Rattle.std.specs.Prelude.{◌≡◌, ◌++◌, OnOk};
ghost use Rattle.std.specs.List.{flat_map};
ghost use Rattle.output_report.specs.Lines.{client_line, refused_line, publication_line};

use base::{NoMemory, push_number};
use filter_text::Id;
use filter_values::Name;
use net_model::{Client, client_name};

/// The line before what a client receives.
#[tactic(auto, unfolding(crate::specs::Lines::client_line))]
pub fn push_client(out: &mut Vec<u8>, name: &Name) -> Result<(), NoMemory>
    ensures { OnOk result (out.new.items ≡ out.old.items ++ client_line name.now) }
{
    out.extend_from_slice(b"client ")?;
    out.extend_from_slice(name.bytes())?;
    out.extend_from_slice(b"\n")?;
    Ok(())
}

#[tactic(auto, unfolding(crate::specs::Lines::refused_line))]
fn push_refusal(out: &mut Vec<u8>, ordinal: u32) -> Result<(), NoMemory>
    ensures { OnOk result (out.new.items ≡ out.old.items ++ refused_line ordinal) }
{
    out.extend_from_slice(b"refused ")?;
    push_number(out, u64::from(ordinal))?;
    out.extend_from_slice(b" unadvertised\n")?;
    Ok(())
}

/// A line for each refused publish.
pub fn push_refused(out: &mut Vec<u8>, ordinals: &[u32]) -> Result<(), NoMemory>
    ensures { OnOk result (out.new.items ≡ out.old.items ++ flat_map refused_line ordinals.now) }
{
    for ordinal in ordinals {
        push_refusal(out, *ordinal)?;
    }
    Ok(())
}

/// A line of a publication: a word, its publisher's name, its ordinal and the text of its notice.
#[tactic(auto, unfolding(crate::specs::Lines::publication_line))]
pub(crate) fn push_publication(
    out: &mut Vec<u8>,
    word: &[u8],
    clients: &[Client],
    id: Id,
    text: &[u8],
) -> Result<(), NoMemory>
    ensures { OnOk result (out.new.items ≡ out.old.items ++ publication_line word.now clients.now id text.now) }
{
    out.extend_from_slice(word)?;
    out.extend_from_slice(client_name(clients, id.publisher))?;
    out.extend_from_slice(b" ")?;
    push_number(out, u64::from(id.ordinal))?;
    out.extend_from_slice(b" ")?;
    out.extend_from_slice(text)?;
    out.extend_from_slice(b"\n")?;
    Ok(())
}
