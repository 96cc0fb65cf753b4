//! Writes the texts of what clients publish, each once.
ghost use Rattle.std.specs.Prelude.{◌≡◌, map, IfOk};
ghost use Rattle.output_report.specs.Published.{script_texts, texts_in, text_at};

use base::NoMemory;
use filter_text::{Bytes, Id, Lists, write_notice};
use net_model::{Client, Command};
use std::alloc::Global;

// The texts of a script's publishes, in order.
fn texts_of(alloc: Global, script: &[(u32, Command)]) -> Result<Lists<Bytes>, NoMemory>
    ensures { IfOk result (λ texts. texts ≡ script_texts script.now) }
{
    let mut texts = Vec::new(alloc);
    for (_, command) in script {
        if let Command::Publish(notice) = command {
            texts.push(Bytes::of(write_notice(alloc, notice)?))?;
        }
    }
    Ok(Lists::of(texts))
}

/// The texts of each client's publishes, in order.
pub(crate) fn texts_in(alloc: Global, clients: &[Client]) -> Result<Vec<Lists<Bytes>>, NoMemory>
    ensures { IfOk result (λ texts. texts.items ≡ texts_in clients.now) }
{
    let mut texts = Vec::with_capacity(alloc, clients.len())?;
    for client in clients {
        texts.push(texts_of(alloc, &client.script)?)?;
    }
    Ok(texts)
}

/// The text of a publish by its id.
pub(crate) fn text_at(texts: &[Lists<Bytes>], id: Id) -> &[u8]
    ensures { result.now ≡ text_at texts.now id }
{
    let (Some(place), Some(step)) = (id.publisher.checked_sub(1), id.ordinal.checked_sub(1)) else {
        return &[];
    };
    let Some(of_client) = texts.get(place as usize) else {
        return &[];
    };
    match of_client.as_slice().get(step as usize) {
        Some(text) => text.as_slice(),
        None => &[],
    }
}
