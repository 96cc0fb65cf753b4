//! Finds the texts of what the last step of a network sent.
ghost use Rattle.std.specs.Prelude.{◌≡◌, ◌≤◌, ℕ, List, [], ◌∷◌, ◌++◌, length, map, IfOk};
ghost use Rattle.base.specs.Sets.{Has};
ghost use Rattle.server_spec.specs.Control.{sent_to};
ghost use Rattle.server_message.specs.Parts.{SendingParts};
ghost use Rattle.net_model.specs.Parts.{EntryParts};
ghost use Rattle.sequential_network.specs.Last.{LieLast, text_of_sending};
ghost use Rattle.sequential_network.specs.Links.{StampedMessageParts, messages_at};
ghost use Rattle.sequential_network.specs.Ruling.{RulingLaws};
ghost use Rattle.sequential_network.specs.Seen.{seen};

use crate::links::Links;
use crate::ruled::Networked;
use crate::servers::Servers;
use crate::texts::text_of;
use base::NoMemory;
use filter_text::{Lists, SentText};
use net_model::Sent;
use net_tables::Tables;
use std::alloc::Global;

/// The text of the message that was last sent on a link; empty where nothing lies on it.
fn last_sent(
    alloc: Global,
    tables: &Tables<'_>,
    links: &Links<'_>,
    from: u32,
    to: u32,
) -> Result<Sent, NoMemory>
    requires small { (from ≤ 64) × (to ≤ 64) }
    requires run { (w : StampedMessageParts) → Has w (messages_at links.now from to) → w.sent.net ≡ tables.now }
    ensures { (before : List StampedMessageParts) (last : StampedMessageParts) → messages_at links.now from to ≡ before ++ last ∷ []
        → IfOk result (λ sent. sent ≡ sent_to to last.sent.message) }
{
    match links.last(from, to) {
        Some(waiting) => {
            let bytes = text_of(alloc, tables, waiting.message.load())?;
            Ok(Sent { to, bytes })
        }
        None => {
            let bytes = SentText::written(Vec::new(alloc));
            Ok(Sent { to, bytes })
        }
    }
}

/// The texts of the messages that lie last on these links of a server, one for each.
pub(crate) fn last_on(
    alloc: Global,
    tables: &Tables<'_>,
    links: &Links<'_>,
    server: u32,
    outs: &[u32],
) -> Result<Lists<Sent>, NoMemory>
    requires small { (to : ℕ) → Has to outs.now → (server ≤ 64) × (to ≤ 64) }
    requires run { (to : ℕ) (w : StampedMessageParts) → Has w (messages_at links.now server to) → w.sent.net ≡ tables.now }
    ensures { IfOk result (λ told. (sent : List SendingParts) → LieLast (messages_at links.now) server outs.now sent → told ≡ map text_of_sending sent) }
{
    let mut told = Vec::with_capacity(alloc, outs.len())?;
    for to in outs {
        let sent = last_sent(alloc, tables, links, server, *to)?;
        told.push(sent)?;
    }
    Ok(Lists::of(told))
}

/// The texts of the messages of the last entry, by rising neighbour.
pub(crate) fn last_told<'a, P: Networked<'a>>(
    tables: &Tables<'_>,
    servers: &Servers<'a, P>,
) -> Result<Lists<Sent>, NoMemory>
    requires laws { RulingLaws P.stepping P.trying P.telling P.ruling }
    requires kept { (phase : ℕ) × P.ruling.IsKept tables.now phase (seen servers.now) }
    ensures { IfOk result (λ told. (before : List EntryParts) (entry : EntryParts) → servers.now.journal.entries ≡ before ++ entry ∷ []
        → told ≡ P.telling.told_at tables.now servers.now.journal.entries (length before) entry) }
{
    let alloc = servers.alloc;
    match servers.journal.last() {
        Some(entry) => last_on(alloc, tables, &servers.links, entry.server, &entry.outs),
        None => Ok(Lists::of(Vec::new(alloc))),
    }
}
