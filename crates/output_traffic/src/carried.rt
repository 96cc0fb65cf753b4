//! Counts what the entries of a run put on each link.
ghost use Rattle.std.specs.Prelude.{◌≡◌};
ghost use Rattle.output_traffic.specs.Carried.{is_notice};

use crate::counts::Counts;
use base::NoMemory;
use net_model::{Entry, Sent};
use std::alloc::Global;

/// How many notifications, and how many messages on filters and advertisements, each link carried, in both directions.
#[derive(Drop)]
pub struct Carried {
    pub(crate) notices: Counts,
    pub(crate) changes: Counts,
}

// Whether a text begins as that of a notification.
fn is_notice(text: &[u8]) -> bool
    ensures { result ≡ is_notice text.now }
{
    matches!(text, [b'n', b'o', b't', b'i', b'c', b'e', b' ', ..])
}

impl Carried {
    ghost use Rattle.std.specs.Prelude.{◌≡◌, ◌&&◌, ◌++◌, ◌∷◌, [], ℕ, List, length, IfOk, OnOk};
    ghost use Rattle.base.specs.Numbers.{count};
    ghost use Rattle.filter_text.specs.declared.sent.Sent.{Sent as SentParts};
    ghost use Rattle.net_model.specs.Parts.{EntryParts};
    ghost use Rattle.output_traffic.specs.Carried.{is_change, is_notice, put_on};
    ghost use Rattle.output_traffic.specs.Counts.{IsRaised, is_direction};
    ghost use Rattle.output_traffic.specs.Tallied.{Carries};

    /// Nothing is carried.
    pub fn none(alloc: Global) -> Result<Carried, NoMemory>
        ensures { IfOk result (λ c. Carries c [] []) }
    {
        Ok(Carried {
            notices: Counts::none(alloc)?,
            changes: Counts::none(alloc)?,
        })
    }

    // One message more, by its text.
    fn add_text(&mut self, server: u32, to: u32, text: &[u8])
        ensures notices { (a b : ℕ) → IsRaised self.old.notices self.new.notices a b (count (is_direction server to a b && is_notice text.now)) }
        ensures changes { (a b : ℕ) → IsRaised self.old.changes self.new.changes a b (count (is_direction server to a b && is_change text.now)) }
    {
        if is_notice(text) {
            self.notices.add(server, to)
        } else {
            self.changes.add(server, to)
        }
    }

    // One message more.
    fn add_message(&mut self, alloc: Global, server: u32, message: &Sent) -> Result<(), NoMemory>
        ensures notices { OnOk result ((a b : ℕ)
            → IsRaised self.old.notices self.new.notices a b (count (is_direction server message.now.to a b && is_notice message.now.bytes))) }
        ensures changes { OnOk result ((a b : ℕ)
            → IsRaised self.old.changes self.new.changes a b (count (is_direction server message.now.to a b && is_change message.now.bytes))) }
    {
        let mut text = Vec::new(alloc);
        message.bytes.push(&mut text)?;
        self.add_text(server, message.to, &text);
        Ok(())
    }

    // The messages of one step more of a server.
    fn add_messages(&mut self, alloc: Global, server: u32, sent: &[Sent]) -> Result<(), NoMemory>
        ensures notices { OnOk result ((a b : ℕ) → IsRaised self.old.notices self.new.notices a b (put_on is_notice server sent.now a b)) }
        ensures changes { OnOk result ((a b : ℕ) → IsRaised self.old.changes self.new.changes a b (put_on is_change server sent.now a b)) }
    {
        for message in sent {
            self.add_message(alloc, server, message)?;
        }
        Ok(())
    }

    /// One entry more of a journal, with its messages.
    pub fn add(&mut self, alloc: Global, entry: &Entry, sent: &[Sent]) -> Result<(), NoMemory>
        ensures { OnOk result ((journal : List EntryParts) (outs : List (List SentParts)) → length journal ≡ length outs → Carries self.old journal outs
            → Carries self.new (journal ++ entry.now ∷ []) (outs ++ sent.now ∷ [])) }
    {
        self.add_messages(alloc, entry.server, sent)
    }
}
