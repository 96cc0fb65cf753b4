//! Reads and writes the text of a message.
ghost use Rattle.std.specs.Prelude.{◌≡◌, ◌++◌, IfOk, OnOk, IsErrOf};
ghost use Rattle.filter_text.specs.declared.message_text.MessageText.{MessageText};
ghost use Rattle.filter_text.specs.declared.message_text.MessageText.TheVariants as messages;
ghost use Rattle.filter_text.specs.Reading.{Gives, Reads};
ghost use Rattle.filter_text.specs.MessageText.{id_text, message_text, IsMessageText, IsSendable, IsSoundMessage};
ghost use Rattle.filter_text.specs.Changes.{closed_at, marked_at};
ghost use Rattle.filter_text.specs.Messages.{id_at, message_of, notice_message_of};

use crate::change::push_change;
use crate::fault::WireFault;
use crate::id::Id;
use crate::lists::Lists;
use crate::message_text::MessageText;
use crate::notice::push_notice;
use crate::reader::Reader;
use base::{NoMemory, push_number};
use std::alloc::Global;

impl<'a> Reader<'a> {
    /// Whether a space, the sign and `{` stand in front, which are read then.
    pub fn marked(&mut self, sign: u8) -> bool
        ensures { (result, self.new.rest.now) ≡ marked_at sign self.old.rest.now }
    {
        match self.rest {
            [b' ', s, b'{', rest @ ..] if *s == sign => {
                self.rest = rest;
                true
            }
            _ => false,
        }
    }

    /// A `}`.
    pub fn close(&mut self) -> Result<(), WireFault>
        ensures { Reads (λ x. x) result (closed_at self.old.rest.now) self.new.rest.now }
    {
        self.sign(b'}')
    }

    #[tactic(auto, unfolding(crate::specs::Messages::id_at))]
    fn id(&mut self) -> Result<Id, WireFault>
        ensures { Reads (λ x. x) result (id_at self.old.rest.now) self.new.rest.now }
    {
        let publisher = self.number(1024)?;
        self.space()?;
        let ordinal = self.number(100_000)?;
        Ok(Id { publisher, ordinal })
    }

    #[tactic(auto, unfolding(crate::specs::Messages::notice_message_of))]
    fn notice_message(&mut self, alloc: Global) -> Result<MessageText, WireFault>
        ensures { Gives (λ m. m) result (notice_message_of self.old.rest.now) }
    {
        self.space()?;
        let id = self.id()?;
        self.space()?;
        let notice = self.notice(alloc)?;
        Ok(MessageText::Notice { id, notice })
    }

    #[tactic(auto, unfolding(crate::specs::Messages::message_of))]
    fn message(&mut self, alloc: Global) -> Result<MessageText, WireFault>
        ensures { Gives (λ m. m) result (message_of self.old.rest.now) }
    {
        let tag = self.word();
        if tag == b"notice".as_slice() {
            self.notice_message(alloc)
        } else if tag == b"subs".as_slice() {
            let (out, add) = self.change(alloc)?;
            Ok(MessageText::Subs {
                out: Lists::of(out),
                add: Lists::of(add),
            })
        } else if tag == b"advs".as_slice() {
            let (out, add) = self.change(alloc)?;
            Ok(MessageText::Advs {
                out: Lists::of(out),
                add: Lists::of(add),
            })
        } else {
            Err(WireFault::Outside)
        }
    }
}

/// The message whose text the bytes are; `Outside` where they are the text of no message.
#[tactic(auto, using(crate::proofs::MessageLaws::message_found, crate::proofs::MessageLaws::message_outside))]
pub fn read_message(alloc: Global, bytes: &[u8]) -> Result<MessageText, WireFault>
    ensures found { IfOk result (λ m. IsMessageText bytes.now m) }
    ensures outside { IsErrOf result WireFault.Outside → (m : MessageText) → IsMessageText bytes.now m → ⊥ }
{
    Reader::new(bytes).message(alloc)
}

#[tactic(auto, unfolding(crate::specs::MessageText::id_text))]
fn push_id(out: &mut Vec<u8>, id: Id) -> Result<(), NoMemory>
    ensures { OnOk result (out.new.items ≡ out.old.items ++ id_text id) }
{
    push_number(out, u64::from(id.publisher))?;
    out.push(b' ')?;
    push_number(out, u64::from(id.ordinal))
}

/// Puts the text of a message at the end.
#[tactic(auto, unfolding(crate::specs::MessageText::message_text, crate::specs::MessageText::changes_text))]
pub(crate) fn push_message(text: &mut Vec<u8>, message: &MessageText) -> Result<(), NoMemory>
    ensures text { OnOk result (text.new.items ≡ text.old.items ++ message_text message.now) }
    ensures sound { OnOk result (IsSoundMessage message.now) }
{
    match message {
        MessageText::Notice { id, notice } => {
            text.extend_from_slice(b"notice ")?;
            push_id(text, *id)?;
            text.push(b' ')?;
            push_notice(text, notice)
        }
        MessageText::Subs { out, add } => {
            text.extend_from_slice(b"subs")?;
            push_change(text, out.as_slice(), add.as_slice())
        }
        MessageText::Advs { out, add } => {
            text.extend_from_slice(b"advs")?;
            push_change(text, out.as_slice(), add.as_slice())
        }
    }
}

/// The text of a message. The caller has the id in range: the publisher from 1 to 1,024, the ordinal from 1 to 100,000;
/// or the two lists strictly rising in the canonical order, without a common member and not both empty.
pub fn write_message(alloc: Global, message: &MessageText) -> Result<Vec<u8>, NoMemory>
    requires { IsSendable message.now }
    ensures { IfOk result (λ v. IsMessageText v.items message.now) }
{
    let mut text = Vec::new(alloc);
    push_message(&mut text, message)?;
    Ok(text)
}
