//! The type of texts of messages, which are written only where they are asked for.
ghost use Rattle.std.specs.Prelude.{◌≡◌, ◌++◌, List, ℕ, IfOk, OnOk, IsErrOf};
ghost use Rattle.filter_text.specs.declared.message_text.MessageText.{MessageText};
ghost use Rattle.filter_text.specs.MessageText.{Each, IsMessageText, IsSendable, IsSoundMessage};

use crate::listed::Listed;
use crate::lists::Bytes;
use crate::message_text::MessageText;
use crate::wire::push_message;
use base::NoMemory;
use std::alloc::Global;
use std::marker::Model;

/// What a text is kept as.
#[derive(Drop)]
pub(crate) enum Source {
    /// Its bytes.
    Written(Bytes),
    /// The message that it represents.
    Told(MessageText),
}

/// The text of a message on its way. It need not be written: where the message itself is at hand, who takes it reads
/// nothing, and copies share filters and notices. Contracts see the bytes, as if they were written.
#[derive(Drop)]
pub struct SentText {
    source: Source,
}

impl Model for SentText {
    ghost use Rattle.std.specs.Prelude.{List, ℕ};
    ghost use Rattle.filter_text.specs.SentText.{text_in, IsSource};

    ghost Value = { List ℕ };

    ghost view = { λ text. text_in text.source };

    ghost invariant = { λ text. IsSource text.source };
}

// Lists of the program are well formed.
fn lemma_all_sound<L: Listed>(lists: &[L])
    ensures { Each L.IsSound lists.now }
{
    for list in lists {
        list.lemma_sound();
    }
}

// So is a message.
fn lemma_message_sound(message: &MessageText)
    ensures { IsSoundMessage message.now }
{
    match message {
        MessageText::Notice { notice, .. } => {
            let _attributes = notice.attributes();
        }
        MessageText::Subs { out, add } => {
            lemma_all_sound(out.as_slice());
            lemma_all_sound(add.as_slice());
        }
        MessageText::Advs { out, add } => {
            lemma_all_sound(out.as_slice());
            lemma_all_sound(add.as_slice());
        }
    }
}

impl SentText {
    /// The text that these bytes are. It takes no memory.
    pub fn written(bytes: Vec<u8>) -> SentText
        ensures { result ≡ bytes.items }
    {
        SentText {
            source: Source::Written(Bytes::of(bytes)),
        }
    }

    /// The text of a message. The caller has it so that it has one: the id in range, or the two lists strictly rising in
    /// the canonical order, without a common member and not both empty. It takes no memory.
    pub fn of_message(message: MessageText) -> SentText
        requires { IsSendable message }
        ensures { IsMessageText result message }
    {
        lemma_message_sound(&message);
        SentText {
            source: Source::Told(message),
        }
    }

    /// Puts the bytes at the end.
    pub fn push(&self, out: &mut Vec<u8>) -> Result<(), NoMemory>
        ensures { OnOk result (out.new.items ≡ out.old.items ++ self.now) }
    {
        match &self.source {
            Source::Written(bytes) => {
                out.extend_from_slice(bytes.as_slice())?;
                Ok(())
            }
            Source::Told(message) => push_message(out, message),
        }
    }
}
