//! The type of the text of a message with the server that receives it.
use crate::sent_text::SentText;

/// The text of a message with the server that it goes to.
#[derive(Drop)]
pub struct Sent {
    /// The server, a neighbour of the sender.
    pub to: u32,
    /// The text of the message.
    pub bytes: SentText,
}
