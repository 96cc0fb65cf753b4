//! The type of a message that waits on a link.
use server_message::Message;
use std::marker::Model;

/// A message that waits on a link to be received, under the stamp of the step that sent it.
#[derive(Drop)]
pub struct StampedMessage<'a> {
    /// The stamp, below 2^62.
    pub stamp: u64,
    /// The message.
    pub message: Message<'a>,
}

impl<'a> Model for StampedMessage<'a> {
    ghost use Rattle.sequential_network.specs.Links.{StampedMessageParts, stamped_message_parts};

    ghost Value = { StampedMessageParts };

    ghost view = { λ w. stamped_message_parts w.stamp w.message };
}
