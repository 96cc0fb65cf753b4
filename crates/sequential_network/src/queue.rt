//! The type of the queue of one link.
ghost use Rattle.std.specs.Prelude.{◌≡◌, ◌-◌, true, false, drop, ◌∷◌, ◌++◌, [], length, IfSome, IfNone, OnOk, OnErr, slice_get, Some};

use crate::stamped_message::StampedMessage;
use base::NoMemory;
use std::alloc::Global;
use std::collections::VecDeque;
use std::marker::Model;

/// The messages on a link that are not received yet, in the order in which they were put; there may be room for one more.
#[derive(Drop)]
pub(crate) struct Queue<'a> {
    messages: VecDeque<StampedMessage<'a>>,
    has_room: bool,
}

impl<'a> Model for Queue<'a> {
    ghost use Rattle.std.specs.Prelude.{◌≡◌, ◌<◌, true};
    ghost use Rattle.std.specs.VecDeque.{deque_len, deque_capacity};
    ghost use Rattle.sequential_network.specs.Links.{QueueParts, queue_parts};

    ghost Value = { QueueParts };

    ghost view = { λ queue. queue_parts queue.messages.items queue.has_room };

    ghost invariant = { λ queue. queue.has_room ≡ true → deque_len queue.messages < deque_capacity queue.messages };
}

impl<'a> Queue<'a> {
    ghost use Rattle.sequential_network.specs.Links.{queue_parts};

    /// A queue of no messages.
    pub(crate) fn new(alloc: Global) -> Queue<'a>
        ensures { result ≡ queue_parts [] false }
    {
        Queue {
            messages: VecDeque::new(alloc),
            has_room: false,
        }
    }

    /// Makes room for one more message.
    pub(crate) fn make_room(&mut self) -> Result<(), NoMemory>
        ensures ok { OnOk result (self.new ≡ record self.old { room = true }) }
        ensures err { OnErr result (self.new ≡ self.old) }
    {
        self.messages.reserve(1)?;
        self.has_room = true;
        Ok(())
    }

    /// Puts a message at the end, for which there is room. It takes no memory.
    pub(crate) fn put(&mut self, message: StampedMessage<'a>)
        requires { self.old.room ≡ true }
        ensures { self.new ≡ queue_parts (self.old.messages ++ message.entry ∷ []) false }
    {
        self.messages.push_back(message).unwrap();
        self.has_room = false;
    }

    /// The next message.
    pub(crate) fn first(&self) -> Option<&StampedMessage<'a>>
        ensures some { IfSome result (λ first. slice_get self.now.messages 0 ≡ Some first.now) }
        ensures none { IfNone result (self.now.messages ≡ []) }
    {
        self.messages.front()
    }

    /// The last message.
    pub(crate) fn last(&self) -> Option<&StampedMessage<'a>>
        ensures some { IfSome result (λ last. slice_get self.now.messages (length self.now.messages - 1) ≡ Some last.now) }
        ensures none { IfNone result (self.now.messages ≡ []) }
    {
        self.messages.back()
    }

    /// Gives up the next message.
    pub(crate) fn drop_first(&mut self)
        ensures { self.new ≡ record self.old { messages = drop 1 self.old.messages } }
    {
        let _ = self.messages.pop_front();
    }
}
