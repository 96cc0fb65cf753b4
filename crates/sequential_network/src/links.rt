//! The type of the links between all servers, each with its queue.
ghost use Rattle.std.specs.Prelude.{◌≡◌, ℕ, ◌≤◌, ◌<◌, ◌-◌, drop, true, [], ◌∷◌, ◌++◌, Some, slice_get, length, IfOk, OnOk, IfSome, IfNone};
ghost use Rattle.std.specs.Prelude.{IsTrue, ◌↔◌};
ghost use Rattle.base.specs.Sets.{Has};
ghost use Rattle.sequential_network.specs.Links.{link_place, messages_at, has_room, AreSame};

use crate::queue::Queue;
use crate::stamped_message::StampedMessage;
use base::NoMemory;
use std::alloc::Global;
use std::marker::Model;

/// The greatest number of a server.
const LAST_SERVER: usize = 64;

/// How many queues there are: one for each two numbers from 0 to the greatest.
const QUEUES: usize = (LAST_SERVER + 1) * (LAST_SERVER + 1);

/// The messages on the links between servers; contracts see a queue for each two numbers.
pub struct Links<'a> {
    queues: Vec<Queue<'a>>,
}

// A function of its own, as that of a server.
impl Drop for Links<'_> {
    fn drop(self) {
        let Self { queues: _ } = self;
    }
}

impl<'a> Model for Links<'a> {
    ghost use Rattle.std.specs.Prelude.{◌≡◌, List, length};
    ghost use Rattle.sequential_network.specs.Links.{QueueParts};

    ghost Value = { List QueueParts };

    ghost view = { λ links. links.queues.items };

    ghost invariant = { λ links. length links.queues.items ≡ 4225 };
}

/// The place of the queue of a link.
fn place(from: u32, to: u32) -> usize
    requires { (from ≤ 64) × (to ≤ 64) }
    ensures within { result < 4225 }
    ensures value { result ≡ link_place from to }
{
    from as usize * (LAST_SERVER + 1) + to as usize
}

impl<'a> Links<'a> {
    /// Links with no messages.
    pub fn new(alloc: Global) -> Result<Links<'a>, NoMemory>
        ensures { IfOk result (λ links. (from to : ℕ) → messages_at links from to ≡ []) }
    {
        let mut queues = Vec::with_capacity(alloc, QUEUES)?;
        for _ in 0..QUEUES {
            queues.push(Queue::new(alloc))?;
        }
        Ok(Links { queues })
    }

    /// The next message on a link.
    pub fn first(&self, from: u32, to: u32) -> Option<&StampedMessage<'a>>
        requires { (from ≤ 64) × (to ≤ 64) }
        ensures some { IfSome result (λ first. slice_get (messages_at self.now from to) 0 ≡ Some first.now) }
        ensures none { IfNone result (messages_at self.now from to ≡ []) }
    {
        self.queues[place(from, to)].first()
    }

    /// Whether a link has no message.
    pub fn is_empty(&self, from: u32, to: u32) -> bool
        requires { (from ≤ 64) × (to ≤ 64) }
        ensures { IsTrue result → messages_at self.now from to ≡ [] }
    {
        self.first(from, to).is_none()
    }

    /// The last message on a link.
    pub fn last(&self, from: u32, to: u32) -> Option<&StampedMessage<'a>>
        requires { (from ≤ 64) × (to ≤ 64) }
        ensures some { IfSome result (λ last. slice_get (messages_at self.now from to) (length (messages_at self.now from to) - 1) ≡ Some last.now) }
        ensures none { IfNone result (messages_at self.now from to ≡ []) }
    {
        self.queues[place(from, to)].last()
    }

    /// Makes room for one more message on a link.
    fn make_room(&mut self, from: u32, to: u32) -> Result<(), NoMemory>
        requires { (from ≤ 64) × (to ≤ 64) }
        ensures room { OnOk result (has_room self.new from to ≡ true) }
        ensures kept { (a b : ℕ) → has_room self.old a b ≡ true → has_room self.new a b ≡ true }
        ensures same { AreSame self.old self.new }
    {
        self.queues[place(from, to)].make_room()
    }

    /// Makes room for one more message on each of these links of a server.
    pub fn make_rooms(&mut self, from: u32, links: &[u32]) -> Result<(), NoMemory>
        requires from { from ≤ 64 }
        requires small { (link : ℕ) → Has link links.now → link ≤ 64 }
        ensures room { OnOk result ((link : ℕ) → Has link links.now → has_room self.new from link ≡ true) }
        ensures same { AreSame self.old self.new }
    {
        for to in links {
            self.make_room(from, *to)?;
        }
        Ok(())
    }

    /// Puts a message on a link, where there is room for it. It takes no memory.
    pub fn put(&mut self, from: u32, to: u32, message: StampedMessage<'a>)
        requires small { (from ≤ 64) × (to ≤ 64) }
        requires room { has_room self.old from to ≡ true }
        ensures here { messages_at self.new from to ≡ messages_at self.old from to ++ message.entry ∷ [] }
        ensures others { (a b : ℕ) → (a ≡ from → b ≡ to → ⊥) → messages_at self.new a b ≡ messages_at self.old a b }
        ensures rooms { (a b : ℕ) → (a ≡ from → b ≡ to → ⊥) → has_room self.old a b ≡ true → has_room self.new a b ≡ true }
    {
        self.queues[place(from, to)].put(message);
    }

    /// Gives up the next message on a link.
    pub fn drop_first(&mut self, from: u32, to: u32)
        requires { (from ≤ 64) × (to ≤ 64) }
        ensures here { messages_at self.new from to ≡ drop 1 (messages_at self.old from to) }
        ensures others { (a b : ℕ) → (a ≡ from → b ≡ to → ⊥) → messages_at self.new a b ≡ messages_at self.old a b }
        ensures rooms { (a b : ℕ) → has_room self.old a b ≡ true → has_room self.new a b ≡ true }
    {
        self.queues[place(from, to)].drop_first();
    }

    /// Whether no link of a server has a message from it.
    fn is_silent(&self, from: u32) -> bool
        requires { from ≤ 64 }
        ensures { IsTrue result ↔ ((to : ℕ) → messages_at self.now from to ≡ []) }
    {
        for to in 0..=LAST_SERVER as u32 {
            if self.first(from, to).is_some() {
                return false;
            }
        }
        true
    }

    /// Whether no link has a message.
    pub fn are_empty(&self) -> bool
        ensures { IsTrue result ↔ ((from to : ℕ) → messages_at self.now from to ≡ []) }
    {
        for from in 0..=LAST_SERVER as u32 {
            if !self.is_silent(from) {
                return false;
            }
        }
        true
    }
}
