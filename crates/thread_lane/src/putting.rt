//! The type of the end of a lane that puts items.
ghost use Rattle.std.specs.Prelude.{◌≡◌, ◌+◌, ◌≤◌, ◌^◌, ◌⊎◌, ◌++◌, [], length, true};
ghost use Rattle.std.specs.VecDeque.{deque_len, deque_capacity};
ghost use Rattle.std.specs.Arc.{arc_value};
ghost use mathlib.Core.List.{IsPrefix};
ghost use Rattle.rtrb.specs.Ring.{sent, known_free, producer_capacity, SameProducer};
ghost use Rattle.thread_lane.specs.Fulls.{IsOneMore};

use crate::fulls::{Fulls, has_no_place};
use crate::mark::{Bounded, Mark, MarkSeat, Raise};
use base::NoMemory;
use rtrb::Producer;
use std::alloc::Global;
use std::collections::VecDeque;
use std::sync::Arc;

/// The end of a lane that puts. It can move to another thread.
#[derive(Drop)]
pub struct LaneIn<T: Drop> {
    pub(crate) outbox: VecDeque<T>,
    pub(crate) producer: Producer<T, Global, Bounded>,
    pub(crate) pushed: u64,
    pub(crate) fulls: Fulls,
    pub(crate) mark: Arc<Mark>,
    pub(crate) seat: MarkSeat,
    ghost seated: { (seat.table_id ≡ (arc_value mark).shared.table_id) × (seat.table_id.words ≡ 1) × (seat.me.1 ≡ []) },
    ghost counts: { (pushed ≡ length (sent producer)) × (seat.me.0.puts ≡ true) × (seat.me.0.count ≡ pushed) },
    ghost small: { length (sent producer) + deque_len outbox ≤ 2 ^ 63 },
    ghost places: { producer_capacity producer ≡ 256 },
}

// Moves items into the ring until none is left, or a look finds no free place.
pub(crate) fn move_out<T: Drop>(
    outbox: &mut VecDeque<T>,
    producer: &mut Producer<T, Global, Bounded>,
    fulls: &mut Fulls,
) -> u64
    requires { length (sent producer.old) + deque_len outbox.old ≤ 2 ^ 63 }
    ensures same { SameProducer producer.old producer.new }
    ensures items { sent producer.new ++ outbox.new.items ≡ sent producer.old ++ outbox.old.items }
    ensures moved { IsPrefix (sent producer.old) (sent producer.new) }
    ensures count { (length (sent producer.new) ≡ length (sent producer.old) + result) × (deque_len outbox.new + result ≡ deque_len outbox.old) }
    ensures done { ((deque_len outbox.new ≡ 0) × (fulls.new ≡ fulls.old))
        ⊎ ((known_free producer.new ≡ 0) × IsOneMore fulls.old fulls.new) }
    ensures free { known_free producer.old ≤ known_free producer.new + result }
    ensures capacity { deque_capacity outbox.new ≡ deque_capacity outbox.old }
{
    let mut moved = 0;
    while !outbox.is_empty() && (producer.cached_slots() > 0 || !has_no_place(producer, fulls)) {
        let x = outbox.pop_front().unwrap();
        producer.push_reserved(x);
        moved += 1;
    }
    moved
}

impl<T: Drop> LaneIn<T> {
    ghost use Rattle.std.specs.Prelude.{◌≡◌, ◌+◌, ◌<◌, ◌≤◌, ◌^◌, ◌⊎◌, ◌↔◌, ◌++◌, ◌∷◌, [], length, OnOk, OnErr, IsTrue, IsFalse};
    ghost use mathlib.Core.List.{IsPrefix};
    ghost use Rattle.thread_lane.specs.Lane.{put_list, pushed_list, waiting_list, spare, free_places, mark_of, NoFull, IsFull, SameIn};

    /// Makes room for n items, which can then be put without memory. It wants memory only where there
    /// isn't room for n already; after running out of memory the lane is as before.
    pub fn room(&mut self, n: usize) -> Result<(), NoMemory>
        ensures same { SameIn self.old self.new × (pushed_list self.new ≡ pushed_list self.old) × (waiting_list self.new ≡ waiting_list self.old)
            × (mark_of self.new ≡ mark_of self.old) × NoFull self.old self.new }
        ensures kept { spare self.old ≤ spare self.new }
        ensures room { OnOk result (n ≤ spare self.new) }
        ensures wanting { OnErr result (spare self.old < n) }
    {
        self.outbox.reserve(n).map_err(|_| NoMemory)
    }

    /// Whether 2^63 items were put, which is all that a lane takes.
    pub fn is_used_up(&self) -> bool
        ensures { IsTrue result ↔ (2 ^ 63 ≤ length (put_list self.now)) }
    {
        self.pushed + self.outbox.len() as u64 >= 1 << 63
    }

    /// Whether items wait in the outbox.
    pub fn has_waiting(&self) -> bool
        ensures { IsFalse result ↔ (waiting_list self.now ≡ []) }
    {
        !self.outbox.is_empty()
    }

    /// Puts an item behind all others. There is spare room, and the lane isn't used up.
    pub fn put(&mut self, item: T)
        requires spare { 0 < spare self.old }
        requires few { length (put_list self.old) < 2 ^ 63 }
        ensures same { SameIn self.old self.new × (pushed_list self.new ≡ pushed_list self.old) × (mark_of self.new ≡ mark_of self.old)
            × NoFull self.old self.new }
        ensures put { put_list self.new ≡ put_list self.old ++ item ∷ [] }
        ensures waiting { waiting_list self.new ≡ waiting_list self.old ++ item ∷ [] }
        ensures spare { spare self.old ≡ spare self.new + 1 }
    {
        self.outbox.push_back_reserved(item);
    }

    /// Moves items of the outbox into the ring, in order, until the outbox is empty or a look at the ring finds every
    /// place taken, which is one more full. Raises the mark to what was pushed.
    pub fn flush(&mut self)
        ensures same { SameIn self.old self.new × (spare self.old ≤ spare self.new) }
        ensures put { put_list self.new ≡ put_list self.old }
        ensures moved { IsPrefix (pushed_list self.old) (pushed_list self.new) }
        ensures done { (waiting_list self.new ≡ []) ⊎ (free_places self.new ≡ 0) }
        ensures full { ((waiting_list self.new ≡ []) × NoFull self.old self.new) ⊎ IsFull self.old self.new }
        ensures mark { mark_of self.new ≡ length (pushed_list self.new) }
    {
        let moved = move_out(&mut self.outbox, &mut self.producer, &mut self.fulls);
        if moved == 0 {
            return;
        }
        self.pushed += moved;
        self.mark
            .shared
            .store::<Raise>(&mut self.seat, 0, self.pushed);
    }
}
