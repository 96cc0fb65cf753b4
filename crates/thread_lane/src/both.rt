//! Makes a lane, and settles it with both ends in one thread.
ghost use Rattle.std.specs.Prelude.{◌≡◌, ◌+◌, ◌≤◌, ◌^◌, ◌++◌, [], ℕ, length, drop, take, OnOk, OnErr, IfOk};
ghost use Rattle.std.specs.VecDeque.{deque_len, deque_capacity};
ghost use mathlib.Core.List.{IsPrefix};
ghost use Rattle.rtrb.specs.Ring.{sent, received, known_items, producer_capacity, IsPair, SameProducer, SameConsumer};
ghost use Rattle.thread_lane.specs.Lane.{put_list, pushed_list, waiting_list, spare, mark_of, taken_list, rest_list, coming_list, misses, IsLane, SameIn, SameOut};

use crate::fulls::Fulls;
use crate::mark::{Bounded, Ends, Mark, Raise};
use crate::putting::{LaneIn, move_out};
use crate::taking::{LaneOut, take_known};
use base::NoMemory;
use rtrb::{Consumer, Producer, RingBuffer};
use std::alloc::Global;
use std::collections::VecDeque;
use std::sync::Arc;

const PLACES: usize = 256;

/// The two ends of a lane that nothing was put into.
pub fn lane<T: Drop>(alloc: Global) -> Result<(LaneIn<T>, LaneOut<T>), NoMemory>
    ensures lane { IfOk result (λ r. IsLane r.0 r.1) }
    ensures put { IfOk result (λ r. (put_list r.0 ≡ []) × (mark_of r.0 ≡ 0)) }
    ensures taken { IfOk result (λ r. (taken_list r.1 ≡ []) × (rest_list r.1 ≡ []) × (coming_list r.1 ≡ []) × (misses r.1 ≡ 0)) }
{
    let (producer, consumer) = RingBuffer::with_protocol::<Global, Bounded>(alloc, PLACES)?;
    let Ok((table, mut seat)) = Mark::of_words(alloc, &[0], &()) else {
        return Err(NoMemory);
    };
    let theirs = table.shared.split_seat::<Ends>(&mut seat);
    let Ok(mark) = Arc::new(alloc, table) else {
        return Err(NoMemory);
    };
    let Ok(other) = Arc::try_clone(&mark) else {
        return Err(NoMemory);
    };
    let enter = LaneIn {
        outbox: VecDeque::new(alloc),
        producer,
        pushed: 0,
        fulls: Fulls::none(),
        mark,
        seat,
    };
    let leave = LaneOut {
        rest: VecDeque::new(alloc),
        consumer,
        taken: 0,
        mark: other,
        seat: theirs,
    };
    Ok((enter, leave))
}

// Moves everything to the rest, through the ring, and says how many items it pushed.
fn move_all<T: Drop>(
    outbox: &mut VecDeque<T>,
    producer: &mut Producer<T, Global, Bounded>,
    fulls: &mut Fulls,
    rest: &mut VecDeque<T>,
    consumer: &mut Consumer<T, Global, Bounded>,
) -> u64
    requires pair { IsPair producer.old consumer.old × (received consumer.old ++ known_items consumer.old ≡ sent producer.old)
        × (producer_capacity producer.old ≡ 256) }
    requires room { deque_len rest.old + length (known_items consumer.old) + deque_len outbox.old ≤ deque_capacity rest.old }
    requires few { length (sent producer.old) + deque_len outbox.old ≤ 2 ^ 63 }
    ensures same { SameProducer producer.old producer.new × SameConsumer consumer.old consumer.new }
    ensures put { (sent producer.new ≡ sent producer.old ++ outbox.old.items) × (outbox.new.items ≡ []) }
    ensures count { length (sent producer.new) ≡ length (sent producer.old) + result }
    ensures moved { (IsPrefix (sent producer.old) (sent producer.new)) × (deque_capacity outbox.new ≡ deque_capacity outbox.old) }
    ensures received { (received consumer.new ≡ sent producer.new) × (known_items consumer.new ≡ []) }
    ensures rest { (n : ℕ) → n ≤ length (received consumer.old) → drop n (received consumer.old) ≡ rest.old.items
        → (drop n (received consumer.new) ≡ rest.new.items) × (take n (received consumer.new) ≡ take n (received consumer.old)) }
{
    let mut pushed = 0;
    take_known(consumer, rest);
    while !outbox.is_empty() {
        producer.slots_beside(consumer);
        pushed += move_out(outbox, producer, fulls);
        consumer.slots_beside(producer);
        take_known(consumer, rest);
    }
    pushed
}

/// Moves everything that was put and not taken to the rest of the taking end, where `take` finds it
/// without a look at mark or ring. The two are the ends of one lane. After running out of memory everything
/// is where it was.
pub fn settle<T: Drop>(a: &mut LaneIn<T>, b: &mut LaneOut<T>) -> Result<(), NoMemory>
    requires { IsLane a.old b.old }
    ensures lane { IsLane a.new b.new × SameIn a.old a.new × SameOut b.old b.new }
    ensures lists { (put_list a.new ≡ put_list a.old) × (taken_list b.new ≡ taken_list b.old) }
    ensures known { IsPrefix (coming_list b.old) (coming_list b.new) }
    ensures prefix { IsPrefix (taken_list b.new) (put_list a.new) }
    ensures misses { misses b.new ≡ misses b.old }
    ensures mark { mark_of a.new ≡ length (pushed_list a.new) }
    ensures settled { OnOk result ((taken_list b.new ++ rest_list b.new ≡ put_list a.new) × (waiting_list a.new ≡ []) × (coming_list b.new ≡ rest_list b.new)) }
    ensures moved { IsPrefix (pushed_list a.old) (pushed_list a.new) × (spare a.old ≤ spare a.new) }
    ensures kept { OnErr result ((pushed_list a.new ≡ pushed_list a.old) × (rest_list b.new ≡ rest_list b.old)) }
    ensures waits { OnErr result (waiting_list a.new ≡ waiting_list a.old) }
{
    let waiting = b.consumer.slots_beside(&mut a.producer);
    if b.rest.reserve(waiting + a.outbox.len()).is_err() {
        return Err(NoMemory);
    }
    let pushed = move_all(
        &mut a.outbox,
        &mut a.producer,
        &mut a.fulls,
        &mut b.rest,
        &mut b.consumer,
    );
    a.pushed += pushed;
    a.mark.shared.store::<Raise>(&mut a.seat, 0, a.pushed);
    Ok(())
}
