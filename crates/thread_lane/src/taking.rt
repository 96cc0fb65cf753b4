//! The type of the end of a lane that takes items.
ghost use Rattle.std.specs.Prelude.{◌≡◌, ◌+◌, ◌<◌, ◌≤◌, ◌^◌, ◌++◌, ◌∷◌, [], length, false, drop, IsTrue, IsFalse, IfSome, MatchOption};
ghost use Rattle.std.specs.VecDeque.{deque_len, deque_capacity};
ghost use Rattle.std.specs.Arc.{arc_value};
ghost use mathlib.Core.List.{IsPrefix};
ghost use Rattle.rtrb.specs.Ring.{received, known_items, SameConsumer, ConsumerLooked};

use crate::mark::{Bounded, Look, Mark, MarkSeat};
use rtrb::Consumer;
use std::alloc::Global;
use std::collections::VecDeque;
use std::sync::{Arc, Wait};
use std::thread;

/// The end of a lane that takes. It can move to another thread.
#[derive(Drop)]
pub struct LaneOut<T: Drop> {
    pub(crate) rest: VecDeque<T>,
    pub(crate) consumer: Consumer<T, Global, Bounded>,
    pub(crate) taken: u64,
    pub(crate) mark: Arc<Mark>,
    pub(crate) seat: MarkSeat,
    ghost seated: { (seat.table_id ≡ (arc_value mark).shared.table_id) × (seat.table_id.words ≡ 1) × (seat.me.1 ≡ []) × (seat.me.0.puts ≡ false) },
    ghost suffix: { drop taken (received consumer) ≡ rest.items },
    ghost counts: { (taken + deque_len rest ≡ length (received consumer)) × (length (received consumer) ≤ 2 ^ 63) },
}

// Whether the ring has a next item. If not, the mark shows that it had them all.
fn see_from<T: Drop, R: Wait>(
    rt: &R,
    consumer: &mut Consumer<T, Global, Bounded>,
    mark: &Mark,
    seat: &mut MarkSeat,
    had: u64,
) -> bool
    requires seat { (seat.old.table_id ≡ mark.now.shared.table_id) × (seat.old.table_id.words ≡ 1) × (seat.old.me.1 ≡ []) × (seat.old.me.0.puts ≡ false) }
    requires had { had ≡ length (received consumer.old) }
    ensures looked { ConsumerLooked consumer.old consumer.new }
    ensures seat { (seat.new.table_id ≡ seat.old.table_id) × (seat.new.me.1 ≡ []) × (seat.new.me.0.puts ≡ false) }
    ensures yes { IsTrue result → (0 < length (known_items consumer.new)) × (seat.new.me.0.misses ≡ seat.old.me.0.misses) }
    ensures no { IsFalse result → (known_items consumer.old ≡ []) × (seat.new.me.0.misses ≡ seat.old.me.0.misses + 1)
        × (seat.new.me.0.count ≡ length (received consumer.new)) }
{
    for _ in rt.forever() {
        if !consumer.is_empty() {
            return true;
        }
        if mark.shared.compare_exchange::<Look>(seat, 0, had, had) == had {
            return false;
        }
        thread::yield_now();
    }
    unreachable!()
}

// Moves what is known to be in the ring to the rest.
pub(crate) fn take_known<T: Drop>(
    consumer: &mut Consumer<T, Global, Bounded>,
    rest: &mut VecDeque<T>,
)
    requires { deque_len rest.old + length (known_items consumer.old) ≤ deque_capacity rest.old }
    ensures same { SameConsumer consumer.old consumer.new × (deque_capacity rest.new ≡ deque_capacity rest.old) }
    ensures received { (received consumer.new ≡ received consumer.old ++ known_items consumer.old) × (known_items consumer.new ≡ []) }
    ensures rest { rest.new.items ≡ rest.old.items ++ known_items consumer.old }
{
    while consumer.cached_slots() > 0 {
        rest.push_back_reserved(consumer.pop_known());
    }
}

impl<T: Drop> LaneOut<T> {
    ghost use Rattle.std.specs.Prelude.{◌≡◌, ◌+◌, ◌<◌, ◌⊎◌, ◌↔◌, ◌++◌, ◌∷◌, [], length, IsTrue, IsFalse, IfSome, IfNone, ⊤};
    ghost use Rattle.std.specs.Borrow.{sem};
    ghost use mathlib.Core.List.{IsPrefix};
    ghost use mathlib.Core.Option.{none};
    ghost use denote.Follow.{follows_so};
    ghost use Rattle.thread_lane.specs.contracts.taking.LaneOut.{the_row};
    ghost use Rattle.thread_lane.specs.Lane.{taken_list, rest_list, coming_list, misses, SameOut, Misses, Looks, LeavesRest, LeavesRing};

    /// Whether the rest has an item, which the next `take` then gives without a look at the mark or
    /// the ring.
    pub fn has_rest(&self) -> bool
        ensures { IsFalse result ↔ (rest_list self.now ≡ []) }
    {
        !self.rest.is_empty()
    }

    // Whether there is a next item. `misses` rises where there is none.
    fn is_ready<R: Wait>(&mut self, rt: &R) -> bool
        ensures same { SameOut self.old self.new × (rest_list self.new ≡ rest_list self.old) × (taken_list self.new ≡ taken_list self.old) }
        ensures known { IsPrefix (coming_list self.old) (coming_list self.new) }
        ensures yes { IsTrue result → (0 < length (coming_list self.new)) × (misses self.new ≡ misses self.old) }
        ensures no { IsFalse result → Misses self.old self.new }
    {
        if !self.rest.is_empty() {
            return true;
        }
        see_from(
            rt,
            &mut self.consumer,
            &self.mark,
            &mut self.seat,
            self.taken,
        )
    }

    /// The next item, which this end knows to come.
    pub fn first(&self) -> &T
        requires { 0 < length (coming_list self.now) }
        ensures { IsPrefix (result.now ∷ []) (coming_list self.now) }
    {
        match self.rest.front() {
            Some(x) => x,
            None => self.consumer.peek_known(),
        }
    }

    /// The item that the next `take` gives. `None`, and one more miss, where the mark shows that
    /// this end has had everything. Where the mark shows a further item it waits until that item is
    /// in sight.
    pub fn look<R: Wait>(&mut self, rt: &R) -> Option<&T>
        ensures* after { sem 𝓛 (follows_so (the_row T.row) (the_row T.row) self.entry.ghost_name none (λ _ _. ⊤) (λ n. Looks self.old n result)) }
    {
        if self.is_ready(rt) {
            Some(self.first())
        } else {
            None
        }
    }

    /// Takes the next item: the first of the rest, where the rest isn't empty, without a look at the
    /// mark or the ring; else the next of the ring. `None`, and one more miss, where the mark shows that this end has had
    /// everything; nothing is taken then. Where the mark shows a further item it waits until that
    /// item is in sight.
    pub fn take<R: Wait>(&mut self, rt: &R) -> Option<T>
        ensures same { SameOut self.old self.new }
        ensures taken { IfSome result (λ x. (taken_list self.new ≡ taken_list self.old ++ x ∷ []) × (misses self.new ≡ misses self.old)) }
        ensures next { IfSome result (λ x. IsPrefix (coming_list self.old) (x ∷ coming_list self.new)) }
        ensures rest { IfSome result (λ x. LeavesRest self.old self.new x ⊎ LeavesRing self.old self.new) }
        ensures nothing { IfNone result (Misses self.old self.new × (taken_list self.new ≡ taken_list self.old) × (rest_list self.new ≡ [])) }
    {
        if let Some(x) = self.rest.pop_front() {
            self.taken += 1;
            return Some(x);
        }
        if !self.is_ready(rt) {
            return None;
        }
        let x = self.consumer.pop_known();
        self.taken += 1;
        Some(x)
    }
}
