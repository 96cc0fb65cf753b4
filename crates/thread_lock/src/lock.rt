//! The types of the lock and of its passes, and what they do.
ghost use Rattle.std.specs.Prelude.{◌≡◌, ◌<◌, length, false};
ghost use Rattle.thread_lock.specs.Rule.{view_in};

use crate::rule::{Branch, LayBack, PickUp, Put, Start, Take, Turns, Unite};
use crate::standing::Standing;
use crate::view::View;
use atomic_table::{Badge, Refused, Seat, Table};
use std::alloc::Global;
use std::mem::replace;
use std::snapshot::Snapshot;

type PassSeat<T> = Seat<Option<T>, View<<T as Standing>::Item, <T as Standing>::Root>>;

/// A lock round a value, which one pass at a time has in hand.
#[derive(Drop)]
pub struct TurnLock<T: Standing> {
    table: Table<Option<T>, View<T::Item, T::Root>, Start<T>, Turns, Global>,
    ghost sized: { (table.shared.table_id.words ≡ 1) × (table.shared.table_id.slots ≡ 1) },
    ghost some: { 0 < table.shared.key.passes },
}

/// The right to try a lock, and what its holder knows of the value: a number from 0, how much of the
/// list it has seen, whether it has the value in hand, and how often it found the value gone. It has
/// no bytes, and its type doesn't name the value's.
#[derive(Drop)]
pub struct Pass<I, R> {
    badge: Badge<View<I, R>>,
    ghost one: { length badge.views ≡ 1 },
    ghost whole: { (view_in badge.views).parts ≡ 1 },
    ghost inside: { (view_in badge.views).out ≡ false },
}

impl<T: Standing> TurnLock<T> {
    ghost use Rattle.std.specs.Prelude.{◌≡◌, ◌+◌, ◌<◌, true, false, IfSome, IfNone, IfOk, IfErr, All, map, vec_len};
    ghost use Rattle.std.specs.List.{range_with_len};
    ghost use mathlib.Core.List.{IsPrefix};
    ghost use Rattle.thread_lock.specs.Passes.{first_value, pass_count, IsPassOf, IsSamePass, IsFresh, pass_number, seen_by, has_in_hand, pass_misses};

    /// A lock round the value, and its passes, numbered from 0. There is at least one. Each has seen
    /// the value's root and list. The value comes back only for lack of memory.
    pub fn make(
        alloc: Global,
        value: T,
        passes: usize,
    ) -> Result<(TurnLock<T>, Vec<Pass<T::Item, T::Root>>), T>
        requires { 0 < passes }
        ensures lock { IfOk result (λ r. (first_value r.0 ≡ value) × (pass_count r.0 ≡ passes)) }
        ensures numbers { IfOk result (λ r. (vec_len r.1 ≡ passes) × (map pass_number r.1.items ≡ range_with_len 0 passes)) }
        ensures passes { IfOk result (λ r. All (λ p. IsPassOf T.root r.0 p × IsFresh (T.list value) p) r.1.items) }
        ensures back { IfErr result (λ v. v ≡ value) }
    {
        let Ok(made) = Vec::with_capacity(alloc, passes) else {
            return Err(value);
        };
        let Ok(mut slots) = Vec::with_capacity(alloc, 1) else {
            return Err(value);
        };
        let about = Start {
            value: Snapshot::of(&value),
            passes: passes as u64,
        };
        slots.push_reserved(Some(value));
        match Table::new(alloc, &[0], slots, &about) {
            Ok((table, first)) => {
                let lock = TurnLock { table };
                let made = lock.split_off(first, made, passes);
                Ok((lock, made))
            }
            Err(Refused { mut slots }) => {
                let value = slots.pop().unwrap().unwrap();
                slots.destroy_empty();
                Err(value)
            }
        }
    }

    /// The value, where no other pass has it in hand; `None`, and one more miss, where one has. The
    /// pass is this lock's and has nothing in hand. It takes no memory and never waits.
    pub fn try_take(&self, pass: &mut Pass<T::Item, T::Root>) -> Option<T>
        requires own { IsPassOf T.root self.now pass.old }
        requires free { has_in_hand pass.old ≡ false }
        ensures own { IsPassOf T.root self.now pass.new × IsSamePass pass.old pass.new }
        ensures found { IfSome result (λ v. (T.root v ≡ T.root (first_value self.now)) × IsPrefix (seen_by pass.old) (T.list v)) }
        ensures taken { IfSome result (λ v. (seen_by pass.new ≡ T.list v) × (has_in_hand pass.new ≡ true) × (pass_misses pass.new ≡ pass_misses pass.old)) }
        ensures missed { IfNone result ((pass_misses pass.new ≡ pass_misses pass.old + 1) × (seen_by pass.new ≡ seen_by pass.old)
            × (has_in_hand pass.new ≡ false)) }
    {
        let shared = &self.table.shared;
        let mut seat: PassSeat<T> = replace(&mut pass.badge, Badge::blank()).into_seat();
        if shared.swap::<Take>(&mut seat, 0, 1) != 0 {
            pass.badge = seat.into_badge();
            return None;
        }
        let value = shared.exchange(&mut seat, 0, None);
        shared.store::<LayBack>(&mut seat, 0, 1);
        pass.badge = seat.into_badge();
        value
    }

    /// Gives the value back. The pass is this lock's and has the value in hand; the value has the
    /// same root, and its list begins with the one that was taken. It takes no memory.
    pub fn put(&self, pass: &mut Pass<T::Item, T::Root>, value: T)
        requires own { IsPassOf T.root self.now pass.old }
        requires held { has_in_hand pass.old ≡ true }
        requires root { T.root value ≡ T.root (first_value self.now) }
        requires list { IsPrefix (seen_by pass.old) (T.list value) }
        ensures own { IsPassOf T.root self.now pass.new × IsSamePass pass.old pass.new }
        ensures put { (seen_by pass.new ≡ T.list value) × (has_in_hand pass.new ≡ false) × (pass_misses pass.new ≡ pass_misses pass.old) }
    {
        let shared = &self.table.shared;
        let mut seat: PassSeat<T> = replace(&mut pass.badge, Badge::blank()).into_seat();
        shared.store::<PickUp>(&mut seat, 0, 1);
        let hole = shared.exchange(&mut seat, 0, Some(value));
        let None = hole else { unreachable!() };
        shared.store::<Put>(&mut seat, 0, 0);
        pass.badge = seat.into_badge();
    }

    /// Ends the lock and gives its value. The passes are all that were made, and none has the value in
    /// hand. It takes no memory.
    pub fn close(self, mut passes: Vec<Pass<T::Item, T::Root>>) -> T
        requires count { vec_len passes ≡ pass_count self }
        requires own { All (λ p. IsPassOf T.root self p × (has_in_hand p ≡ false)) passes.items }
        ensures root { T.root result ≡ T.root (first_value self) }
        ensures list { All (λ p. IsPrefix (seen_by p) (T.list result)) passes.items }
    {
        let Pass { badge } = passes.pop().unwrap();
        let mut all: PassSeat<T> = badge.into_seat();
        while let Some(pass) = passes.pop() {
            let Pass { badge } = pass;
            let seat: PassSeat<T> = badge.into_seat();
            self.table.shared.join_seat::<Unite>(&mut all, seat);
        }
        let TurnLock { table } = self;
        let mut closed = table.close_with(all);
        let slot = closed.take(0);
        closed.free();
        let Some(value) = slot else { unreachable!() };
        value
    }
}

impl<T: Standing> TurnLock<T> {
    ghost use Rattle.std.specs.Prelude.{◌≡◌, ◌+◌, ◌<◌, [], map, All, vec_len, vec_capacity};
    ghost use Rattle.std.specs.List.{range_with_len};
    ghost use Rattle.thread_lock.specs.Rule.{IsFirst};
    ghost use Rattle.thread_lock.specs.Passes.{first_value, IsPassOf, IsFresh, pass_number};

    // Splits the passes off the first one, which becomes the last of them.
    fn split_off(
        &self,
        mut first: PassSeat<T>,
        mut made: Vec<Pass<T::Item, T::Root>>,
        passes: usize,
    ) -> Vec<Pass<T::Item, T::Root>>
        requires first { IsFirst self.now.table.shared.table_id (T.root (first_value self.now)) (T.list (first_value self.now)) passes 0 first }
        requires made { (made.items ≡ []) × (vec_capacity made ≡ passes) × (0 < passes) }
        ensures numbers { (vec_len result ≡ passes) × (map pass_number result.items ≡ range_with_len 0 passes) }
        ensures passes { All (λ p. IsPassOf T.root self.now p × IsFresh (T.list (first_value self.now)) p) result.items }
    {
        for _k in 0..passes - 1 {
            let seat = self.table.shared.split_seat::<Branch>(&mut first);
            made.push_reserved(Pass {
                badge: seat.into_badge(),
            });
        }
        made.push_reserved(Pass {
            badge: first.into_badge(),
        });
        made
    }
}
