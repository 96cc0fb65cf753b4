//! The type of a pool: distinct items in a slab, each with the number of its holders, and their keys sorted by the items.
ghost use Rattle.std.specs.Prelude.{◌≡◌, ◌≢◌, ◌+◌, ◌^◌, ◌-◌, ◌<◌, ◌≤◌, ◌∷◌, [], ℕ, min, length, map, get_or, slice_get, Some, None, IsNone, IfSome, IfNone, IfOk, IfErr};
ghost use Rattle.std.specs.Prelude.{OnOk, OnErr, true, false};
ghost use Rattle.base.specs.Sets.{Has, put_in, minus};
ghost use Rattle.base_pool.specs.Pool.{slot, item_at, IsLive, IsAt, SameElsewhere, IsKeptAt, HasDistinctItems, HasHolders, IsSetOfItems, IsCountable};
ghost use Rattle.base_pool.specs.Sorted.{place_of, IsIndex, IsGap};

use base::{Cover, NoMemory};
use slab::Slab;
use std::alloc::Global;
use std::marker::Model;

/// A number that the pool gives to an item and that names it while it is live.
pub type Key = usize;

/// An item with the number of its holders.
#[derive(Drop)]
pub struct Counted<T> {
    item: T,
    count: u64,
}

/// Distinct items, each with the number of its holders, which is at least one.
///
/// A key names its item until the last holder is given back. `find` and `keep` take a logarithmic number of comparisons
/// in the number of live items; a fresh key or a lost one moves the later keys of the sorted index by a word.
pub struct Pool<T: Cover> {
    slab: Slab<Counted<T>>,
    sorted: Vec<Key>,
}

impl<T: Cover + Drop> Drop for Pool<T> {
    fn drop(self) {
        let Self { slab: _, sorted: _ } = self;
    }
}

impl<T: Cover> Model for Pool<T> {
    ghost use Rattle.std.specs.Prelude.{◌-◌, min, vec_len, vec_capacity};
    ghost use Rattle.slab.specs.Slab.{slab_len};
    ghost use Rattle.base_pool.specs.Pool.{Pooled, pooled_code, items_of};
    ghost use Rattle.base_pool.specs.Sorted.{IsIndex};

    ghost Value = { Pooled T };

    ghost coded = { pooled_code T.code };

    ghost view = { λ p. record {
      items = items_of p.slab.slots p.sorted.items;
      slots = p.slab.slots;
      spare = min (p.slab.capacity - slab_len p.slab) (vec_capacity p.sorted - vec_len p.sorted);
    } };

    ghost invariant = { λ p. IsIndex T.order p.slab.slots p.sorted.items };
}

// How many live keys have items that come before the item.
fn place<T: Cover>(slab: &Slab<Counted<T>>, sorted: &[Key], item: &T) -> usize
    requires { IsIndex T.order slab.now.slots sorted.now }
    ensures within { result ≤ length sorted.now }
    ensures below { (k : ℕ) (x : _) → k < result → slot slab.now.slots (place_of sorted.now k) ≡ Some x → T.order x.item item.now ≡ true }
    ensures above { (k : ℕ) (x : _) → result ≤ k → k < length sorted.now → slot slab.now.slots (place_of sorted.now k) ≡ Some x
        → T.order x.item item.now ≡ false }
{
    let mut low = 0;
    let mut high = sorted.len();
    while low < high {
        let middle = low + (high - low) / 2;
        if slab[sorted[middle]].item.before(item) {
            low = middle + 1;
        } else {
            high = middle;
        }
    }
    low
}

// The place of an equal item, or where the item would stand.
fn seek<T: Cover>(slab: &Slab<Counted<T>>, sorted: &[Key], item: &T) -> Result<usize, usize>
    requires { IsIndex T.order slab.now.slots sorted.now }
    ensures ok { IfOk result (λ i. i < length sorted.now
        × ((n : ℕ) × (slot slab.now.slots (place_of sorted.now i) ≡ Some (record { item = item.now; count = n })))) }
    ensures err { IfErr result (λ i. IsGap T.order slab.now.slots sorted.now item.now i) }
{
    let at = place(slab, sorted, item);
    if at < sorted.len() && !item.before(&slab[sorted[at]].item) {
        Ok(at)
    } else {
        Err(at)
    }
}

// The number of each item, by the item's key.
fn places<T: Cover>(
    alloc: Global,
    slab: &Slab<Counted<T>>,
    sorted: &[Key],
) -> Result<Vec<u32>, NoMemory>
    requires index { IsIndex T.order slab.now.slots sorted.now }
    requires few { length sorted.now ≤ 2 ^ 32 }
    ensures { IfOk result (λ places. (k : ℕ) → k < length sorted.now
        → (place_of sorted.now k < length places.items) × (get_or places.items (place_of sorted.now k) 0 ≡ k)) }
{
    let mut places = vec![in alloc; 0; slab.capacity()]?;
    for (number, key) in sorted.iter().enumerate() {
        places[*key] = number as u32;
    }
    Ok(places)
}

impl<T: Cover> Pool<T> {
    /// A pool of no items. It takes no memory; the pool grows by the allocator that it is given.
    pub fn new(alloc: Global) -> Self
        ensures none { result.items ≡ [] }
        ensures slots { (key : ℕ) → slot result.slots key ≡ None }
    {
        Pool {
            slab: Slab::new(alloc),
            sorted: Vec::new(alloc),
        }
    }

    /// Does nothing; its contract says what each pool keeps: its items are those of the live keys, each once, and rise in
    /// the canonical order; distinct live keys have distinct items, and each live key has a holder.
    pub fn lemma_plain(&self)
        ensures set { IsSetOfItems T.order self.now.slots self.now.items }
        ensures distinct { HasDistinctItems self.now.slots }
        ensures holders { HasHolders self.now.slots }
    {
        let _ = &self.slab;
    }

    /// How many distinct items are live.
    pub fn live(&self) -> usize
        ensures { result ≡ length self.now.items }
    {
        self.sorted.len()
    }

    /// The item of a live key.
    pub fn at(&self, key: Key) -> &T
        requires { IsLive self.now.slots key }
        ensures { IsAt self.now.slots key result.now }
    {
        &self.slab[key].item
    }

    /// How many holders a live key has.
    pub fn holders(&self, key: Key) -> u64
        requires { IsLive self.now.slots key }
        ensures { (c : _) → slot self.now.slots key ≡ Some c → result ≡ c.count }
    {
        self.slab[key].count
    }

    /// The item with a number: its place among the live items in the canonical order.
    pub fn nth(&self, number: usize) -> &T
        requires { number < length self.now.items }
        ensures { slice_get self.now.items number ≡ Some result.now }
    {
        &self.slab[self.sorted[number]].item
    }

    /// The number of an equal item.
    pub fn number_of(&self, item: &T) -> Option<usize>
        ensures some { IfSome result (λ number. slice_get self.now.items number ≡ Some item.now) }
        ensures none { IfNone result (Has item.now self.now.items → ⊥) }
    {
        match seek(&self.slab, &self.sorted, item) {
            Ok(number) => Some(number),
            Err(_) => None,
        }
    }

    /// The numbers of the items of these live keys.
    pub fn numbers(&self, alloc: Global, keys: &[Key]) -> Result<Vec<u32>, NoMemory>
        requires live { (key : ℕ) → Has key keys.now → IsLive self.now.slots key }
        requires few { length self.now.items ≤ 2 ^ 32 }
        ensures { IfOk result (λ numbers. map (slice_get self.now.items) numbers.items ≡ map (item_at self.now.slots) keys.now) }
    {
        let places = places(alloc, &self.slab, &self.sorted)?;
        let mut numbers = Vec::with_capacity(alloc, keys.len())?;
        for key in keys {
            numbers.push(places[*key])?;
        }
        Ok(numbers)
    }

    /// The live key of an equal item.
    pub fn find(&self, item: &T) -> Option<Key>
        ensures some { IfSome result (λ key. IsAt self.now.slots key item.now) }
        ensures none { IfNone result (Has item.now self.now.items → ⊥) }
    {
        match seek(&self.slab, &self.sorted, item) {
            Ok(i) => Some(self.sorted[i]),
            Err(_) => None,
        }
    }

    /// Makes room for `n` fresh items: the next `n` calls of `keep` can't be refused for want of memory.
    pub fn reserve(&mut self, n: usize) -> Result<(), NoMemory>
        ensures room { OnOk result (n ≤ self.new.spare) }
        ensures spare { self.old.spare ≤ self.new.spare }
        ensures items { self.new.items ≡ self.old.items }
        ensures slots { self.new.slots ≡ self.old.slots }
    {
        self.slab.reserve(n)?;
        self.sorted.reserve(n)?;
        Ok(())
    }

    /// One holder more of a live key.
    pub fn share(&mut self, key: Key)
        requires { (c : _) × (slot self.old.slots key ≡ Some c) × (c.count < 2 ^ 64 - 1) }
        ensures counted { (c : _) → slot self.old.slots key ≡ Some c → slot self.new.slots key ≡ Some (record c { count = c.count + 1 }) }
        ensures others { SameElsewhere self.old.slots self.new.slots key }
        ensures items { self.new.items ≡ self.old.items }
        ensures spare { self.new.spare ≡ self.old.spare }
    {
        self.slab[key].count += 1;
    }

    /// One holder more of an item: under its key where an equal item is live, and the given one is dropped; else the first
    /// holder of a fresh key. The item comes back only for want of memory, and never where there is spare room, or where it
    /// has as many holders as can be counted.
    pub fn keep(&mut self, item: T) -> Result<Key, T>
    where
        T: Drop,
        ensures kept { IfOk result (λ key. IsKeptAt self.old.slots self.new.slots item key) }
        ensures others { IfOk result (λ key. SameElsewhere self.old.slots self.new.slots key) }
        ensures items { OnOk result (self.new.items ≡ put_in T.order item self.old.items) }
        ensures back { IfErr result (λ back. back ≡ item) }
        ensures err_items { OnErr result (self.new.items ≡ self.old.items) }
        ensures err_slots { OnErr result (self.new.slots ≡ self.old.slots) }
        ensures only_without_spare { OnErr result (IsCountable self.old.slots item → self.old.spare ≡ 0) }
        ensures spare { self.old.spare ≤ self.new.spare + 1 }
    {
        match seek(&self.slab, &self.sorted, &item) {
            Ok(i) => {
                let key = self.sorted[i];
                let countable = self.slab[key].count < u64::MAX;
                if countable {
                    self.share(key);
                    Ok(key)
                } else {
                    Err(item)
                }
            }
            Err(i) => {
                if self.slab.reserve(1).is_err() || self.sorted.reserve(1).is_err() {
                    return Err(item);
                }
                let key = self.slab.insert_reserved(Counted { item, count: 1 });
                if self.sorted.insert(i, key).is_err() {
                    unreachable!();
                }
                Ok(key)
            }
        }
    }

    /// One holder fewer of a live key. The item comes back exactly where none is left, and then the key is dead.
    pub fn give_back(&mut self, key: Key) -> Option<T>
        requires { IsLive self.old.slots key }
        ensures some { IfSome result (λ item. (slot self.old.slots key ≡ Some (record { item = item; count = 1 })) × (slot self.new.slots key ≡ None)
            × (self.new.items ≡ minus T.order self.old.items (item ∷ []))) }
        ensures none { IfNone result ((c : _) × (slot self.old.slots key ≡ Some (record c { count = c.count + 1 }))
            × (slot self.new.slots key ≡ Some c) × (0 < c.count)) }
        ensures others { SameElsewhere self.old.slots self.new.slots key }
        ensures items { IfNone result (self.new.items ≡ self.old.items) }
        ensures spare { self.old.spare ≤ self.new.spare }
    {
        let shared = self.slab[key].count > 1;
        if shared {
            self.slab[key].count -= 1;
            return None;
        }
        let Ok(i) = seek(&self.slab, &self.sorted, &self.slab[key].item) else {
            unreachable!()
        };
        self.sorted.remove(i);
        Some(self.slab.remove(key).item)
    }
}
