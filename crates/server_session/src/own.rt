//! Changes a client's own set, which is a row of numbers.
ghost use Rattle.std.specs.Prelude.{◌≡◌, ◌<◌, ◌↔◌, ℕ, nat_lt, not, length, ◌∷◌, [], filter, slice_get, Some, IfOk};
ghost use Rattle.base.specs.Sets.{Has, union, minus};
ghost use Rattle.base_order.specs.Order.{picked};
ghost use Rattle.std.specs.Prelude.{◌-◌, ◌^◌, vec_len, vec_capacity};
ghost use Rattle.server_session.specs.Moved.{IsMoved, gone, come};
ghost use Rattle.server_session.specs.Own.{IsWithin, filters_moved, adverts_moved, moved_row, refusals_by, publishes_by};

use crate::planned::{Moved, Planned};
use base::{Cover, NoMemory};
use base_bits::Row;
use base_order::Order;
use filter_text::Lists;
use std::alloc::Global;

/// What adding an item adds: it alone, or nothing where it is there.
pub(crate) fn added<T: Cover>(order: &Order<T>, row: &Row, i: u32) -> Moved
    requires width { row.now.width ≡ length order.now }
    requires there { i < length order.now }
    ensures { (x : T) → slice_get order.now i ≡ Some x
        → IsMoved T.order order.now (picked order.now row.now.members) (union T.order (x ∷ []) (picked order.now row.now.members)) result }
{
    order.lemma_sorted();
    row.lemma_sorted();
    if row.has(i) {
        Moved::Nothing
    } else {
        Moved::Added(i)
    }
}

/// The numbers that two sets have in common, rising.
fn common(alloc: Global, row: &Row, other: &Row) -> Result<Vec<u32>, NoMemory>
    requires { other.now.width ≡ row.now.width }
    ensures { IfOk result (λ list. (k : ℕ) → Has k list.items ↔ (Has k row.now.members × Has k other.now.members)) }
{
    row.lemma_sorted();
    let mut list = Vec::new(alloc);
    let mut at = 0;
    while let Some(i) = row.first_common_from(other, at) {
        list.push(i)?;
        at = i + 1;
    }
    Ok(list)
}

/// What withdrawing by an item takes: all that it covers.
pub(crate) fn withdrawn<T: Cover>(
    alloc: Global,
    order: &Order<T>,
    row: &Row,
    i: u32,
) -> Result<Moved, NoMemory>
    requires width { row.now.width ≡ length order.now }
    requires there { i < length order.now }
    ensures { (x : T) → slice_get order.now i ≡ Some x
        → IfOk result (IsMoved T.order order.now (picked order.now row.now.members) (filter (λ y. not (T.covering x y)) (picked order.now row.now.members))) }
{
    order.lemma_sorted();
    row.lemma_sorted();
    let list = common(alloc, row, order.covered_by(i))?;
    Ok(Moved::Withdrawn(Lists::of(list)))
}

/// Takes these numbers out.
fn take_out(row: &mut Row, numbers: &[u32])
    requires { (i : ℕ) → Has i numbers.now → i < row.old.width }
    ensures width { row.new.width ≡ row.old.width }
    ensures members { row.new.members ≡ minus nat_lt row.old.members numbers.now }
{
    row.lemma_sorted();
    for i in numbers {
        row.remove(*i);
    }
}

/// Makes a change of the set. It takes no memory.
pub(crate) fn shift(row: &mut Row, moved: &Moved)
    requires gone { (i : ℕ) → Has i (gone moved.now) → i < row.old.width }
    requires come { (i : ℕ) → Has i (come moved.now) → i < row.old.width }
    ensures width { row.new.width ≡ row.old.width }
    ensures members { row.new.members ≡ union nat_lt (come moved.now) (minus nat_lt row.old.members (gone moved.now)) }
{
    row.lemma_sorted();
    match moved {
        Moved::Nothing => {}
        Moved::Added(i) => {
            row.insert(*i);
        }
        Moved::Withdrawn(list) => take_out(row, list.as_slice()),
    }
}

/// What a client has after some commands: its filters and its advertisements, the ordinals of its refused publishes, and how
/// many publishes there were.
#[derive(Drop)]
pub(crate) struct Own {
    pub filters: Row,
    pub adverts: Row,
    pub refused: Vec<u32>,
    pub publishes: u32,
}

impl Own {
    /// Does what is planned, for which there is room for one more refusal. It takes no memory.
    pub fn commit(&mut self, planned: &Planned)
        requires filters { IsWithin self.old.filters.width (filters_moved planned.now) }
        requires adverts { IsWithin self.old.adverts.width (adverts_moved planned.now) }
        requires refused { vec_len self.old.refused < vec_capacity self.old.refused }
        requires publishes { self.old.publishes < 2 ^ 32 - 1 }
        ensures filters { self.new.filters ≡ moved_row (filters_moved planned.now) self.old.filters }
        ensures adverts { self.new.adverts ≡ moved_row (adverts_moved planned.now) self.old.adverts }
        ensures refused { self.new.refused.items ≡ refusals_by planned.now self.old.refused.items }
        ensures publishes { self.new.publishes ≡ publishes_by planned.now self.old.publishes }
    {
        match planned {
            Planned::Filters(moved) => shift(&mut self.filters, moved),
            Planned::Adverts(moved) => shift(&mut self.adverts, moved),
            Planned::Publish { .. } => self.publishes += 1,
            Planned::Refused { ordinal } => {
                self.refused.push(*ordinal).unwrap();
                self.publishes += 1;
            }
        }
    }
}
