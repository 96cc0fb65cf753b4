//! What a stock keeps for each link: what is offered there, needed there, and sent.
ghost use Rattle.std.specs.Prelude.{◌≡◌, ◌⊎◌, ℕ, ◌<◌, ◌≤◌, true, length, replicate, set, slice_get, Some, IfOk};
ghost use Rattle.base.specs.Sets.{Has};
ghost use Rattle.base_bits.specs.Rows.{is_in};
ghost use Rattle.server_stock.specs.Held.{row_at, with, without, wanted, wanted_numbers};
ghost use Rattle.server_stock.specs.Sides.{AreSides, IsDue, IsWide, turned, empty_side};

use crate::holders::Holders;
use base::{Cover, NoMemory};
use base_bits::Row;
use base_order::{Order, full_row, put_if, set_to};
use std::alloc::Global;

/// What is kept for a link: the numbers that are offered there, those of them that it needs, the
/// roots of these, and what the last change withdrew from the roots and added to them.
#[derive(Drop)]
pub(crate) struct Side {
    pub(crate) offered: Row,
    pub(crate) need: Row,
    pub(crate) roots: Row,
    pub(crate) withdrawn: Row,
    pub(crate) added: Row,
}

/// The rows of a link where all is offered and nothing needed.
pub(crate) fn fresh_side(alloc: Global, width: u32) -> Result<Side, NoMemory>
    ensures { IfOk result (λ side. side ≡ empty_side width) }
{
    Ok(Side {
        offered: full_row(alloc, width)?,
        need: Row::new(alloc, width)?,
        roots: Row::new(alloc, width)?,
        withdrawn: Row::new(alloc, width)?,
        added: Row::new(alloc, width)?,
    })
}

/// The rows of so many links that need nothing.
pub(crate) fn fresh_sides(alloc: Global, width: u32, links: u32) -> Result<Vec<Side>, NoMemory>
    ensures { IfOk result (λ sides. sides.items ≡ replicate links (empty_side width)) }
{
    let mut sides = Vec::new(alloc);
    for _ in 0..links {
        sides.push(fresh_side(alloc, width)?)?;
    }
    Ok(sides)
}

/// Has each of these numbers in the need exactly where another place holds it and it is offered.
fn renew(need: &mut Row, held: &Holders, offered: &Row, place: usize, changed: &[u32])
    requires place { place < length held.now.rows }
    requires changed { (i : ℕ) → Has i changed.now → i < held.now.width }
    requires offered { offered.now.width ≡ held.now.width }
    requires need { need.old.width ≡ held.now.width }
    ensures width { need.new.width ≡ need.old.width }
    ensures settled { (k : ℕ) → Has k changed.now → is_in k need.new.members ≡ wanted offered.now.members held.now.rows place k }
    ensures toward { (k : ℕ) → (is_in k need.new.members ≡ is_in k need.old.members)
        ⊎ (is_in k need.new.members ≡ wanted offered.now.members held.now.rows place k) }
{
    for i in changed {
        let needed = held.is_needed(place, *i);
        let is_offered = offered.has(*i);
        let _was = set_to(need, *i, needed & is_offered);
    }
}

/// Brings the rows of a link up to what is held now, where only these numbers can have left its
/// need, and only those have joined it.
pub(crate) fn turn<T: Cover>(
    order: &Order<T>,
    held: &Holders,
    place: usize,
    out: &[u32],
    add: &[u32],
    side: &mut Side,
)
    requires width { held.now.width ≡ length order.now }
    requires place { place < length held.now.rows }
    requires out { (i : ℕ) → Has i out.now → i < held.now.width }
    requires add { (i : ℕ) → Has i add.now → i < held.now.width }
    requires due { IsDue T.covering order.now held.now.rows out.now add.now place side.old }
    ensures { side.new ≡ turned T.covering order.now side.old.offered held.now.rows place side.old }
{
    side.need.lemma_sorted();
    renew(&mut side.need, held, &side.offered, place, out);
    renew(&mut side.need, held, &side.offered, place, add);
    side.need.lemma_sorted();
    order.reroot(
        &side.need,
        out,
        add,
        &mut side.roots,
        &mut side.withdrawn,
        &mut side.added,
    );
}

/// Brings the rows of each link up to what is held now.
fn turn_all<T: Cover>(
    order: &Order<T>,
    held: &Holders,
    out: &[u32],
    add: &[u32],
    sides: &mut [Side],
)
    requires width { held.now.width ≡ length order.now }
    requires few { length sides.old ≤ length held.now.rows }
    requires out { (i : ℕ) → Has i out.now → i < held.now.width }
    requires add { (i : ℕ) → Has i add.now → i < held.now.width }
    requires due { (p : ℕ) (s : Side) → slice_get sides.old p ≡ Some s
        → IsDue T.covering order.now held.now.rows out.now add.now p s }
    ensures length { length sides.new ≡ length sides.old }
    ensures each { (p : ℕ) (s : Side) → slice_get sides.old p ≡ Some s
        → slice_get sides.new p ≡ Some (turned T.covering order.now s.offered held.now.rows p s) }
{
    for p in 0..sides.len() {
        turn(order, held, p, out, add, &mut sides[p]);
    }
}

/// A place holds some numbers no more, and some others too. Brings the rows of each link up to this.
pub(crate) fn change<T: Cover>(
    order: &Order<T>,
    held: &mut Holders,
    place: usize,
    out: &[u32],
    add: &[u32],
    sides: &mut [Side],
)
    requires place { place < length held.old.rows }
    requires out { (i : ℕ) → Has i out.now → i < length order.now }
    requires add { (i : ℕ) → Has i add.now → i < length order.now }
    requires sides { AreSides T.covering order.now held.old sides.old }
    ensures rows { held.new.rows ≡ set held.old.rows place (with (without (row_at held.old.rows place) out.now) add.now) }
    ensures sides { AreSides T.covering order.now held.new sides.new }
    ensures links { length sides.new ≡ length sides.old }
    ensures each { (p : ℕ) (s : Side) → slice_get sides.old p ≡ Some s
        → slice_get sides.new p ≡ Some (turned T.covering order.now s.offered held.new.rows p s) }
{
    held.lemma_bounded();
    held.take_all(place, out);
    held.put_all(place, add);
    turn_all(order, held, out, add, sides);
}

/// Makes a row that of the numbers of another one that other places hold.
fn find_wanted(need: &mut Row, held: &Holders, offered: &Row, place: usize)
    requires place { place < length held.now.rows }
    requires offered { offered.now.width ≡ held.now.width }
    requires need { need.old.width ≡ held.now.width }
    ensures width { need.new.width ≡ need.old.width }
    ensures members { need.new.members ≡ wanted_numbers held.now.width offered.now.members held.now.rows place }
{
    need.clear();
    for i in 0..offered.width() {
        let needed = held.is_needed(place, i);
        let is_offered = offered.has(i);
        put_if(need, i, needed & is_offered);
    }
}

/// Brings the rows of a link up to what is offered there now.
pub(crate) fn offer<T: Cover>(
    order: &Order<T>,
    held: &Holders,
    place: usize,
    offered: &Row,
    side: &mut Side,
)
    requires width { held.now.width ≡ length order.now }
    requires place { place < length held.now.rows }
    requires offered { offered.now.width ≡ length order.now }
    requires side { IsWide (length order.now) side.old }
    ensures { side.new ≡ turned T.covering order.now offered.now held.now.rows place side.old }
{
    side.offered.copy_from(offered);
    find_wanted(&mut side.need, held, &side.offered, place);
    side.withdrawn.copy_from(&side.roots);
    order.roots(&side.need, &mut side.roots);
    side.added.copy_from(&side.roots);
    side.added.remove_all(&side.withdrawn);
    side.withdrawn.remove_all(&side.roots);
}
