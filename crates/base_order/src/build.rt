//! Builds the rows of which item covers which, out of a rising list of items.
ghost use Rattle.std.specs.Prelude.{◌≡◌, ℕ, ◌^◌, ◌<◌, ◌+◌, List, [], length, map, IfOk};
ghost use Rattle.std.specs.List.{range_with_len};
ghost use Rattle.base_order.specs.Order.{covers_at, stands_at, covered_row, covered_rows, above_rows, over_row, AreOver, HasSigns};
ghost use Rattle.base_order.specs.Columns.{full_row, HasCovered, Narrows};

use crate::columns::{Hints, full_row};
use crate::put::put_if;
use base::{Cover, NoMemory};
use base_bits::Row;
use base_pool::Items;
use std::alloc::Global;

/// The signatures of the items.
fn signatures<T: Cover>(alloc: Global, items: &Items<T>) -> Result<Vec<u64>, NoMemory>
    ensures { IfOk result (λ signs. HasSigns T.marked items.now signs.items) }
{
    let mut signs = Vec::with_capacity(alloc, items.len())?;
    for i in 0..items.len() {
        signs.push(items.at(i).signature())?;
    }
    Ok(signs)
}

/// For each item a word that decides nothing.
pub(crate) fn no_words<T: Cover>(alloc: Global, items: &Items<T>) -> Result<Vec<u64>, NoMemory>
    ensures { IfOk result (λ words. Narrows T.covering items.now words.items) }
{
    Ok(vec![in alloc; 0; items.len()]?)
}

/// Makes a row that of numbers among which are all that an item covers, by the signatures and by further words.
fn find_candidates<T: Cover>(
    items: &Items<T>,
    signs: &Hints,
    words: &Hints,
    all: &Row,
    i: usize,
    row: &mut Row,
)
    requires signs { HasSigns T.marked items.now signs.now }
    requires words { Narrows T.covering items.now words.now }
    requires all { all.now ≡ full_row (length items.now) }
    requires there { i < length items.now }
    requires row { row.old.width ≡ length items.now }
    ensures width { row.new.width ≡ length items.now }
    ensures covered { HasCovered T.covering items.now i row.new.members }
{
    let _ = items;
    row.copy_from(all);
    signs.narrow(i, row);
    words.narrow(i, row);
}

/// The numbers of those that an item covers, which are among the candidates.
fn covered_row<T: Cover>(
    alloc: Global,
    items: &Items<T>,
    candidates: &Row,
    i: usize,
) -> Result<Row, NoMemory>
    requires few { length items.now < 2 ^ 32 }
    requires there { i < length items.now }
    requires width { candidates.now.width ≡ length items.now }
    requires candidates { HasCovered T.covering items.now i candidates.now.members }
    ensures { IfOk result (λ row. row ≡ covered_row T.covering items.now i) }
{
    let mut row = Row::new(alloc, items.len() as u32)?;
    candidates.lemma_sorted();
    let mut at = 0;
    while let Some(j) = candidates.first_from(at) {
        let item = items.at(i);
        let other = items.at(j as usize);
        let covered = item.covers(other);
        put_if(&mut row, j, covered);
        at = j + 1;
    }
    Ok(row)
}

/// For each item the numbers of those that it covers.
pub(crate) fn covered_rows<T: Cover>(
    alloc: Global,
    items: &Items<T>,
    words: Vec<u64>,
) -> Result<Vec<Row>, NoMemory>
    requires few { length items.now < 2 ^ 32 }
    requires words { Narrows T.covering items.now words.items }
    ensures { IfOk result (λ rows. rows.items ≡ covered_rows T.covering items.now (length items.now)) }
{
    let signs = Hints::of(alloc, signatures(alloc, items)?)?;
    let words = Hints::of(alloc, words)?;
    let all = full_row(alloc, items.len() as u32)?;
    let mut candidates = Row::new(alloc, items.len() as u32)?;
    let mut rows = Vec::with_capacity(alloc, items.len())?;
    for i in 0..items.len() {
        find_candidates(items, &signs, &words, &all, i, &mut candidates);
        rows.push(covered_row(alloc, items, &candidates, i)?)?;
    }
    Ok(rows)
}

/// Whether an item stands over another one, by the rows of what both cover.
fn stands_over<T: Cover>(items: &Items<T>, covered: &[Row], i: usize, j: usize) -> bool
    requires covered { covered.now ≡ covered_rows T.covering items.now (length items.now) }
    requires few { length items.now < 2 ^ 32 }
    requires one { i < length items.now }
    requires other { j < length items.now }
    ensures { result ≡ stands_at T.covering items.now i j }
{
    let _ = items;
    let up = covered[i].has(j as u32);
    let down = covered[j].has(i as u32);
    up && (i < j || !down)
}

/// Puts a number into the row of an item where it stands over it.
fn put_over<T: Cover>(items: &Items<T>, covered: &[Row], i: usize, j: usize, row: &mut Row)
    requires covered { covered.now ≡ covered_rows T.covering items.now (length items.now) }
    requires few { length items.now < 2 ^ 32 }
    requires one { i < length items.now }
    requires other { j < length items.now }
    requires row { row.old ≡ over_row T.covering items.now i j }
    ensures { row.new ≡ over_row T.covering items.now (i + 1) j }
{
    let over = stands_over(items, covered, i, j);
    put_if(row, i as u32, over);
}

/// Puts a number into the row of each item that it stands over: it covers each of these.
fn raise<T: Cover>(items: &Items<T>, covered: &[Row], i: usize, above: &mut [Row])
    requires covered { covered.now ≡ covered_rows T.covering items.now (length items.now) }
    requires few { length items.now < 2 ^ 32 }
    requires there { i < length items.now }
    requires above { AreOver T.covering items.now i 0 above.old }
    ensures { AreOver T.covering items.now (i + 1) 0 above.new }
{
    let row = &covered[i];
    row.lemma_sorted();
    let mut at = 0;
    while let Some(j) = row.first_from(at) {
        put_over(items, covered, i, j as usize, &mut above[j as usize]);
        at = j + 1;
    }
}

/// Rows of so many items that nothing stands over.
fn empty_rows(alloc: Global, count: u32) -> Result<Vec<Row>, NoMemory>
    ensures { IfOk result (λ rows. rows.items ≡ map (λ j. record { width = count; members = [] }) (range_with_len 0 count)) }
{
    let mut rows = Vec::with_capacity(alloc, count as usize)?;
    for _ in 0..count {
        rows.push(Row::new(alloc, count)?)?;
    }
    Ok(rows)
}

/// For each item the numbers of those that stand over it, by what each covers.
pub(crate) fn above_rows<T: Cover>(
    alloc: Global,
    items: &Items<T>,
    covered: &[Row],
) -> Result<Vec<Row>, NoMemory>
    requires covered { covered.now ≡ covered_rows T.covering items.now (length items.now) }
    requires few { length items.now < 2 ^ 32 }
    ensures { IfOk result (λ rows. rows.items ≡ above_rows T.covering items.now (length items.now)) }
{
    let mut above = empty_rows(alloc, items.len() as u32)?;
    for i in 0..items.len() {
        raise(items, covered, i, &mut above);
    }
    Ok(above)
}
