//! Finds which items an item may cover, by the bits of their signatures as rows of bits.
ghost use Rattle.std.specs.Prelude.{◌≡◌, ℕ, ◌^◌, ◌<◌, ◌==◌, length, cond, IfOk, slice_index};
ghost use Rattle.std.specs.Int.{bit_at};
ghost use Rattle.base.specs.Sets.{Has};
ghost use Rattle.base_bits.specs.Rows.{common};
ghost use Rattle.base_order.specs.Columns.{may_have, MayCover, column_row, column_rows, full_row};

use crate::put::put_if;
use base::NoMemory;
use base_bits::Row;
use std::alloc::Global;
use std::marker::Model;

/// A word for each item, with the rows of the bits: they show of most items that one does not cover the other.
#[derive(Drop)]
pub(crate) struct Hints {
    words: Vec<u64>,
    columns: Vec<Row>,
}

impl Model for Hints {
    ghost use Rattle.std.specs.Prelude.{◌≡◌, ℕ, List};
    ghost use Rattle.base_order.specs.Columns.{column_rows};

    ghost Value = { List ℕ };

    ghost view = { λ h. h.words.items };

    ghost invariant = { λ h. h.columns.items ≡ column_rows h.words.items 64 };
}

/// Whether a signature has a bit.
fn has_bit(sign: u64, bit: u32) -> bool
    requires { bit < 64 }
    ensures { result ≡ (bit_at sign bit == 1) }
{
    sign >> bit & 1 == 1
}

/// Whether a signature has a bit, or is 0 and decides nothing.
fn may_have(sign: u64, bit: u32) -> bool
    requires { bit < 64 }
    ensures { result ≡ may_have sign bit }
{
    sign == 0 || has_bit(sign, bit)
}

/// The numbers of the items whose signature may have a bit.
fn column(alloc: Global, signs: &[u64], bit: u32) -> Result<Row, NoMemory>
    requires few { length signs.now < 2 ^ 32 }
    requires bit { bit < 64 }
    ensures { IfOk result (λ row. row ≡ column_row signs.now bit) }
{
    let mut row = Row::new(alloc, signs.len() as u32)?;
    for j in 0..signs.len() {
        let may = may_have(signs[j], bit);
        put_if(&mut row, j as u32, may);
    }
    Ok(row)
}

/// For each bit of a signature the numbers of the items that may have it.
fn columns(alloc: Global, signs: &[u64]) -> Result<Vec<Row>, NoMemory>
    requires { length signs.now < 2 ^ 32 }
    ensures { IfOk result (λ columns. columns.items ≡ column_rows signs.now 64) }
{
    let mut columns = Vec::with_capacity(alloc, 64)?;
    for bit in 0..64 {
        columns.push(column(alloc, signs, bit)?)?;
    }
    Ok(columns)
}

/// The row of all numbers below a width.
pub fn full_row(alloc: Global, width: u32) -> Result<Row, NoMemory>
    ensures { IfOk result (λ row. row ≡ full_row width) }
{
    let mut row = Row::new(alloc, width)?;
    for j in 0..width {
        row.insert(j);
    }
    Ok(row)
}

/// Keeps in a row what another one has too, where that holds.
fn keep_if(row: &mut Row, other: &Row, holds: bool)
    requires { other.now.width ≡ row.old.width }
    ensures width { row.new.width ≡ row.old.width }
    ensures members { row.new.members ≡ cond holds (common row.old.members other.now.members) row.old.members }
{
    if holds {
        row.keep_all(other);
    }
}

/// Takes out of a row numbers of items that an item with this signature doesn't cover, as the bits of the signatures show.
fn narrow(columns: &[Row], signs: &[u64], sign: u64, row: &mut Row)
    requires columns { columns.now ≡ column_rows signs.now 64 }
    requires width { row.old.width ≡ length signs.now }
    ensures width { row.new.width ≡ row.old.width }
    ensures kept { (j : ℕ) → Has j row.old.members → j < length signs.now → MayCover sign (slice_index signs.now j) → Has j row.new.members }
{
    let _ = signs;
    for bit in 0..64_u32 {
        let holds = has_bit(sign, bit);
        keep_if(row, &columns[bit as usize], holds);
    }
}

impl Hints {
    /// The hints of these words.
    pub(crate) fn of(alloc: Global, words: Vec<u64>) -> Result<Hints, NoMemory>
        requires { length words.items < 2 ^ 32 }
        ensures { IfOk result (λ hints. hints ≡ words.items) }
    {
        let columns = columns(alloc, &words)?;
        Ok(Hints { words, columns })
    }

    /// Takes out of a row numbers of items that an item doesn't cover, as the words show.
    pub(crate) fn narrow(&self, i: usize, row: &mut Row)
        requires there { i < length self.now }
        requires width { row.old.width ≡ length self.now }
        ensures width { row.new.width ≡ row.old.width }
        ensures kept { (j : ℕ) → Has j row.old.members → j < length self.now → MayCover (slice_index self.now i) (slice_index self.now j)
            → Has j row.new.members }
    {
        narrow(&self.columns, &self.words, self.words[i], row);
    }
}
