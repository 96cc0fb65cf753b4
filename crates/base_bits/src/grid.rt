//! The type of rows of one width in one vector of words.
ghost use Rattle.std.specs.Prelude.{◌≡◌, ◌↔◌, ℕ, ◌*◌, ◌/◌, ◌%◌, ◌^◌, ◌<◌, ◌≤◌, not, nat_lt, length, replicate, slice_set, [], IfOk};
ghost use Rattle.base.specs.Sets.{Has, IsRising};
ghost use Rattle.base_bits.specs.Words.{IsPickedOf};
ghost use Rattle.base_bits.specs.Rows.{is_in};
ghost use Rattle.base_bits.specs.Grid.{row_of, with_number, without_number, IsJoinedFrom, spot};

use crate::listing::list_word;
use crate::row::Row;
use crate::set::Set;
use crate::words;
use base::NoMemory;
use std::alloc::Global;
use std::marker::Model;

/// Rows of one width, which are numbered from 0 on. Each is a set of numbers below the width.
#[derive(Drop)]
pub struct Grid {
    /// The first words of all rows, then the second ones, and so on.
    words: Vec<u64>,
    span: usize,
    count: u32,
    width: u32,
}

impl Model for Grid {
    ghost use Rattle.base_bits.specs.Grid.{Table, table_code, table_of, IsGrid};

    ghost Value = { Table };

    ghost coded = { table_code };

    ghost view = { λ g. table_of g.words.items g.count g.width };

    ghost invariant = { λ g. IsGrid g.words.items g.span g.count g.width };
}

/// The place of the bit of a number in a row, where there are so many rows.
fn place(count: u32, row: u32, i: u32) -> usize
    requires { row < count }
    ensures { result ≡ spot count row i }
{
    let word = (i / 64) as usize * count as usize + row as usize;
    word * 64 + (i % 64) as usize
}

/// The members of the union of the rows whose numbers two sets have in common, rising, by the bits of their words.
fn joined_bits(
    alloc: Global,
    words: &[u64],
    count: u32,
    numbers: &Set<'_>,
    others: &Row,
    span: usize,
) -> Result<Vec<u32>, NoMemory>
    requires long { length words.now ≡ span * count }
    requires short { span ≤ 2 ^ 26 }
    requires numbers { numbers.now.width ≡ count }
    requires others { others.now.width ≡ numbers.now.width }
    ensures rising { IfOk result (λ list. IsRising nat_lt list.items) }
    ensures exact { IfOk result (λ list. (i : ℕ) → Has i list.items
        ↔ ((i < 64 * span) × IsPickedOf words.now (i / 64 * count) numbers.now.members others.now.members (i % 64))) }
{
    let mut list = Vec::new(alloc);
    for k in 0..span {
        let word = numbers.picked(words, k * count as usize, others);
        list.reserve(word.count_ones() as usize)?;
        list_word(&mut list, k as u32, word)?;
    }
    Ok(list)
}

impl Grid {
    /// So many rows without a member.
    pub fn new(alloc: Global, rows: u32, width: u32) -> Result<Self, NoMemory>
        ensures width { IfOk result (λ grid. grid.width ≡ width) }
        ensures rows { IfOk result (λ grid. grid.rows ≡ replicate rows (record { width = width; members = [] })) }
    {
        let span = width.div_ceil(64) as usize;
        let words = vec![in alloc; 0; span * rows as usize]?;
        Ok(Grid {
            words,
            span,
            count: rows,
            width,
        })
    }

    /// Puts a number into a row, and answers whether it was no member.
    pub fn insert(&mut self, row: u32, i: u32) -> bool
        requires row { row < length self.old.rows }
        requires number { i < self.old.width }
        ensures fresh { result ≡ not (is_in i (row_of self.old.rows row).members) }
        ensures width { self.new.width ≡ self.old.width }
        ensures rows { self.new.rows ≡ slice_set self.old.rows row (with_number i (row_of self.old.rows row)) }
    {
        let at = place(self.count, row, i);
        let had = words::has(&self.words, at);
        words::put(&mut self.words, at);
        !had
    }

    /// Takes a number out of a row, and answers whether it was a member.
    pub fn remove(&mut self, row: u32, i: u32) -> bool
        requires row { row < length self.old.rows }
        requires number { i < self.old.width }
        ensures had { result ≡ is_in i (row_of self.old.rows row).members }
        ensures width { self.new.width ≡ self.old.width }
        ensures rows { self.new.rows ≡ slice_set self.old.rows row (without_number i (row_of self.old.rows row)) }
    {
        let at = place(self.count, row, i);
        let had = words::has(&self.words, at);
        words::take(&mut self.words, at);
        had
    }

    /// The members of the union of the rows whose numbers two sets have in common, rising.
    pub fn joined(
        &self,
        alloc: Global,
        numbers: &Set<'_>,
        others: &Row,
    ) -> Result<Vec<u32>, NoMemory>
        requires numbers { numbers.now.width ≡ length self.now.rows }
        requires others { others.now.width ≡ numbers.now.width }
        ensures rising { IfOk result (λ list. IsRising nat_lt list.items) }
        ensures within { IfOk result (λ list. (i : ℕ) → Has i list.items → i < self.now.width) }
        ensures members { IfOk result (λ list. (i : ℕ) → Has i list.items ↔ IsJoinedFrom self.now.rows numbers.now.members others.now.members i) }
    {
        numbers.lemma_sorted();
        let list = joined_bits(alloc, &self.words, self.count, numbers, others, self.span)?;
        Ok(list)
    }
}
