//! Keeps the numbers that are held from each place, and how many places hold each number.
ghost use Rattle.std.specs.Prelude.{◌≡◌, ℕ, ◌<◌, length, replicate, true, IfOk, [], ◌∷◌};
ghost use Rattle.std.proofs.Math.ListN.{set};
ghost use Rattle.base.specs.Sets.{Has};
ghost use Rattle.base.specs.Numbers.{count};
ghost use Rattle.base_bits.specs.Rows.{IsSet};
ghost use Rattle.server_stock.specs.Held.{row_at, needs, without, with};

use base::NoMemory;
use base_bits::Row;
use std::alloc::Global;
use std::marker::Model;

/// The numbers that are held from each place.
#[derive(Drop)]
pub(crate) struct Holders {
    width: u32,
    counts: Vec<u32>,
    rows: Vec<Row>,
}

impl Model for Holders {
    ghost use Rattle.server_stock.specs.Held.{Held, held_code, IsCounted};

    ghost Value = { Held };

    ghost coded = { held_code };

    ghost view = { λ h. record { width = h.width; rows = h.rows.items } };

    ghost invariant = { λ h. IsCounted h.width h.counts.items h.rows.items };
}

impl Holders {
    /// Nothing is held.
    pub(crate) fn new(alloc: Global, width: u32, places: u32) -> Result<Self, NoMemory>
        ensures width { IfOk result (λ held. held.width ≡ width) }
        ensures rows { IfOk result (λ held. held.rows ≡ replicate places (record { width = width; members = [] })) }
    {
        let counts = vec![in alloc; 0; width as usize]?;
        let rows = empty_rows(alloc, width, places)?;
        Ok(Holders {
            width,
            counts,
            rows,
        })
    }

    /// Does nothing; its contract says what is kept of the row at a place.
    pub(crate) fn lemma_sorted(&self, place: usize)
        requires { place < length self.now.rows }
        ensures set { IsSet (row_at self.now.rows place) }
        ensures width { (row_at self.now.rows place).width ≡ self.now.width }
    {
        self.row(place).lemma_sorted();
    }

    /// Does nothing; by its contract what is needed is below the width.
    pub(crate) fn lemma_bounded(&self)
        ensures { (p k : ℕ) → needs self.now.rows p k ≡ true → k < self.now.width }
    {
        let _ = &self.rows;
    }

    /// The row of what is held from a place.
    pub(crate) fn row(&self, place: usize) -> &Row
        requires { place < length self.now.rows }
        ensures value { result.now ≡ row_at self.now.rows place }
        ensures width { result.now.width ≡ self.now.width }
    {
        &self.rows[place]
    }

    /// Whether a number is held from another place.
    pub(crate) fn is_needed(&self, place: usize, i: u32) -> bool
        requires place { place < length self.now.rows }
        requires number { i < self.now.width }
        ensures { result ≡ needs self.now.rows place i }
    {
        let own = self.row(place).has(i);
        self.counts[i as usize] > as_count(own)
    }

    /// A number is held from a place no more.
    fn take(&mut self, place: usize, i: u32)
        requires place { place < length self.old.rows }
        requires number { i < self.old.width }
        ensures width { self.new.width ≡ self.old.width }
        ensures rows { self.new.rows ≡ set self.old.rows place (without (row_at self.old.rows place) (i ∷ [])) }
    {
        let had = self.rows[place].remove(i);
        self.counts[i as usize] -= as_count(had);
    }

    /// A number is held from a place.
    fn put(&mut self, place: usize, i: u32)
        requires place { place < length self.old.rows }
        requires number { i < self.old.width }
        ensures width { self.new.width ≡ self.old.width }
        ensures rows { self.new.rows ≡ set self.old.rows place (with (row_at self.old.rows place) (i ∷ [])) }
    {
        let fresh = self.rows[place].insert(i);
        self.counts[i as usize] += as_count(fresh);
    }

    /// These numbers are held from a place no more.
    pub(crate) fn take_all(&mut self, place: usize, out: &[u32])
        requires place { place < length self.old.rows }
        requires out { (i : ℕ) → Has i out.now → i < self.old.width }
        ensures width { self.new.width ≡ self.old.width }
        ensures rows { self.new.rows ≡ set self.old.rows place (without (row_at self.old.rows place) out.now) }
    {
        self.lemma_sorted(place);
        for i in out {
            self.take(place, *i);
        }
    }

    /// These numbers are held from a place.
    pub(crate) fn put_all(&mut self, place: usize, add: &[u32])
        requires place { place < length self.old.rows }
        requires add { (i : ℕ) → Has i add.now → i < self.old.width }
        ensures width { self.new.width ≡ self.old.width }
        ensures rows { self.new.rows ≡ set self.old.rows place (with (row_at self.old.rows place) add.now) }
    {
        self.lemma_sorted(place);
        for i in add {
            self.put(place, *i);
        }
    }
}

/// 1 where it holds, else 0.
fn as_count(holds: bool) -> u32
    ensures { result ≡ count holds }
{
    if holds { 1 } else { 0 }
}

/// So many empty rows.
fn empty_rows(alloc: Global, width: u32, places: u32) -> Result<Vec<Row>, NoMemory>
    ensures { IfOk result (λ rows. rows.items ≡ replicate places (record { width = width; members = [] })) }
{
    let mut rows = Vec::new(alloc);
    for _ in 0..places {
        rows.push(Row::new(alloc, width)?)?;
    }
    Ok(rows)
}
