//! The history of a set.
use crate::words::{copy, has, turn, turn_all};
use base::NoMemory;
use std::alloc::Global;
use std::marker::Model;

/// So many changes stand between two marks.
const STEP: usize = 32;

/// A set of numbers as words, and the numbers that change after one another: one that is no member is put in, a member is taken
/// out. A mark is the set whole.
#[derive(Drop)]
pub struct History {
    span: usize,
    count: usize,
    marks: Vec<u64>,
    changes: Vec<u16>,
    present: Vec<u64>,
}

impl Model for History {
    ghost use Rattle.std.specs.Prelude.{take};
    ghost use Rattle.match_cells.specs.Changes.{Past, IsKept};

    ghost Value = { Past };

    ghost view = { λ h. record { first = take h.span h.marks.items; changes = h.changes.items } };

    ghost invariant = { λ h. IsKept h.span h.count h.marks.items h.present.items (take h.span h.marks.items) h.changes.items };
}

impl History {
    ghost use Rattle.std.specs.Prelude.{◌≡◌, ◌+◌, ◌*◌, ◌<◌, ◌≤◌, ◌++◌, ◌∷◌, ◌==◌, [], length, IfOk, OnOk};
    ghost use Rattle.base_bits.specs.Words.{bit};
    ghost use Rattle.match_cells.specs.Changes.{after, IsPut};

    /// A history that begins with these words.
    pub fn of(alloc: Global, first: &[u64]) -> Result<History, NoMemory>
        ensures { IfOk result (λ history. history ≡ record { first = first.now; changes = [] }) }
    {
        let marks = Vec::from_slice(alloc, first)?;
        let present = Vec::from_slice(alloc, first)?;
        Ok(History {
            span: first.len(),
            count: 1,
            marks,
            changes: Vec::new(alloc),
            present,
        })
    }

    /// How many changes there are.
    pub fn len(&self) -> usize
        ensures { result ≡ length self.now.changes }
    {
        self.changes.len()
    }

    /// How many words a set takes.
    pub fn span(&self) -> usize
        ensures { result ≡ length self.now.first }
    {
        self.span
    }

    /// Whether a number is a member now.
    pub fn has(&self, k: u16) -> bool
        requires { k < 64 * length self.now.first }
        ensures { result ≡ (bit (after self.now.first self.now.changes (length self.now.changes)) k == 1) }
    {
        has(&self.present, k as usize)
    }

    /// Changes one number.
    pub fn turn(&mut self, k: u16) -> Result<(), NoMemory>
        requires { k < 64 * length self.old.first }
        ensures first { self.new.first ≡ self.old.first }
        ensures changes { OnOk result (self.new.changes ≡ self.old.changes ++ k ∷ []) }
    {
        self.changes.push(k)?;
        turn(&mut self.present, k as usize);
        if self.changes.len() == self.count * STEP {
            self.marks.extend_from_slice(&self.present)?;
            self.count += 1;
        }
        Ok(())
    }

    /// Puts a number in or takes it out, where it isn't so already.
    pub fn put(&mut self, k: u16, is: bool) -> Result<(), NoMemory>
        requires { k < 64 * length self.old.first }
        ensures { OnOk result (IsPut k is self.old self.new) }
    {
        if self.has(k) != is {
            self.turn(k)?;
        }
        Ok(())
    }

    /// The words after so many changes.
    pub fn read(&self, r: usize, into: &mut [u64])
        requires known { r ≤ length self.now.changes }
        requires wide { length into.old ≡ length self.now.first }
        ensures { into.new ≡ after self.now.first self.now.changes r }
    {
        let mark = (r / STEP).min(self.count - 1);
        copy(into, &self.marks, mark * self.span);
        turn_all(into, &self.changes, mark * STEP, r);
    }
}
