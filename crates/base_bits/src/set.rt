//! The types of a set of numbers below a width: one that is lent, and one with memory of its own.
ghost use Rattle.std.specs.Prelude.{◌≡◌, ◌↔◌, ℕ, ◌+◌, ◌<◌, ◌≤◌, nat_lt, length, IsTrue, IfOk, IfSome, IfNone};
ghost use Rattle.std.specs.Int.{bit_at};
ghost use Rattle.base.specs.Sets.{Has, IsRising};
ghost use Rattle.base_bits.specs.Rows.{IsSet, IsKept};
ghost use Rattle.base_bits.specs.Words.{members_of, IsPickedOf};

use crate::picked::{picked_by_both, picked_by_list};
use crate::row::Row;
use crate::words;
use base::NoMemory;
use std::alloc::Global;
use std::marker::Model;

/// A set of numbers below a width, which lies with whoever keeps it.
#[derive(Drop)]
pub struct Set<'a> {
    pub(crate) width: u32,
    /// The members, rising, where no words show them.
    pub(crate) list: &'a [u16],
    /// The words that show the members; none where the members are listed.
    pub(crate) words: &'a [u64],
}

impl<'a> Model for Set<'a> {
    ghost use Rattle.base_bits.specs.Rows.{Numbers, numbers_code};
    ghost use Rattle.base_bits.specs.Sets.{set_by, IsSetBy};

    ghost Value = { Numbers };

    ghost coded = { numbers_code };

    ghost view = { λ s. set_by s.list.now s.words.now s.width };

    ghost invariant = { λ s. IsSetBy s.list.now s.words.now s.width };
}

impl<'a> Set<'a> {
    /// The set that words show.
    pub(crate) fn of_words(words: &'a [u64], width: u32) -> Set<'a>
        requires { IsKept words.now width }
        ensures { result ≡ record { width = width; members = members_of words.now width } }
    {
        Set {
            width,
            list: &[],
            words,
        }
    }

    /// Below which number all members are.
    pub fn width(&self) -> u32
        ensures { result ≡ self.now.width }
    {
        self.width
    }

    /// Does nothing; its contract says what each set keeps: its members rise, and are below the width.
    pub fn lemma_sorted(&self)
        ensures { IsSet self.now }
    {
        let _ = &self.words;
    }

    /// The union of those of the words from a place on whose turn is a number that another set has too.
    pub(crate) fn picked(&self, words: &[u64], from: usize, others: &Row) -> u64
        requires width { others.now.width ≡ self.now.width }
        requires from { from ≤ length words.now }
        requires within { (i : ℕ) → i < self.now.width → from + i < length words.now }
        ensures { (q : ℕ) → (bit_at result q ≡ 1) ↔ IsPickedOf words.now from self.now.members others.now.members q }
    {
        if self.words.is_empty() {
            return picked_by_list(words, from, self.list, others.words());
        }
        picked_by_both(words, from, self.words, others.words())
    }

    /// The least member from a number on.
    fn first_from(&self, from: u32) -> Option<u32>
        ensures some { IfSome result (λ i. (from ≤ i) × Has i self.now.members) }
        ensures least { IfSome result (λ i. (k : ℕ) → from ≤ k → Has k self.now.members → i ≤ k) }
        ensures none { IfNone result ((k : ℕ) → Has k self.now.members → k < from) }
    {
        if self.words.is_empty() {
            return next_listed(self.list, from);
        }
        words::next_common(self.words, self.words, from)
    }

    /// Whether this set and another one have the same members.
    pub fn is_same(&self, other: &Set<'_>) -> bool
        ensures { IsTrue result ↔ (self.now.members ≡ other.now.members) }
    {
        if self.words.len() != other.words.len() {
            return have_same_members(self, other);
        }
        if self.words.is_empty() {
            return self.list == other.list;
        }
        words::are_same(self.words, other.words)
    }

    /// The same set, with memory of its own.
    pub fn owned(&self, alloc: Global) -> Result<OwnedSet, NoMemory>
        ensures { IfOk result (λ owned. owned ≡ self.now) }
    {
        let list = Vec::from_slice(alloc, self.list)?;
        let words = Vec::from_slice(alloc, self.words)?;
        Ok(OwnedSet {
            width: self.width,
            list,
            words,
        })
    }
}

/// The least number of a rising list from one on.
fn next_listed(list: &[u16], from: u32) -> Option<u32>
    requires { IsRising nat_lt list.now }
    ensures some { IfSome result (λ i. (from ≤ i) × Has i list.now) }
    ensures least { IfSome result (λ i. (k : ℕ) → from ≤ k → Has k list.now → i ≤ k) }
    ensures none { IfNone result ((k : ℕ) → Has k list.now → k < from) }
{
    for k in 0..list.len() {
        if from <= u32::from(list[k]) {
            return Some(u32::from(list[k]));
        }
    }
    None
}

/// Whether two sets have the same members, of which one may be listed and the other shown by words.
fn have_same_members(one: &Set<'_>, other: &Set<'_>) -> bool
    ensures { IsTrue result ↔ (one.now.members ≡ other.now.members) }
{
    one.lemma_sorted();
    other.lemma_sorted();
    let mut at = 0;
    while let Some(number) = one.first_from(at) {
        let Some(found) = other.first_from(at) else {
            return false;
        };
        if found != number {
            return false;
        }
        at = number + 1;
    }
    other.first_from(at).is_none()
}

/// A set of numbers below a width, with memory of its own.
#[derive(Drop)]
pub struct OwnedSet {
    width: u32,
    list: Vec<u16>,
    words: Vec<u64>,
}

impl Model for OwnedSet {
    ghost use Rattle.base_bits.specs.Rows.{Numbers, numbers_code};
    ghost use Rattle.base_bits.specs.Sets.{set_by, IsSetBy};

    ghost Value = { Numbers };

    ghost coded = { numbers_code };

    ghost view = { λ s. set_by s.list.items s.words.items s.width };

    ghost invariant = { λ s. IsSetBy s.list.items s.words.items s.width };
}

impl OwnedSet {
    /// The set, as one that is lent.
    pub fn as_set(&self) -> Set<'_>
        ensures { result ≡ self.now }
    {
        Set {
            width: self.width,
            list: &self.list,
            words: &self.words,
        }
    }
}
