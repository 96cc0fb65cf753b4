//! The type of a set of numbers below a width, as bits in words of 64.
ghost use Rattle.std.specs.Prelude.{◌≡◌, ◌↔◌, ℕ, ◌<◌, ◌≤◌, ◌∷◌, [], not, nat_lt, length, true, false, IsTrue, IfOk, IfSome, IfNone};
ghost use Rattle.base.specs.Sets.{Has, put_in, union, minus};
ghost use Rattle.base_bits.specs.Rows.{is_in, common, IsSet, IsKept};
ghost use Rattle.base_bits.specs.Words.{members_of};

use crate::listing::listed;
use crate::set::Set;
use crate::words;
use base::NoMemory;
use std::alloc::Global;
use std::marker::Model;

/// A set of numbers below a width.
#[derive(Drop)]
pub struct Row {
    words: Vec<u64>,
    width: u32,
}

impl Model for Row {
    ghost use Rattle.base_bits.specs.Words.{members_of};
    ghost use Rattle.base_bits.specs.Rows.{Numbers, numbers_code, IsKept};

    ghost Value = { Numbers };

    ghost coded = { numbers_code };

    ghost view = { λ r. record { width = r.width; members = members_of r.words.items r.width } };

    ghost invariant = { λ r. IsKept r.words.items r.width };
}

impl Row {
    /// The empty set.
    pub fn new(alloc: Global, width: u32) -> Result<Self, NoMemory>
        ensures width { IfOk result (λ row. row.width ≡ width) }
        ensures members { IfOk result (λ row. row.members ≡ []) }
    {
        let count = width.div_ceil(64) as usize;
        let words = vec![in alloc; 0; count]?;
        Ok(Row { words, width })
    }

    /// The set that words show.
    pub(crate) fn of_words(words: Vec<u64>, width: u32) -> Row
        requires { IsKept words.items width }
        ensures { result ≡ record { width = width; members = members_of words.items width } }
    {
        Row { words, width }
    }

    /// The words that show the set.
    pub(crate) fn words(&self) -> &[u64]
        ensures kept { IsKept result.now self.now.width }
        ensures members { members_of result.now self.now.width ≡ self.now.members }
    {
        &self.words
    }

    /// The set, as one that is lent.
    pub fn as_set(&self) -> Set<'_>
        ensures { result ≡ self.now }
    {
        Set::of_words(&self.words, self.width)
    }

    /// Below which number all members are.
    pub fn width(&self) -> u32
        ensures { result ≡ self.now.width }
    {
        self.width
    }

    /// Does nothing; its contract says what each row keeps: its members rise, and are below the
    /// width.
    pub fn lemma_sorted(&self)
        ensures { IsSet self.now }
    {
        let _ = &self.words;
    }

    /// Whether a number is a member.
    pub fn has(&self, i: u32) -> bool
        requires { i < self.now.width }
        ensures { result ≡ is_in i self.now.members }
    {
        words::has(&self.words, i as usize)
    }

    /// The members, rising.
    pub fn members(&self, alloc: Global) -> Result<Vec<u32>, NoMemory>
        ensures { IfOk result (λ list. list.items ≡ self.now.members) }
    {
        listed(alloc, &self.words)
    }

    /// Puts a number in, and answers whether it was no member.
    pub fn insert(&mut self, i: u32) -> bool
        requires { i < self.old.width }
        ensures fresh { result ≡ not (is_in i self.old.members) }
        ensures width { self.new.width ≡ self.old.width }
        ensures members { self.new.members ≡ put_in nat_lt i self.old.members }
    {
        let had = words::has(&self.words, i as usize);
        words::put(&mut self.words, i as usize);
        !had
    }

    /// Takes a number out, and answers whether it was a member.
    pub fn remove(&mut self, i: u32) -> bool
        requires { i < self.old.width }
        ensures had { result ≡ is_in i self.old.members }
        ensures width { self.new.width ≡ self.old.width }
        ensures members { self.new.members ≡ minus nat_lt self.old.members (i ∷ []) }
    {
        let had = words::has(&self.words, i as usize);
        words::take(&mut self.words, i as usize);
        had
    }

    /// Takes all numbers out.
    pub fn clear(&mut self)
        ensures width { self.new.width ≡ self.old.width }
        ensures members { self.new.members ≡ [] }
    {
        words::clear(&mut self.words);
    }

    /// Makes this set the same as another one.
    pub fn copy_from(&mut self, other: &Row)
        requires { other.now.width ≡ self.old.width }
        ensures width { self.new.width ≡ self.old.width }
        ensures members { self.new.members ≡ other.now.members }
    {
        words::copy(&mut self.words, &other.words);
    }

    /// Sets it to the set that words show.
    pub fn put_words(&mut self, words: &[u64])
        requires { IsKept words.now self.old.width }
        ensures width { self.new.width ≡ self.old.width }
        ensures members { self.new.members ≡ members_of words.now self.old.width }
    {
        self.words.copy_from_slice(words);
    }

    /// Puts each member of another set in.
    pub fn insert_all(&mut self, other: &Row)
        requires { other.now.width ≡ self.old.width }
        ensures width { self.new.width ≡ self.old.width }
        ensures members { self.new.members ≡ union nat_lt other.now.members self.old.members }
    {
        words::put_all(&mut self.words, &other.words);
    }

    /// Takes each member of another set out.
    pub fn remove_all(&mut self, other: &Row)
        requires { other.now.width ≡ self.old.width }
        ensures width { self.new.width ≡ self.old.width }
        ensures members { self.new.members ≡ minus nat_lt self.old.members other.now.members }
    {
        words::take_all(&mut self.words, &other.words);
    }

    /// Keeps the members that another set has too.
    pub fn keep_all(&mut self, other: &Row)
        requires { other.now.width ≡ self.old.width }
        ensures width { self.new.width ≡ self.old.width }
        ensures members { self.new.members ≡ common self.old.members other.now.members }
    {
        words::keep_all(&mut self.words, &other.words);
    }

    /// Whether this set has no member.
    pub fn is_empty(&self) -> bool
        ensures some { result ≡ false → (i : ℕ) × Has i self.now.members }
        ensures none { result ≡ true → self.now.members ≡ [] }
    {
        !words::meet(&self.words, &self.words)
    }

    /// Whether this set and another one have a member in common.
    pub fn meets(&self, other: &Row) -> bool
        requires { other.now.width ≡ self.now.width }
        ensures some { result ≡ true → (i : ℕ) × Has i self.now.members × Has i other.now.members }
        ensures none { result ≡ false → (i : ℕ) → Has i self.now.members → Has i other.now.members → ⊥ }
    {
        words::meet(&self.words, &other.words)
    }

    /// Whether this set and another one have the same members.
    pub fn is_same(&self, other: &Row) -> bool
        requires { other.now.width ≡ self.now.width }
        ensures { IsTrue result ↔ (self.now.members ≡ other.now.members) }
    {
        words::are_same(&self.words, &other.words)
    }

    /// The least member from a number on.
    pub fn first_from(&self, from: u32) -> Option<u32>
        ensures some { IfSome result (λ i. (from ≤ i) × Has i self.now.members) }
        ensures least { IfSome result (λ i. (k : ℕ) → from ≤ k → Has k self.now.members → i ≤ k) }
        ensures none { IfNone result ((k : ℕ) → Has k self.now.members → k < from) }
    {
        words::next_common(&self.words, &self.words, from)
    }

    /// The least member from a number on that another set has too.
    pub fn first_common_from(&self, other: &Row, from: u32) -> Option<u32>
        requires { other.now.width ≡ self.now.width }
        ensures some { IfSome result (λ i. (from ≤ i) × Has i self.now.members × Has i other.now.members) }
        ensures least { IfSome result (λ i. (k : ℕ) → from ≤ k → Has k self.now.members → Has k other.now.members → i ≤ k) }
        ensures none { IfNone result ((k : ℕ) → Has k self.now.members → Has k other.now.members → k < from) }
    {
        words::next_common(&self.words, &other.words, from)
    }
}
