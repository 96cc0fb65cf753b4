//! The type of many sets of numbers below one width.
ghost use Rattle.std.specs.Prelude.{◌≡◌, ℕ, ◌+◌, ◌^◌, ◌<◌, ◌≤◌, ◌∷◌, ◌++◌, [], true, length, IfOk, OnOk, OnErr, MatchResult};
ghost use Rattle.base.specs.Sets.{Has};
ghost use Rattle.base_bits.specs.Grid.{row_of};
ghost use Rattle.base_bits.specs.Sets.{Begins, set_at, IsPlaced};
ghost use Rattle.base_bits.specs.declared.place.Place.TheVariants.{Listed, Shown};

use crate::listing::{count, listed};
use crate::place::Place;
use crate::set::Set;
use base::NoMemory;
use std::alloc::Global;
use std::marker::Model;

/// The numbers, as ones of 16 bits.
fn shortened(alloc: Global, numbers: &[u32]) -> Result<Vec<u16>, NoMemory>
    requires { (i : ℕ) → Has i numbers.now → i < 2 ^ 16 }
    ensures { IfOk result (λ list. list.items ≡ numbers.now) }
{
    let mut list = Vec::with_capacity(alloc, numbers.len())?;
    for k in 0..numbers.len() {
        list.push(numbers[k] as u16)?;
    }
    Ok(list)
}

/// Puts a list at the end of the lists, which stay as they are where there is no memory.
fn put_list(lists: &mut Vec<u16>, list: &[u16]) -> Result<Place, NoMemory>
    ensures lists { MatchResult result (λ _. lists.new.items ≡ lists.old.items ++ list.now) (λ _. lists.new.items ≡ lists.old.items) }
    ensures place { IfOk result (λ place. place ≡ Listed (length lists.old.items) (length lists.old.items + length list.now)) }
{
    let from = lists.len();
    lists.extend_from_slice(list)?;
    Ok(Place::Listed {
        from,
        to: lists.len(),
    })
}

/// Puts the words of a set at the end of the words, which stay as they are where there is no memory.
fn put_words(words: &mut Vec<u64>, own: &[u64]) -> Result<Place, NoMemory>
    ensures words { MatchResult result (λ _. words.new.items ≡ words.old.items ++ own.now) (λ _. words.new.items ≡ words.old.items) }
    ensures place { IfOk result (λ place. place ≡ Shown (length words.old.items) (length words.old.items + length own.now)) }
{
    let from = words.len();
    words.extend_from_slice(own)?;
    Ok(Place::Shown {
        from,
        to: words.len(),
    })
}

impl<'a> Set<'a> {
    /// Whether the members take less memory as a list than as words.
    fn is_shorter_listed(&self) -> bool
        ensures { result ≡ true → self.now.width ≤ 2 ^ 16 }
    {
        self.width <= 1 << 16 && count(self.words) < 4 * self.words.len()
    }

    /// Puts the set at the end of the lists or of the words, whichever takes less memory.
    fn put(
        &self,
        alloc: Global,
        lists: &mut Vec<u16>,
        words: &mut Vec<u64>,
    ) -> Result<Place, NoMemory>
        ensures lists { Begins lists.old.items lists.new.items }
        ensures words { Begins words.old.items words.new.items }
        ensures placed { IfOk result (IsPlaced lists.new.items words.new.items self.now.width) }
        ensures set { IfOk result (λ place. set_at lists.new.items words.new.items self.now.width place ≡ self.now) }
    {
        if self.words.is_empty() {
            return put_list(lists, self.list);
        }
        if self.is_shorter_listed() {
            let list = shortened(alloc, &listed(alloc, self.words)?)?;
            return put_list(lists, &list);
        }
        put_words(words, self.words)
    }
}

/// Many sets of numbers below one width, which are numbered from 0 on.
#[derive(Drop)]
pub struct Sets {
    width: u32,
    /// The members of all sets that are listed.
    lists: Vec<u16>,
    /// The words of all others.
    words: Vec<u64>,
    places: Vec<Place>,
}

impl Model for Sets {
    ghost use Rattle.base_bits.specs.Grid.{Table, table_code};
    ghost use Rattle.base_bits.specs.Sets.{sets_of, ArePlaced};

    ghost Value = { Table };

    ghost coded = { table_code };

    ghost view = { λ s. sets_of s.lists.items s.words.items s.width s.places.items };

    ghost invariant = { λ s. ArePlaced s.lists.items s.words.items s.width s.places.items };
}

impl Sets {
    /// No sets yet, of numbers below the width.
    pub fn new(alloc: Global, width: u32) -> Sets
        ensures { result ≡ record { width = width; rows = [] } }
    {
        Sets {
            width,
            lists: Vec::new(alloc),
            words: Vec::new(alloc),
            places: Vec::new(alloc),
        }
    }

    /// How many sets there are.
    pub fn len(&self) -> usize
        ensures { result ≡ length self.now.rows }
    {
        self.places.len()
    }

    /// Puts a set of the same width at the end.
    pub fn push(&mut self, alloc: Global, set: &Set<'_>) -> Result<(), NoMemory>
        requires { set.now.width ≡ self.old.width }
        ensures ok { OnOk result (self.new ≡ record { width = self.old.width; rows = self.old.rows ++ set.now ∷ [] }) }
        ensures err { OnErr result (self.new ≡ self.old) }
    {
        let place = set.put(alloc, &mut self.lists, &mut self.words)?;
        self.places.push(place)?;
        Ok(())
    }

    /// A set by its number.
    pub fn at(&self, i: usize) -> Set<'_>
        requires { i < length self.now.rows }
        ensures { result ≡ row_of self.now.rows i }
    {
        match self.places[i] {
            Place::Listed { from, to } => Set {
                width: self.width,
                list: &self.lists[from..to],
                words: &[],
            },
            Place::Shown { from, to } => Set {
                width: self.width,
                list: &[],
                words: &self.words[from..to],
            },
        }
    }
}
