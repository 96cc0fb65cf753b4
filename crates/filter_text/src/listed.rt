//! The trait of filters and advertisements: lists of constraints that differ in how many they may have.
ghost use Rattle.std.specs.Prelude.{◌≡◌, ◌++◌, IfOk, OnOk};
ghost use Rattle.filter_types.specs.Before.{list_before};
ghost use Rattle.filter_text.specs.Reading.{Reads};
ghost use Rattle.filter_text.specs.FilterText.{constraints_text, IsWhole};
ghost use Rattle.filter_text.specs.Filters.{list_at};

use crate::constraint::{lemma_named, push_constraints};
use crate::fault::WireFault;
use crate::reader::Reader;
use base::NoMemory;
use filter_types::Constraints;
use std::alloc::Global;

/// A list of constraints of a bounded length, in canonical order, with its one text. The contracts name how it is read,
/// its text, its canonical order and what it is.
pub trait Listed: Drop {
    ghost use Rattle.std.specs.Prelude.{◌≡◌, ◌++◌, ℕ, Bool, List, IfOk, OnOk};
    ghost use Rattle.std.specs.declared.option.Option.{Option};
    ghost use Rattle.filter_text.specs.Reading.{Reads};

    ghost front: { List ℕ → Option (Self × List ℕ) };

    ghost text: { Self → List ℕ };

    ghost order: { Self → Self → Bool };

    ghost IsSound: { Self → Type 0 };

    /// The list in front of what is left to be read.
    fn read(reader: &mut Reader<'_>, alloc: Global) -> Result<Self, WireFault>
        ensures { Reads (λ x. x) result (front reader.old.rest.now) reader.new.rest.now };

    /// Puts its text at the end.
    fn push(&self, out: &mut Vec<u8>) -> Result<(), NoMemory>
        ensures text { OnOk result (out.new.items ≡ out.old.items ++ text self.now) }
        ensures sound { OnOk result (IsSound self.now) };

    /// Whether it stands before the other in the canonical order.
    fn stands_before(&self, other: &Self) -> bool
        ensures { result ≡ order self.now other.now };

    /// Does nothing; by its contract the list is well formed.
    fn lemma_sound(&self)
        ensures { IsSound self.now };
}

impl<const MOST: usize> Listed for Constraints<MOST> {
    ghost front = { list_at MOST };

    ghost text = { constraints_text };

    ghost order = { list_before };

    ghost IsSound = { IsWhole MOST };

    #[tactic(auto, unfolding(crate::specs::Filters::list_at))]
    fn read(reader: &mut Reader<'_>, alloc: Global) -> Result<Self, WireFault> {
        let constraints = reader.joined(alloc, MOST)?;
        match Self::of_rising(constraints)? {
            Some(list) => Ok(list),
            None => Err(WireFault::Outside),
        }
    }

    fn push(&self, out: &mut Vec<u8>) -> Result<(), NoMemory> {
        push_constraints(out, self.constraints())
    }

    #[tactic(auto, unfolding(filter_types::specs::Before::list_before))]
    fn stands_before(&self, other: &Self) -> bool {
        self < other
    }

    fn lemma_sound(&self) {
        lemma_named(self.constraints());
    }
}
