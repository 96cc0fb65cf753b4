//! The type of a matcher whose filters are being put.
ghost use Rattle.std.specs.Prelude.{◌≡◌, ◌<◌, ◌+◌, ◌/◌, ◌++◌, ◌∷◌, [], List, length, OnOk};
ghost use Rattle.filter_constraints.specs.Constraint.{ConstraintParts};
ghost use Rattle.match_filters.specs.Goals.{AreEntered, IsFilled, IsOpen};

use crate::goals::put_goal;
use crate::index::{Index, IndexBuilder};
use crate::listed::Listed;
use crate::matcher::Matcher;
use base::NoMemory;
use filter_constraints::Constraint;
use filter_types::Filter;
use match_cells::Counts;
use std::alloc::Global;
use std::marker::Model;
use std::snapshot::Snapshot;

/// A list of at most 4,096 filters, to which filters are put one after another. It keeps no filter.
pub struct MatcherBuilder {
    index: IndexBuilder,
    goals: Vec<Counts>,
    count: usize,
    /// False after running out of memory.
    whole: bool,
    filters: Snapshot<Listed>,
}

impl Drop for MatcherBuilder {
    fn drop(self) {
        let Self {
            index: _,
            goals: _,
            count: _,
            whole: _,
            filters: _,
        } = self;
    }
}

impl Model for MatcherBuilder {
    ghost use Rattle.std.specs.Prelude.{◌≡◌, ◌≤◌, true, List, length};
    ghost use Rattle.filter_constraints.specs.Constraint.{ConstraintParts};
    ghost use Rattle.match_filters.specs.Goals.{IsFilled};

    ghost Value = { List (List ConstraintParts) };

    ghost view = { λ b. b.filters.value };

    ghost invariant = { λ b. (length b.filters.value ≤ 4096)
        × (b.whole ≡ true → (b.count ≡ length b.filters.value) × IsFilled b.index b.goals.items b.filters.value) };
}

/// Puts a filter's constraints into the index.
fn enter(index: &mut IndexBuilder, constraints: &[Constraint], id: u16) -> Result<(), NoMemory>
    ensures { OnOk result (AreEntered constraints.now id index.old index.new) }
{
    for i in 0..constraints.len() {
        index.add(&constraints[i], id)?;
    }
    Ok(())
}

/// Puts the next filter.
fn put(
    index: &mut IndexBuilder,
    goals: &mut Vec<Counts>,
    filter: &Filter,
    id: usize,
) -> Result<(), NoMemory>
    requires small { id < 4096 }
    requires unreached { IsOpen id goals.old.items }
    ensures { OnOk result ((filters : List (List ConstraintParts)) → length filters ≡ id → IsFilled index.old goals.old.items filters
        → IsFilled index.new goals.new.items (filters ++ filter.now ∷ [])) }
{
    let constraints = filter.constraints();
    enter(index, constraints, id as u16)?;
    put_goal(goals, constraints, id)?;
    Ok(())
}

impl MatcherBuilder {
    ghost use Rattle.std.specs.Prelude.{◌≡◌, ◌<◌, ◌++◌, ◌∷◌, [], length, IfOk, OnOk};

    /// No filters. It takes no memory.
    pub fn new(alloc: Global) -> Self
        ensures { result ≡ [] }
    {
        MatcherBuilder {
            index: IndexBuilder::new(alloc),
            goals: Vec::new(alloc),
            count: 0,
            whole: true,
            filters: Snapshot::of(&Listed::nothing()),
        }
    }

    /// Puts a filter; its number is how many were put before. After running out of memory the builder is of no use, and
    /// answers so again.
    pub fn put(&mut self, filter: &Filter) -> Result<(), NoMemory>
        requires { length self.old < 4096 }
        ensures { OnOk result (self.new ≡ self.old ++ filter.now ∷ []) }
    {
        if !self.whole {
            return Err(NoMemory);
        }
        self.whole = false;
        put(&mut self.index, &mut self.goals, filter, self.count)?;
        self.filters = Snapshot::of(&Listed::and(&self.filters, filter));
        self.count += 1;
        self.whole = true;
        Ok(())
    }

    /// The matcher of these filters.
    pub fn build(self) -> Result<Matcher, NoMemory>
        ensures { IfOk result (λ matcher. matcher ≡ self) }
    {
        let Self {
            index,
            goals,
            count,
            whole,
            filters,
        } = self;
        if !whole {
            return Err(NoMemory);
        }
        let index = Index::of(index, goals.len())?;
        Ok(Matcher {
            index,
            goals,
            count,
            filters,
        })
    }
}
