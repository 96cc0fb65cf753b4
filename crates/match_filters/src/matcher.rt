//! A list of filters, in which those that a notice matches are found by counting.
use crate::builder::MatcherBuilder;
use crate::count::{count_found, find, gather};
use crate::index::Index;
use crate::listed::Listed;
use crate::scratch::Scratch;
use base::NoMemory;
use base_bits::Row;
use filter_types::{Filter, Notice};
use match_cells::{Counts, counted};
use std::alloc::Global;
use std::marker::Model;
use std::snapshot::Snapshot;

/// A list of at most 4,096 filters, each with its place as its number. It never changes, and is seen as the list, of which
/// it keeps no filter.
pub struct Matcher {
    pub(crate) index: Index,
    pub(crate) goals: Vec<Counts>,
    pub(crate) count: usize,
    pub(crate) filters: Snapshot<Listed>,
}

impl Drop for Matcher {
    fn drop(self) {
        let Self {
            index: _,
            goals: _,
            count: _,
            filters: _,
        } = self;
    }
}

impl Model for Matcher {
    ghost use Rattle.std.specs.Prelude.{◌≡◌, ◌≤◌, List, length};
    ghost use Rattle.filter_constraints.specs.Constraint.{ConstraintParts};
    ghost use Rattle.match_filters.specs.Goals.{IsFilled};

    ghost Value = { List (List ConstraintParts) };

    ghost view = { λ m. m.filters.value };

    ghost invariant = { λ m. (length m.filters.value ≤ 4096) × (m.count ≡ length m.filters.value) × IsFilled m.index m.goals.items m.filters.value };
}

impl Matcher {
    ghost use Rattle.std.specs.Prelude.{◌≡◌, ◌≤◌, length, IfOk, OnOk, OnErr};
    ghost use Rattle.match_filters.specs.Matching.{matched};

    /// A matcher of these filters.
    pub fn of(alloc: Global, filters: &[Filter]) -> Result<Matcher, NoMemory>
        requires { length filters.now ≤ 4096 }
        ensures { IfOk result (λ matcher. matcher ≡ filters.now) }
    {
        let mut builder = MatcherBuilder::new(alloc);
        for filter in filters {
            builder.put(filter)?;
        }
        builder.build()
    }

    /// How many filters there are.
    pub fn len(&self) -> usize
        ensures same { result ≡ length self.now }
        ensures few { result ≤ 4096 }
    {
        self.count
    }

    /// Sets the row to the numbers of the filters that the notice matches. It takes memory only where the scratch was never
    /// so large; after running out of memory the row is as before.
    pub fn matched(
        &self,
        notice: &Notice,
        scratch: &mut Scratch,
        row: &mut Row,
    ) -> Result<(), NoMemory>
        requires { row.old.width ≡ length self.now }
        ensures width { row.new.width ≡ row.old.width }
        ensures members { OnOk result (row.new.members ≡ matched notice.now self.now) }
        ensures err { OnErr result (row.new ≡ row.old) }
    {
        // The names of its attributes rise.
        let _attributes = notice.attributes();
        let span = self.goals.len();
        gather(&self.index, notice, span, &mut scratch.rows)?;
        find(&self.index, notice, &mut scratch.found)?;
        count_found(&mut scratch.counts, &scratch.found, span)?;
        scratch.words.resize(span, 0)?;
        let words = &mut scratch.words;
        counted(&scratch.counts, scratch.rows.as_slice(), &self.goals, words);
        row.put_words(words);
        Ok(())
    }
}
