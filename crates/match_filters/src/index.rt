//! The types of the index of the constraints of all filters, while they are put and then.
ghost use Rattle.std.specs.Prelude.{◌≡◌, ◌*◌, ◌^◌, ◌<◌, ◌∷◌, [], length, IfOk, OnOk};
ghost use Rattle.match_index.specs.Pairs.{Same, Appends};
ghost use Rattle.match_filters.specs.Index.{ids_satisfied};
ghost use Rattle.match_filters.specs.Kinds.{all_uses, AreByKind, IsAdded};
ghost use Rattle.match_filters.specs.Uses.{AreKnown};
ghost use Rattle.match_filters.specs.Rows.{HaveMore};

use crate::goals::is_alone;
use crate::parts::Parts;
use crate::rows::Rows;
use crate::shelves::Shelves;
use crate::texts::TextShelves;
use base::NoMemory;
use filter_constraints::Constraint;
use filter_values::{Kind, Name, Value};
use std::alloc::Global;
use std::marker::Model;

/// The constraints of the filters that were put, by kind and name.
#[derive(Drop)]
pub(crate) struct IndexBuilder {
    ints: Shelves,
    bools: Shelves,
    times: Shelves,
    strs: Shelves,
    texts: TextShelves,
}

impl Model for IndexBuilder {
    ghost use Rattle.match_filters.specs.Kinds.{ByKind};

    ghost Value = { ByKind };

    ghost view = { λ b. record { ints = b.ints; bools = b.bools; times = b.times; strs = b.strs; texts = b.texts } };
}

/// The constraints of all filters, by kind and name.
#[derive(Drop)]
pub(crate) struct Index {
    ints: Parts,
    bools: Parts,
    times: Parts,
    strs: Parts,
    texts: TextShelves,
}

impl Model for Index {
    ghost use Rattle.match_filters.specs.Kinds.{ByKind, AreByKind};

    ghost Value = { ByKind };

    ghost view = { λ i. record { ints = i.ints; bools = i.bools; times = i.times; strs = i.strs; texts = i.texts } };

    ghost invariant = { λ i. AreByKind (record { ints = i.ints; bools = i.bools; times = i.times; strs = i.strs; texts = i.texts }) };
}

impl IndexBuilder {
    /// An index of nothing. It takes no memory.
    pub(crate) fn new(alloc: Global) -> IndexBuilder
        ensures { result ≡ record { ints = []; bools = []; times = []; strs = []; texts = [] } }
    {
        IndexBuilder {
            ints: Shelves::new(alloc),
            bools: Shelves::new(alloc),
            times: Shelves::new(alloc),
            strs: Shelves::new(alloc),
            texts: TextShelves::new(alloc),
        }
    }

    /// Adds a constraint of the filter with this number.
    pub(crate) fn add(&mut self, constraint: &Constraint, id: u16) -> Result<(), NoMemory>
        ensures { OnOk result (IsAdded constraint.now id self.old self.new) }
    {
        match constraint.kind() {
            Kind::Int => self.ints.add(constraint, id)?,
            Kind::Bool => self.bools.add(constraint, id)?,
            Kind::Time => self.times.add(constraint, id)?,
            Kind::Str if is_alone(constraint) => self.texts.add(constraint, u32::from(id))?,
            Kind::Str => self.strs.add(constraint, id)?,
        }
        Ok(())
    }
}

impl Index {
    /// The index of these constraints.
    pub(crate) fn of(builder: IndexBuilder, span: usize) -> Result<Index, NoMemory>
        requires narrow { span < 2 ^ 32 }
        requires sorted { AreByKind builder }
        requires known { AreKnown (64 * span) (all_uses builder) }
        requires few { length (all_uses builder) < 2 ^ 30 }
        ensures { IfOk result (λ index. index ≡ builder) }
    {
        let IndexBuilder {
            ints,
            bools,
            times,
            strs,
            texts,
        } = builder;
        let ints = Parts::of(ints, span)?;
        let bools = Parts::of(bools, span)?;
        let times = Parts::of(times, span)?;
        let strs = Parts::of(strs, span)?;
        Ok(Index {
            ints,
            bools,
            times,
            strs,
            texts,
        })
    }

    /// Puts in the row of the filters whose part on the attribute is satisfied, if there is a part.
    pub(crate) fn read(
        &self,
        name: &Name,
        value: &Value,
        span: usize,
        rows: &mut Rows,
    ) -> Result<(), NoMemory>
        ensures { OnOk result (HaveMore span (name.now, value.now) (all_uses self.now) rows.old rows.new) }
    {
        match value {
            Value::Int(_) => self.ints.read(name, value, span, rows),
            Value::Bool(_) => self.bools.read(name, value, span, rows),
            Value::Time(_) => self.times.read(name, value, span, rows),
            Value::Str(_) => self.strs.read(name, value, span, rows),
        }
    }

    /// Appends, for each pattern that the attribute satisfies, the number of its filter.
    pub(crate) fn hits(
        &self,
        name: &Name,
        value: &Value,
        found: &mut Vec<u32>,
    ) -> Result<(), NoMemory>
        ensures { OnOk result (Appends found.old.items found.new.items (ids_satisfied ((name.now, value.now) ∷ []) self.now.texts)) }
    {
        match value {
            Value::Str(_) => self.texts.hits(name, value, found),
            _ => Ok(()),
        }
    }
}
