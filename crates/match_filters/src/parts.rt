//! The type of the parts of one kind by name.
ghost use Rattle.std.specs.Prelude.{◌≡◌, ◌*◌, ◌^◌, ◌<◌, nat_le, length, IfOk, OnOk};
ghost use Rattle.match_index.specs.Pairs.{tally};
ghost use Rattle.match_filters.specs.Shelves.{uses_of};
ghost use Rattle.match_filters.specs.Uses.{AreKnown, AreOfKind};
ghost use Rattle.match_filters.specs.Rows.{HaveMore};

use crate::rows::Rows;
use crate::shelves::Shelves;
use base::NoMemory;
use filter_values::{Name, Value};
use match_numbers::{Operands, Part};
use std::alloc::Global;
use std::collections::BTreeMap;
use std::marker::Model;

/// The bytes of a name.
type Key = Vec<u8>;

/// Parts of constraints of one kind by name, each constraint with the number of its filter.
#[derive(Drop)]
pub(crate) struct Parts {
    parts: BTreeMap<Key, Part>,
}

impl Model for Parts {
    ghost use Rattle.std.specs.Prelude.{List};
    ghost use Rattle.match_filters.specs.Index.{Use};
    ghost use Rattle.match_filters.specs.Shelves.{uses_of};

    ghost Value = { List Use };

    ghost view = { λ p. uses_of p.parts.entries };
}

/// Puts in the row of the filters whose part on an attribute is satisfied.
fn read(
    parts: &BTreeMap<Key, Part>,
    name: &Name,
    value: &Value,
    span: usize,
    rows: &mut Rows,
) -> Result<(), NoMemory>
    requires { AreOfKind value.now (uses_of parts.now.entries) }
    ensures { OnOk result (HaveMore span (name.now, value.now) (uses_of parts.now.entries) rows.old rows.new) }
{
    // The keys rise, so there is no other part of that name.
    let _size = parts.len();
    match parts.get(name.bytes()) {
        Some(part) => rows.read(part, value, span),
        None => Ok(()),
    }
}

/// The parts of all shelves.
fn close(
    alloc: Global,
    shelves: BTreeMap<Key, Operands>,
    span: usize,
) -> Result<BTreeMap<Key, Part>, NoMemory>
    requires narrow { span < 2 ^ 32 }
    requires known { AreKnown (64 * span) (uses_of shelves.entries) }
    requires few { length (uses_of shelves.entries) < 2 ^ 30 }
    ensures { IfOk result (λ parts. parts.entries ≡ shelves.entries) }
{
    let mut shelves = shelves;
    let mut parts = BTreeMap::new(alloc);
    let _size = shelves.len();
    while let Some((name, operands)) = shelves.pop_first() {
        let part = Part::of(operands, span)?;
        parts.insert(name, part)?;
    }
    Ok(parts)
}

impl Parts {
    /// The parts that these constraints make.
    pub(crate) fn of(shelves: Shelves, span: usize) -> Result<Parts, NoMemory>
        requires narrow { span < 2 ^ 32 }
        requires known { AreKnown (64 * span) shelves }
        requires few { length shelves < 2 ^ 30 }
        ensures { IfOk result (λ parts. parts ≡ shelves) }
    {
        let Shelves { alloc, shelves } = shelves;
        let parts = close(alloc, shelves, span)?;
        Ok(Parts { parts })
    }

    /// Puts in the row of the filters whose part on the attribute is satisfied, if there is a part.
    pub(crate) fn read(
        &self,
        name: &Name,
        value: &Value,
        span: usize,
        rows: &mut Rows,
    ) -> Result<(), NoMemory>
        requires { AreOfKind value.now self.now }
        ensures { OnOk result (HaveMore span (name.now, value.now) self.now rows.old rows.new) }
    {
        read(&self.parts, name, value, span, rows)
    }
}
