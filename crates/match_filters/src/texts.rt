//! The type of the patterns of strs, by the name of the attribute.
ghost use Rattle.std.specs.Prelude.{◌≡◌, ◌∷◌, [], true, OnOk};
ghost use Rattle.filter_values.specs.declared.value.Kind.{Kind};
ghost use Rattle.match_index.specs.Heads.{is_pattern_op};
ghost use Rattle.match_index.specs.Pairs.{Same, Appends};
ghost use Rattle.match_filters.specs.Index.{ids_satisfied};
ghost use Rattle.match_filters.specs.Shelves.{uses_of};

use base::NoMemory;
use filter_constraints::Constraint;
use filter_values::{Name, Value};
use match_texts::Texts;
use std::alloc::Global;
use std::collections::BTreeMap;
use std::marker::Model;

/// The bytes of a name.
type Key = Vec<u8>;

/// Patterns of strs by name, each with the number of its filter.
#[derive(Drop)]
pub(crate) struct TextShelves {
    alloc: Global,
    shelves: BTreeMap<Key, Texts>,
}

impl Model for TextShelves {
    ghost use Rattle.std.specs.Prelude.{List};
    ghost use Rattle.match_filters.specs.Index.{Use};
    ghost use Rattle.match_filters.specs.Shelves.{uses_of};

    ghost Value = { List Use };

    ghost view = { λ s. uses_of s.shelves.entries };
}

/// Puts a use on the shelf of its name.
fn put(
    alloc: Global,
    shelves: &mut BTreeMap<Key, Texts>,
    constraint: &Constraint,
    id: u32,
) -> Result<(), NoMemory>
    requires kind { constraint.now.kind ≡ Kind.Str }
    requires pattern { is_pattern_op constraint.now.op ≡ true }
    ensures { OnOk result (Same (uses_of shelves.new.entries) ((constraint.now, id) ∷ uses_of shelves.old.entries)) }
{
    let name = constraint.name().bytes();
    if let Some(shelf) = shelves.get_mut(name) {
        return shelf.add(constraint, id);
    }
    let key = Vec::from_slice(alloc, name)?;
    let mut shelf = Texts::new(alloc);
    shelf.add(constraint, id)?;
    shelves.insert(key, shelf)?;
    Ok(())
}

/// Appends the ids of the constraints that the attribute satisfies.
fn meet(
    shelves: &BTreeMap<Key, Texts>,
    name: &Name,
    value: &Value,
    found: &mut Vec<u32>,
) -> Result<(), NoMemory>
    ensures { OnOk result (Appends found.old.items found.new.items (ids_satisfied ((name.now, value.now) ∷ []) (uses_of shelves.now.entries))) }
{
    // The keys rise, so there is no other shelf of that name.
    let _size = shelves.len();
    match shelves.get(name.bytes()) {
        Some(shelf) => shelf.hits(value, found),
        None => Ok(()),
    }
}

impl TextShelves {
    /// No constraints. It takes no memory.
    pub(crate) fn new(alloc: Global) -> TextShelves
        ensures { result ≡ [] }
    {
        TextShelves {
            alloc,
            shelves: BTreeMap::new(alloc),
        }
    }

    /// Adds a constraint of the filter with this number.
    pub(crate) fn add(&mut self, constraint: &Constraint, id: u32) -> Result<(), NoMemory>
        requires kind { constraint.now.kind ≡ Kind.Str }
        requires pattern { is_pattern_op constraint.now.op ≡ true }
        ensures { OnOk result (Same self.new ((constraint.now, id) ∷ self.old)) }
    {
        put(self.alloc, &mut self.shelves, constraint, id)
    }

    /// Appends, for each constraint that the attribute satisfies, the number of its filter.
    pub(crate) fn hits(
        &self,
        name: &Name,
        value: &Value,
        found: &mut Vec<u32>,
    ) -> Result<(), NoMemory>
        ensures { OnOk result (Appends found.old.items found.new.items (ids_satisfied ((name.now, value.now) ∷ []) self.now)) }
    {
        meet(&self.shelves, name, value, found)
    }
}
