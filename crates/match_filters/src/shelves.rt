//! The type of the constraints of one kind by name, while they are put.
ghost use Rattle.std.specs.Prelude.{◌≡◌, ◌∷◌, OnOk};
ghost use Rattle.match_index.specs.Pairs.{Same};
ghost use Rattle.match_filters.specs.Shelves.{uses_of};

use base::NoMemory;
use filter_constraints::Constraint;
use match_numbers::Operands;
use std::alloc::Global;
use std::collections::BTreeMap;
use std::marker::Model;

/// The bytes of a name.
type Key = Vec<u8>;

/// Constraints of one kind by name, each with the number of its filter.
#[derive(Drop)]
pub(crate) struct Shelves {
    pub(crate) alloc: Global,
    pub(crate) shelves: BTreeMap<Key, Operands>,
}

impl Model for Shelves {
    ghost use Rattle.std.specs.Prelude.{List};
    ghost use Rattle.match_filters.specs.Index.{Use};
    ghost use Rattle.match_filters.specs.Shelves.{uses_of};

    ghost Value = { List Use };

    ghost view = { λ s. uses_of s.shelves.entries };
}

/// Puts a use on the shelf of its name.
fn put(
    alloc: Global,
    shelves: &mut BTreeMap<Key, Operands>,
    constraint: &Constraint,
    id: u16,
) -> Result<(), NoMemory>
    ensures { OnOk result (Same (uses_of shelves.new.entries) ((constraint.now, id) ∷ uses_of shelves.old.entries)) }
{
    let name = constraint.name().bytes();
    if let Some(shelf) = shelves.get_mut(name) {
        return shelf.put(constraint, id);
    }
    let key = Vec::from_slice(alloc, name)?;
    let mut shelf = Operands::new(alloc);
    shelf.put(constraint, id)?;
    shelves.insert(key, shelf)?;
    Ok(())
}

impl Shelves {
    ghost use Rattle.std.specs.Prelude.{◌≡◌, ◌∷◌, [], OnOk};
    ghost use Rattle.match_index.specs.Pairs.{Same};

    /// No constraints. It takes no memory.
    pub(crate) fn new(alloc: Global) -> Shelves
        ensures { result ≡ [] }
    {
        Shelves {
            alloc,
            shelves: BTreeMap::new(alloc),
        }
    }

    /// Adds a constraint of the filter with this number.
    pub(crate) fn add(&mut self, constraint: &Constraint, id: u16) -> Result<(), NoMemory>
        ensures { OnOk result (Same self.new ((constraint.now, id) ∷ self.old)) }
    {
        put(self.alloc, &mut self.shelves, constraint, id)
    }
}
