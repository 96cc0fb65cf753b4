//! Reads and writes members that are joined by `;` and a space: constraints and attributes.
ghost use Rattle.std.specs.Prelude.{◌≡◌, []};
ghost use Rattle.filter_text.specs.Reading.{Reads};
ghost use Rattle.filter_text.specs.Items.{items_at};

use crate::fault::WireFault;
use crate::reader::Reader;
use filter_constraints::Constraint;
use filter_values::{Name, Value};
use std::alloc::Global;

/// What stands joined in a text. The contract names how one is read.
pub(crate) trait Joined: Drop {
    ghost use Rattle.std.specs.Prelude.{ℕ, List};
    ghost use Rattle.std.specs.declared.option.Option.{Option};
    ghost use Rattle.filter_text.specs.Reading.{Reads};

    ghost front: { List ℕ → Option (Self × List ℕ) };

    /// The member in front of what is left to be read.
    fn read(reader: &mut Reader<'_>, alloc: Global) -> Result<Self, WireFault>
        ensures { Reads (λ x. x) result (front reader.old.rest.now) reader.new.rest.now };
}

impl Joined for Constraint {
    ghost use Rattle.filter_text.specs.Filters.{constraint_at};

    ghost front = { constraint_at };

    fn read(reader: &mut Reader<'_>, alloc: Global) -> Result<Constraint, WireFault> {
        reader.constraint(alloc)
    }
}

impl Joined for (Name, Value) {
    ghost use Rattle.filter_text.specs.Values.{attribute_at};

    ghost front = { attribute_at };

    fn read(reader: &mut Reader<'_>, alloc: Global) -> Result<(Name, Value), WireFault> {
        reader.attribute(alloc)
    }
}

impl<'a> Reader<'a> {
    /// At most so many members, joined.
    #[tactic(auto, using(crate::proofs::ItemsLoop::ends))]
    pub(crate) fn joined<T: Joined>(
        &mut self,
        alloc: Global,
        most: usize,
    ) -> Result<Vec<T>, WireFault>
        ensures { Reads (λ x. x.items) result (items_at T.front most [] self.old.rest.now) self.new.rest.now }
    {
        let mut members = Vec::new(alloc);
        for _ in 0..most {
            let member = T::read(self, alloc)?;
            members.push(member)?;
            if !self.more() {
                return Ok(members);
            }
        }
        Err(WireFault::Outside)
    }
}
