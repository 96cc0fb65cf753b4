//! The type of the rows that a notice's attributes give.
ghost use Rattle.std.specs.Prelude.{◌≡◌, ◌<◌, ◌≤◌, take, length, OnOk};

use base::NoMemory;
use filter_values::Value;
use match_numbers::Part;
use std::alloc::Global;
use std::marker::Model;

/// Makes sure that there is a list behind those that are used.
fn make_room(alloc: Global, list: &mut Vec<Vec<u64>>, used: usize) -> Result<(), NoMemory>
    requires { used ≤ length list.old.items }
    ensures within { used ≤ length list.new.items }
    ensures room { OnOk result (used < length list.new.items) }
    ensures same { OnOk result (take used list.new.items ≡ take used list.old.items) }
{
    if used == list.len() {
        list.push(Vec::new(alloc))?;
    }
    Ok(())
}

/// Rows of words, one for each attribute that has a part. Their memory is kept from one notice to the next.
#[derive(Drop)]
pub(crate) struct Rows {
    alloc: Global,
    list: Vec<Vec<u64>>,
    used: usize,
}

impl Model for Rows {
    ghost use Rattle.std.specs.Prelude.{◌≤◌, ℕ, List, Vec, take, length};
    ghost use Rattle.std.specs.declared.alloc.Global.{Global};

    ghost Value = { List (Vec ℕ Global) };

    ghost view = { λ rows. take rows.used rows.list.items };

    ghost invariant = { λ rows. rows.used ≤ length rows.list.items };
}

impl Rows {
    ghost use Rattle.std.specs.Prelude.{◌≡◌, [], OnOk};
    ghost use Rattle.match_filters.specs.Rows.{IsRead};

    /// No rows. It takes no memory.
    pub(crate) fn new(alloc: Global) -> Rows
        ensures { result ≡ [] }
    {
        Rows {
            alloc,
            list: Vec::new(alloc),
            used: 0,
        }
    }

    /// Takes all rows out.
    pub(crate) fn clear(&mut self)
        ensures { self.new ≡ [] }
    {
        self.used = 0;
    }

    /// Puts in the row of the ids that have pairs all of whose tests the value passes.
    pub(crate) fn read(&mut self, part: &Part, value: &Value, span: usize) -> Result<(), NoMemory>
        ensures { OnOk result (IsRead span value.now part.now self.old self.new) }
    {
        make_room(self.alloc, &mut self.list, self.used)?;
        part.read(value, span, &mut self.list[self.used])?;
        self.used += 1;
        Ok(())
    }

    /// The rows.
    pub(crate) fn as_slice(&self) -> &[Vec<u64>]
        ensures { result.now ≡ self.now }
    {
        &self.list[..self.used]
    }
}
