//! A change of what is sent on a link, by numbers.
ghost use Rattle.std.specs.Prelude.{◌≡◌, ◌↔◌, IfOk, IsTrue};
ghost use Rattle.server_message.specs.Parts.{IsChange};

use crate::numbers::{are_apart, are_rising_below};
use base::NoMemory;
use base_bits::Row;
use std::alloc::Global;
use std::marker::Model;

/// What a change withdraws and what it adds.
#[derive(Drop)]
struct Numbers {
    withdrawn: Vec<u32>,
    added: Vec<u32>,
}

/// A change of the filters or of the advertisements that a server sends on a link, by their numbers: what it withdraws and
/// what it adds, both rising. It is boxed, so that the many publications on the links don't take the room of a change.
#[derive(Drop)]
pub struct SetChange {
    numbers: Box<Numbers>,
}

impl Model for SetChange {
    ghost use Rattle.server_message.specs.Parts.{ChangeParts};

    ghost Value = { ChangeParts };

    ghost view = { λ c. record { withdrawn = c.numbers.value.withdrawn.items; added = c.numbers.value.added.items } };
}

impl SetChange {
    /// The change whose numbers are the members of two rows.
    pub fn of(alloc: Global, withdrawn: &Row, added: &Row) -> Result<SetChange, NoMemory>
        ensures withdrawn { IfOk result (λ change. change.withdrawn ≡ withdrawn.now.members) }
        ensures added { IfOk result (λ change. change.added ≡ added.now.members) }
    {
        let withdrawn = withdrawn.members(alloc)?;
        let added = added.members(alloc)?;
        let numbers = Box::new(alloc, Numbers { withdrawn, added })?;
        Ok(SetChange { numbers })
    }

    /// The numbers of what it withdraws.
    pub fn withdrawn(&self) -> &[u32]
        ensures { result.now ≡ self.now.withdrawn }
    {
        &self.numbers.withdrawn
    }

    /// The numbers of what it adds.
    pub fn added(&self) -> &[u32]
        ensures { result.now ≡ self.now.added }
    {
        &self.numbers.added
    }

    /// Whether it is a change of numbers below a bound: both lists rise, all numbers are below it, and none is in both.
    pub fn is_below(&self, bound: u32) -> bool
        ensures { IsTrue result ↔ IsChange bound self.now }
    {
        let withdrawn = self.withdrawn();
        let added = self.added();
        if !are_rising_below(withdrawn, bound) {
            return false;
        }
        if !are_rising_below(added, bound) {
            return false;
        }
        are_apart(withdrawn, added)
    }
}
