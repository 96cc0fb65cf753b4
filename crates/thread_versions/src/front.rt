//! A beginning of the history with its length.
ghost use Rattle.std.specs.Prelude.{◌≡◌, length};

use crate::history::Past;

/// A beginning of the history, as a number and what is known in proofs.
#[derive(Drop)]
pub struct Front {
    /// How many changes.
    pub count: u128,
    /// These changes.
    pub seen: Past,
    ghost counted: { count ≡ length seen.log },
}

impl Front {
    /// The same front.
    pub fn again(&self) -> Front
        ensures { (result.count ≡ self.now.count) × (result.seen ≡ self.now.seen) }
    {
        Front {
            count: self.count,
            seen: self.seen.again(),
        }
    }
}
