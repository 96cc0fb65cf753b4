//! The type of the sides of a key that are asked for.
ghost use Rattle.std.specs.Prelude.{◌≡◌};
ghost use Rattle.match_index.specs.Sides.{sides_of};

use filter_constraints::Op;

/// Which keys are asked for, by how they compare with one.
#[derive(Clone, Copy)]
pub struct Sides {
    /// Whether those that are less.
    pub below: bool,
    /// Whether one that is equal.
    pub equal: bool,
    /// Whether those that are greater.
    pub above: bool,
}

/// An equal key alone.
pub const EQUAL: Sides = Sides {
    below: false,
    equal: true,
    above: false,
};

impl Sides {
    /// Where the operands stand, beside a value, that it satisfies under the operator: a value is less than the operands
    /// above it. An operator that doesn't compare has no side.
    pub fn of(op: Op) -> Sides
        ensures { result ≡ sides_of op }
    {
        let (below, equal, above) = match op {
            Op::Eq => (false, true, false),
            Op::Ne => (true, false, true),
            Op::Lt => (false, false, true),
            Op::Le => (false, true, true),
            Op::Gt => (true, false, false),
            Op::Ge => (true, true, false),
            _ => (false, false, false),
        };
        Sides {
            below,
            equal,
            above,
        }
    }
}
