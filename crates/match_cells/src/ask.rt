//! What a filter asks at an operand.
ghost use Rattle.std.specs.Prelude.{◌≡◌};

use match_index::Sides;

/// Where a value stands beside an operand.
#[derive(Clone, Copy)]
pub enum Side {
    /// The value is less.
    Below,
    /// It is the same.
    At,
    /// It is greater.
    Above,
}

/// What a filter asks of a value at one operand: on which sides of it the value may be.
#[derive(Clone, Copy)]
pub struct Ask {
    /// The filter's number.
    pub id: u16,
    /// Whether it may be less.
    pub below: bool,
    /// Whether it may be the same.
    pub at: bool,
    /// Whether it may be greater.
    pub above: bool,
}

impl Ask {
    ghost use Rattle.match_index.specs.Lines.{on_side};
    ghost use Rattle.match_cells.specs.Asks.{met};
    ghost use Rattle.match_cells.specs.Places.{side_of};

    /// What a filter asks whose operands, where they meet a value, stand on these sides of it: a value is less than the
    /// operands above it.
    #[inline]
    pub fn of(id: u16, sides: Sides) -> Ask
        ensures id { result.id ≡ id }
        ensures met { (o : _) → met (side_of o) result ≡ on_side sides o }
    {
        Ask {
            id,
            below: sides.above,
            at: sides.equal,
            above: sides.below,
        }
    }

    /// Whether a value on this side is what is asked for.
    #[inline]
    pub fn met(self, side: Side) -> bool
        ensures { result ≡ met side self }
    {
        match side {
            Side::Below => self.below,
            Side::At => self.at,
            Side::Above => self.above,
        }
    }
}
