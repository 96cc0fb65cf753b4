//! Compares operators and operands by the canonical order.
ghost use Rattle.std.specs.Prelude.{◌≡◌};
ghost use Rattle.std.specs.Option.{option_cmp};
ghost use Rattle.filter_values.specs.Order.{value_cmp};
ghost use Rattle.filter_constraints.specs.Order.{op_cmp};

use crate::op::Op;
use filter_values::Value;
use std::cmp::Ordering;

pub(crate) fn op_order(x: Op, y: Op) -> Ordering
    ensures { result ≡ op_cmp x y }
{
    x.cmp(&y)
}

// No operand comes before each operand.
pub(crate) fn operand_order(x: &Option<Value>, y: &Option<Value>) -> Ordering
    ensures { result ≡ option_cmp value_cmp x.now y.now }
{
    match (x, y) {
        (None, None) => Ordering::Equal,
        (None, Some(_)) => Ordering::Less,
        (Some(_), None) => Ordering::Greater,
        (Some(a), Some(b)) => a.cmp(b),
    }
}
