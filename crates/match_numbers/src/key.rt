//! Computes the keys of values, and on which sides of an operand a value may be.
ghost use Rattle.std.specs.Prelude.{◌≡◌};
ghost use Rattle.std.specs.Option.{option_copied};
ghost use Rattle.match_numbers.specs.Keys.{key_of, truth_key, time_key};
ghost use Rattle.match_numbers.specs.Kinds.{sides_for};

use filter_constraints::Op;
use filter_values::Value;
use match_index::Sides;

/// The key of a truth value.
fn truth_key(x: bool) -> i64
    ensures { result ≡ truth_key x }
{
    if x { 1 } else { 0 }
}

/// The key of a time: keys are numbers of 64 bits with a sign, so it is the time less 2^63.
fn time_key(x: u64) -> i64
    ensures { result ≡ time_key x }
{
    if x < 1 << 63 {
        x as i64 + i64::MIN
    } else {
        (x - (1 << 63)) as i64
    }
}

/// The key of an operand or of a value.
pub(crate) fn key_of(operand: Option<&Value>) -> i64
    ensures { result ≡ key_of (option_copied operand.entry) }
{
    match operand {
        Some(Value::Int(n)) => *n,
        Some(Value::Bool(b)) => truth_key(*b),
        Some(Value::Time(t)) => time_key(*t),
        _ => 0,
    }
}

/// On which sides of a value the operands of an operator meet it.
pub(crate) fn sides_for(op: Op) -> Sides
    ensures { result ≡ sides_for op }
{
    match op {
        Op::Any => Sides {
            below: true,
            equal: true,
            above: true,
        },
        _ => Sides::of(op),
    }
}
