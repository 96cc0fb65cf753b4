//! Makes a word of each filter and each advertisement, which shows of most pairs that one does not cover the other.
ghost use Rattle.std.specs.Prelude.{◌≡◌, ◌⊎◌, ◌<◌, ◌∷◌, [], unsigned_abs};
ghost use Rattle.std.specs.List.{list_any};
ghost use Rattle.base.specs.Signature.{place_from, marks_from, marks};
ghost use Rattle.filter_covering.specs.Signatures.{signs, all_signs, is_void, sub_marks};

use filter_constraints::{Constraint, IntSet, Normal, Op, TimeSet};
use filter_values::Text;

/// Which bit bytes have behind others whose bit is known.
fn bit_behind(first: u32, bytes: &[u8]) -> u32
    requires { first < 61 }
    ensures place { result ≡ place_from first bytes.now }
    ensures within { result < 61 }
{
    let mut place: u32 = first;
    for byte in bytes {
        place = (place * 31 + *byte as u32) % 61;
    }
    place
}

/// Which bit a constraint's name has.
fn name_bit(constraint: &Constraint) -> u32
    ensures place { result ≡ place_from 0 constraint.now.name }
    ensures within { result < 61 }
{
    bit_behind(0, constraint.name().bytes())
}

/// Which bit a text has behind bytes whose bit is known.
fn text_bit(first: u32, text: &Text) -> u32
    requires { first < 61 }
    ensures place { result ≡ place_from first text.now }
    ensures within { result < 61 }
{
    bit_behind(first, text.bytes())
}

/// The size of a number.
fn size(number: i64) -> u64
    ensures { result ≡ unsigned_abs number }
{
    number.unsigned_abs()
}

/// Which bit a number has behind bytes whose bit is known.
fn number_bit(first: u32, number: u64) -> u32
    requires { first < 61 }
    ensures place { result ≡ place_from first (number ∷ []) }
    ensures within { result < 61 }
{
    (first * 31 + (number % 61) as u32) % 61
}

/// The bits of the names of these constraints.
pub(crate) fn marks_of(constraints: &[Constraint]) -> u64
    ensures { result ≡ marks (λ c. c.name) constraints.now }
{
    let mut marks: u64 = 0;
    for constraint in constraints {
        marks |= 1 << name_bit(constraint);
    }
    marks
}

/// Whether a constraint lets no value pass.
fn is_void(constraint: &Constraint) -> bool
    ensures { result ≡ is_void constraint.now }
{
    match constraint.normal() {
        Normal::Empty => true,
        _ => false,
    }
}

/// Whether one of these constraints lets no value pass.
pub fn some_void(constraints: &[Constraint]) -> bool
    ensures { result ≡ list_any is_void constraints.now }
{
    constraints.iter().any(|constraint| is_void(constraint))
}

/// Bits, and those of the signs of a constraint.
fn with_signs(marks: u64, constraint: &Constraint) -> u64
    ensures { result ≡ marks_from (λ s. s) marks (signs constraint.now) }
{
    let named = name_bit(constraint);
    let marks = marks | 1 << named;
    match constraint.normal() {
        Normal::Int(IntSet::Eq(number)) => marks | 1 << number_bit(named, size(number)),
        Normal::Time(TimeSet::Eq(number)) => marks | 1 << number_bit(named, number),
        Normal::Str(Op::Eq, text) => marks | 1 << text_bit(named, text),
        _ => marks,
    }
}

/// The bits of the signs of these constraints; 0 where one of them lets no value pass.
pub(crate) fn signs_of(constraints: &[Constraint]) -> u64
    ensures { (result ≡ 0) ⊎ (result ≡ sub_marks constraints.now) }
{
    if some_void(constraints) {
        return 0;
    }
    all_signs(constraints)
}

/// The bits of the signs of these constraints.
fn all_signs(constraints: &[Constraint]) -> u64
    ensures { result ≡ marks (λ s. s) (all_signs constraints.now) }
{
    let mut marks: u64 = 0;
    for constraint in constraints {
        marks = with_signs(marks, constraint);
    }
    marks
}
