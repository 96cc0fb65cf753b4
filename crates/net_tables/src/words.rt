//! A word for each filter, by the bytes of the texts that it asks for.
ghost use Rattle.std.specs.Prelude.{◌≡◌, ℕ, ◌<◌, ◌^◌, ◌∷◌, [], map, bit_or, IfOk};
ghost use Rattle.filter_constraints.specs.Constraint.{form_of};
ghost use Rattle.base.specs.Signature.{place_from, marks_from, marks};
ghost use Rattle.net_tables.specs.Words.{asked, byte_signs, text_signs, all_text_signs, text_word};

use base::NoMemory;
use base_pool::Items;
use filter_constraints::{Constraint, Normal, Op};
use filter_covering::{Sub, some_void};
use filter_values::Name;
use std::alloc::Global;

// Which bit a byte has behind bytes whose bit is known.
fn byte_bit(first: u32, byte: u8) -> u32
    requires { first < 61 }
    ensures place { result ≡ place_from first (byte ∷ []) }
    ensures within { result < 61 }
{
    (first * 31 + byte as u32) % 61
}

// Which bit a name has.
fn name_bit(name: &Name) -> u32
    ensures place { result ≡ place_from 0 name.now }
    ensures within { result < 61 }
{
    let mut place: u32 = 0;
    for byte in name.bytes() {
        place = byte_bit(place, *byte);
    }
    place
}

// Bits with one more.
fn with_bit(marks: u64, bit: u32) -> u64
    requires { bit < 61 }
    ensures { result ≡ bit_or marks (2 ^ bit) }
{
    marks | 1 << bit
}

// Bits, and one for each byte of a text on a name.
fn with_bytes(marks: u64, name: &Name, bytes: &[u8]) -> u64
    ensures { result ≡ marks_from (λ s. s) marks (byte_signs name.now bytes.now) }
{
    let named = name_bit(name);
    let mut marks = marks;
    for byte in bytes {
        marks = with_bit(marks, byte_bit(named, *byte));
    }
    marks
}

// The text that stands in each text that a constraint lets pass, as far as its operator tells.
fn asked(constraint: &Constraint) -> &[u8]
    ensures { result.now ≡ asked (form_of constraint.now.kind constraint.now.op constraint.now.operand) }
{
    match constraint.normal() {
        Normal::Str(Op::Eq | Op::Prefix | Op::Suffix | Op::Contains, text) => text.bytes(),
        _ => &[],
    }
}

// Bits, and those of the text that a constraint asks for.
fn with_asked(marks: u64, constraint: &Constraint) -> u64
    ensures { result ≡ marks_from (λ s. s) marks (text_signs constraint.now) }
{
    with_bytes(marks, constraint.name(), asked(constraint))
}

// The bits of the texts that these constraints ask for.
fn asked_marks(constraints: &[Constraint]) -> u64
    ensures { result ≡ marks (λ s. s) (all_text_signs constraints.now) }
{
    let mut marks: u64 = 0;
    for constraint in constraints {
        marks = with_asked(marks, constraint);
    }
    marks
}

// The word of a filter.
fn text_word(sub: &Sub) -> u64
    ensures { result ≡ text_word sub.now }
{
    let constraints = sub.0.constraints();
    if some_void(constraints) {
        return 0;
    }
    asked_marks(constraints)
}

/// For each filter a word of which most filters that ask for texts don't have all bits; those that it covers do.
pub(crate) fn text_words(alloc: Global, subs: &Items<Sub>) -> Result<Vec<u64>, NoMemory>
    ensures { IfOk result (λ words. words.items ≡ map text_word subs.now) }
{
    let mut words = Vec::with_capacity(alloc, subs.len())?;
    for i in 0..subs.len() {
        let sub = subs.at(i);
        words.push(text_word(sub))?;
    }
    Ok(words)
}
