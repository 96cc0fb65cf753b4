//! Reads the words and numbers of which a line is made.
ghost use Rattle.std.specs.Prelude.{◌≡◌, None, Some, IfSome, MatchOption};
ghost use Rattle.filter_values.specs.Name.{IsName};
ghost use Rattle.document_reader.specs.Lines.{words};
ghost use Rattle.document_reader.specs.Words.{name_and_number, number, one, one_name, one_number, two, two_numbers};

use crate::cut::next_word;
use document_script::short_digits;
use filter_values::is_name;

// The number that the word spells in 1 to 10 digits.
#[tactic(auto, unfolding(crate::specs::Words::number))]
fn number(word: &[u8]) -> Option<u64>
    ensures { result ≡ number word.now }
{
    if word.is_empty() || word.len() > 10 {
        return None;
    }
    short_digits(word)
}

/// The one word of the rest of a line.
pub fn one(rest: &[u8]) -> Option<&[u8]>
    ensures { MatchOption result (one (words rest.now) ≡ None) (λ r. one (words rest.now) ≡ Some r.now) }
{
    let Some((a, rest)) = next_word(rest) else {
        return None;
    };
    match next_word(rest) {
        None => Some(a),
        Some(_) => None,
    }
}

/// The two words of the rest of a line.
pub fn two(rest: &[u8]) -> Option<(&[u8], &[u8])>
    ensures { MatchOption result (two (words rest.now) ≡ None) (λ r. two (words rest.now) ≡ Some (r.0.now, r.1.now)) }
{
    let Some((a, rest)) = next_word(rest) else {
        return None;
    };
    let Some((b, rest)) = next_word(rest) else {
        return None;
    };
    match next_word(rest) {
        None => Some((a, b)),
        Some(_) => None,
    }
}

/// The one number of the rest of a line.
#[tactic(auto, unfolding(crate::specs::Words::one_number))]
pub fn one_number(rest: &[u8]) -> Option<u64>
    ensures { result ≡ one_number (words rest.now) }
{
    let Some(word) = one(rest) else {
        return None;
    };
    number(word)
}

/// The two numbers of the rest of a line.
#[tactic(auto, unfolding(crate::specs::Words::two_numbers))]
pub fn two_numbers(rest: &[u8]) -> Option<(u64, u64)>
    ensures { result ≡ two_numbers (words rest.now) }
{
    let Some((a, b)) = two(rest) else {
        return None;
    };
    let Some(a) = number(a) else {
        return None;
    };
    let Some(b) = number(b) else {
        return None;
    };
    Some((a, b))
}

/// The name and the number of the rest of a line.
#[tactic(auto, unfolding(crate::specs::Words::name_and_number))]
pub fn name_and_number(rest: &[u8]) -> Option<(&[u8], u64)>
    ensures value { MatchOption result (name_and_number (words rest.now) ≡ None) (λ r. name_and_number (words rest.now) ≡ Some (r.0.now, r.1)) }
    ensures name { IfSome result (λ r. IsName r.0.now) }
{
    let Some((name, n)) = two(rest) else {
        return None;
    };
    if !is_name(name) {
        return None;
    }
    let Some(n) = number(n) else {
        return None;
    };
    Some((name, n))
}

/// The one name of the rest of a line.
#[tactic(auto, unfolding(crate::specs::Words::one_name))]
pub fn one_name(rest: &[u8]) -> Option<&[u8]>
    ensures { MatchOption result (one_name (words rest.now) ≡ None) (λ r. one_name (words rest.now) ≡ Some r.now) }
{
    let Some(name) = one(rest) else {
        return None;
    };
    if is_name(name) { Some(name) } else { None }
}
