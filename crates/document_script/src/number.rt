//! Reads the digits and ints of a command line.
ghost use Rattle.std.specs.Prelude.{◌≡◌, ◌<◌, ◌≤◌, ◌^◌, length, true, IfSome, if◌then◌else◌, pos, neg_ℤ};
ghost use Rattle.std.specs.List.{list_all};
ghost use Rattle.std.specs.Str.Parse.{digits_value, starts_with_minus, without_leading_sign};
ghost use Rattle.document_script.specs.Form.{are_digits, in_64_bits, int_given, is_digit, number_of_digits};

use crate::form::Given;
use filter_values::Value;

fn is_digit(b: u8) -> bool
    ensures { result ≡ is_digit b }
{
    b >= b'0' && b <= b'9'
}

fn all_digits(bytes: &[u8]) -> bool
    ensures { result ≡ list_all is_digit bytes.now }
{
    bytes.iter().all(|b| is_digit(*b))
}

/// Whether the bytes are one or more decimal digits, and nothing else.
pub fn are_digits(bytes: &[u8]) -> bool
    ensures { result ≡ are_digits bytes.now }
{
    bytes.len() > 0 && all_digits(bytes)
}

fn without_sign(word: &[u8]) -> &[u8]
    ensures { result.now ≡ without_leading_sign word.now }
{
    match word {
        [b'+' | b'-', rest @ ..] => rest,
        _ => word,
    }
}

/// The number that digits are, however many; `None` where it doesn't fit into 64 bits.
pub fn long_digits(bytes: &[u8]) -> Option<u64>
    requires { are_digits bytes.now ≡ true }
    ensures { result ≡ in_64_bits (digits_value 10 bytes.now) }
{
    let Ok(text) = std::str::from_utf8(bytes) else {
        return None;
    };
    text.parse::<u64>().ok()
}

// The number of digits behind a sign, or what is beyond i64.
fn parsed_int(word: &[u8]) -> Option<Given>
    requires { are_digits (without_leading_sign word.now) ≡ true }
    ensures { result ≡ int_given word.now }
{
    let Ok(text) = std::str::from_utf8(word) else {
        return None;
    };
    match text.parse::<i64>() {
        Ok(n) => Some(Given::Fit(Value::Int(n))),
        Err(_) => Some(Given::Wide),
    }
}

/// The number that at most 19 digits are; `None` where other bytes stand among them.
pub fn short_digits(bytes: &[u8]) -> Option<u64>
    requires { length bytes.now ≤ 19 }
    ensures value { result ≡ number_of_digits bytes.now }
    ensures less { IfSome result (λ n. n < 10 ^ length bytes.now) }
    ensures small { IfSome result (λ n. n < 10 ^ 19) }
{
    let mut sum: u64 = 0;
    for (i, b) in bytes.iter().enumerate() {
        if !is_digit(*b) {
            return None;
        }
        sum = sum * 10 + (*b - 48) as u64;
    }
    Some(sum)
}

fn is_negative(word: &[u8]) -> bool
    ensures { result ≡ starts_with_minus word.now }
{
    match word {
        [b'-', ..] => true,
        _ => false,
    }
}

// The int of a sign and a number.
fn signed(is_negative: bool, n: u64) -> i64
    requires { n < 10 ^ 18 }
    ensures { result ≡ (if is_negative then neg_ℤ (pos n) else pos n) }
{
    let n = n as i64;
    if is_negative { -n } else { n }
}

// The int of at most 18 digits behind a sign.
fn short_int(word: &[u8], digits: &[u8]) -> Option<Given>
    requires digits { digits.now ≡ without_leading_sign word.now }
    requires some { 0 < length digits.now }
    requires few { length digits.now ≤ 18 }
    ensures { result ≡ int_given word.now }
{
    match short_digits(digits) {
        Some(n) => Some(Given::Fit(Value::Int(signed(is_negative(word), n)))),
        None => None,
    }
}

/// The int that a word spells; `None` where it is not of an int's form.
#[tactic(auto, unfolding(crate::specs::Form::int_given))]
pub fn int_given(word: &[u8]) -> Option<Given>
    ensures { result ≡ int_given word.now }
{
    let digits = without_sign(word);
    if digits.len() >= 1 && digits.len() <= 18 {
        return short_int(word, digits);
    }
    if are_digits(digits) {
        parsed_int(word)
    } else {
        None
    }
}
