//! Reads the decimal numbers of a trace, which have no leading zeros.
ghost use Rattle.std.specs.Prelude.{◌≡◌};
ghost use Rattle.audit_claim.specs.Trace.{decimal_number, is_decimal, leads};

use document_script::{are_digits, short_digits};

// Whether the word does not begin with the digit 0, or is that digit.
fn leads(word: &[u8]) -> bool
    ensures { result ≡ leads word.now }
{
    match word {
        [] => false,
        [_] => true,
        [first, ..] => *first != b'0',
    }
}

/// Whether the word is a number, of any length.
#[tactic(auto, unfolding(crate::specs::Trace::is_decimal))]
pub fn is_decimal(word: &[u8]) -> bool
    ensures { result ≡ is_decimal word.now }
{
    leads(word) && are_digits(word)
}

/// The number of at most 19 digits that the word spells.
#[tactic(auto, unfolding(crate::specs::Trace::decimal_number))]
pub fn decimal_number(word: &[u8]) -> Option<u64>
    ensures { result ≡ decimal_number word.now }
{
    if !leads(word) || word.len() > 19 {
        return None;
    }
    short_digits(word)
}
