//! Reads the times of a command line.
ghost use Rattle.std.specs.Prelude.{◌≡◌};
ghost use Rattle.document_script.specs.Form.{time_given};

use crate::form::Given;
use crate::number::{are_digits, long_digits, short_digits};
use filter_values::Value;

/// The time that a word spells; `None` where it is not of a time's form.
#[tactic(auto, unfolding(crate::specs::Form::time_given))]
pub fn time_given(word: &[u8]) -> Option<Given>
    ensures { result ≡ time_given word.now }
{
    if word.len() >= 1 && word.len() <= 19 {
        return match short_digits(word) {
            Some(n) => Some(Given::Fit(Value::Time(n))),
            None => None,
        };
    }
    if !are_digits(word) {
        return None;
    }
    match long_digits(word) {
        Some(n) => Some(Given::Fit(Value::Time(n))),
        None => Some(Given::Wide),
    }
}
