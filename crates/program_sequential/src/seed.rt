//! Reads a seed out of the words of a command line.
ghost use Rattle.std.specs.Prelude.{◌≡◌};
ghost use Rattle.program_sequential.specs.Words.{seed_number};

use document_script::{are_digits, long_digits};

/// The number below 2^64 that the word spells in 1 to 20 digits.
#[tactic(auto, unfolding(crate::specs::Words::seed_number))]
pub fn seed(word: &[u8]) -> Option<u64>
    ensures { result ≡ seed_number word.now }
{
    if word.len() > 20 || !are_digits(word) {
        return None;
    }
    long_digits(word)
}
