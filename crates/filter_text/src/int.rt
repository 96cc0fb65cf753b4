//! Reads and writes the one text of an integer.
ghost use Rattle.std.specs.Prelude.{◌≡◌, ◌≢◌, ℤ, MatchOption, FitsSigned};
ghost use Rattle.std.specs.Fmt.{signed_decimal};
ghost use Rattle.std.specs.Int.{w64};
ghost use Rattle.filter_text.specs.Words.{int_of};

use itoa::Buffer;

fn spelled_int(bytes: &[u8]) -> Option<i64>
    ensures { MatchOption result
        ((z : ℤ) → FitsSigned w64 z → bytes.now ≢ signed_decimal z)
        (λ z. FitsSigned w64 z × (bytes.now ≡ signed_decimal z)) }
{
    let Ok(text) = std::str::from_utf8(bytes) else {
        return None;
    };
    let Ok(value) = text.parse::<i64>() else {
        return None;
    };
    let mut buffer = Buffer::new();
    let spelled = buffer.format(value);
    if spelled == text { Some(value) } else { None }
}

/// The integer whose one text these bytes are.
#[tactic(auto, using(crate::proofs::IntLaws::result_is))]
pub fn int_of(bytes: &[u8]) -> Option<i64>
    ensures { result ≡ int_of bytes.now }
{
    spelled_int(bytes)
}
