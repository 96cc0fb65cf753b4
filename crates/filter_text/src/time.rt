//! Reads and writes the one text of a time.
ghost use Rattle.std.specs.Prelude.{◌≡◌, ◌≢◌, ℕ, ◌<◌, ◌^◌, MatchOption};
ghost use Rattle.std.specs.Fmt.{decimal};
ghost use Rattle.filter_text.specs.Words.{time_of};

use itoa::Buffer;

fn spelled_time(bytes: &[u8]) -> Option<u64>
    ensures { MatchOption result
        ((n : ℕ) → n < 2 ^ 64 → bytes.now ≢ decimal n)
        (λ n. (n < 2 ^ 64) × (bytes.now ≡ decimal n)) }
{
    let Ok(text) = std::str::from_utf8(bytes) else {
        return None;
    };
    let Ok(value) = text.parse::<u64>() else {
        return None;
    };
    let mut buffer = Buffer::new();
    let spelled = buffer.format(value);
    if spelled == text { Some(value) } else { None }
}

/// The seconds whose one text these bytes are.
#[tactic(auto, using(crate::proofs::TimeLaws::result_is))]
pub fn time_of(bytes: &[u8]) -> Option<u64>
    ensures { result ≡ time_of bytes.now }
{
    spelled_time(bytes)
}
