//! Gives the front of some bytes to a reader.
ghost use Rattle.std.specs.Prelude.{◌≡◌, ◌<◌, ◌≤◌, ◌++◌, [], length, min, take, drop};

/// Moves the front of the bytes, at most so many, and says how many.
pub fn give(bytes: &[u8], into: &mut [u8], most: usize) -> usize
    requires { 0 < most }
    ensures count { result ≡ min (min most (length bytes.now)) (length into.new) }
    ensures there { result ≤ length bytes.now }
    ensures fits { result ≤ length into.new }
    ensures moved { bytes.now ≡ take result into.new ++ drop result bytes.now }
    ensures none { result ≡ 0 → 0 < length into.new → bytes.now ≡ [] }
{
    let count = most.min(bytes.len()).min(into.len());
    into[..count].copy_from_slice(&bytes[..count]);
    count
}
