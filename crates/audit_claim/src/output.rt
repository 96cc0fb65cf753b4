//! Cuts an output into lines, and a line at its spaces.
ghost use Rattle.std.specs.Prelude.{◌≡◌, ◌<◌, ◌∷◌, [], None, Some, IfSome, MatchOption, length};
ghost use Rattle.audit_claim.specs.Output.{at_space, output_lines, parted};

use memchr::memchr;

// What stands before the first byte that is this one, and what stands behind it.
fn parted(end: u8, bytes: &[u8]) -> Option<(&[u8], &[u8])>
    ensures parts { MatchOption result (parted end bytes.now ≡ None) (λ r. parted end bytes.now ≡ Some (r.0.now, r.1.now)) }
    ensures shorter { IfSome result (λ r. length r.1.now < length bytes.now) }
{
    let Some(at) = memchr(end, bytes) else {
        return None;
    };
    let (front, _) = bytes.split_at(at);
    let (_, rest) = bytes.split_at(at + 1);
    Some((front, rest))
}

/// The first line, which a newline alone ends, and the bytes behind it; `None` where there are no bytes.
pub fn next_line(bytes: &[u8]) -> Option<(&[u8], &[u8])>
    ensures cut { MatchOption result (output_lines bytes.now ≡ []) (λ r. output_lines bytes.now ≡ r.0.now ∷ output_lines r.1.now) }
    ensures shorter { IfSome result (λ r. length r.1.now < length bytes.now) }
{
    if bytes.is_empty() {
        return None;
    }
    match parted(b'\n', bytes) {
        Some(parts) => Some(parts),
        None => Some(bytes.split_at(bytes.len())),
    }
}

/// What stands before the first space, and what stands behind it.
pub fn at_space(line: &[u8]) -> Option<(&[u8], &[u8])>
    ensures { MatchOption result (at_space line.now ≡ None) (λ r. at_space line.now ≡ Some (r.0.now, r.1.now)) }
{
    parted(b' ', line)
}
