//! Finds the line in which a place of the input lies.
ghost use Rattle.std.specs.Prelude.{◌≡◌, ◌≤◌, ◌+◌, length, filter, nat_eq, take};
ghost use Rattle.audit_verdict.specs.Verdict.{line_at};

// How many newlines these bytes have.
fn newlines(bytes: &[u8]) -> u32
    requires { length bytes.now ≤ 268435456 }
    ensures value { result ≡ length (filter (nat_eq 10) bytes.now) }
    ensures most { result ≤ length bytes.now }
{
    let mut count = 0;
    for byte in bytes {
        if *byte == b'\n' {
            count += 1;
        }
    }
    count
}

/// The number of the line of an output at which a place stands; the first line has this number, and so has the end.
pub fn line_at(first: u32, end: u32, output: &[u8], place: usize) -> u32
    requires first { first ≤ 268435458 }
    requires short { length output.now ≤ 268435456 }
    requires within { place ≤ length output.now }
    ensures { result ≡ line_at first end output.now place }
{
    if place == output.len() {
        return end;
    }
    let (before, _) = output.split_at(place);
    first + newlines(before)
}

/// Where the trace of an output seems to begin: at the first line with the first word `trace`, or else at the beginning.
pub fn trace_at(output: &[u8]) -> usize
    ensures { result ≤ length output.now }
{
    for (i, byte) in output.iter().enumerate() {
        if *byte == b'\n' && output[i + 1..].starts_with(b"trace ") {
            return i + 1;
        }
    }
    0
}
