//! Finds the marks of a text: of its pairs and fours of neighbouring bytes.
ghost use Rattle.std.specs.Prelude.{◌≡◌, ◌≢◌, ◌+◌, ◌*◌, ◌^◌, ◌<◌, ◌≤◌, ◌==◌, ℕ, length};
ghost use Rattle.base_bits.specs.Words.{bit};
ghost use Rattle.match_texts.specs.Marks.{pair, four, first_mark, first_pair, last_mark, last_pair, AreMarked};
ghost use Rattle.match_texts.specs.Groups.{mark_of};

/// The place of all that is shorter than two bytes, behind those of pairs and of fours.
pub(crate) const SHORT: u32 = 8192;

/// So many words have a bit for each place.
pub(crate) const WORDS: usize = 129;

/// Where the first four bytes of a pattern fall, and the last four; of a pattern of two or three bytes the first two and the
/// last two.
#[derive(Clone, Copy)]
pub struct Mark {
    pub(crate) first: u32,
    pub(crate) last: u32,
}

/// The place of two bytes.
#[inline]
fn pair(a: u8, b: u8) -> u32
    ensures value { result ≡ pair a b }
    ensures within { result < 4096 }
{
    64 * (u32::from(a) % 64) + u32::from(b) % 64
}

/// The place of four bytes, behind those of two.
#[inline]
fn four(a: u8, b: u8, c: u8, d: u8) -> u32
    ensures value { result ≡ four a b c d }
    ensures within { result < 8192 }
{
    4096 + (u32::from(a) + 37 * u32::from(b) + 331 * u32::from(c) + 2741 * u32::from(d)) % 4096
}

/// The place of the first four bytes, or of the first two where there are no more than three.
pub(crate) fn first_mark(x: &[u8]) -> u32
    ensures value { result ≡ first_mark x.now }
    ensures within { result ≤ 8192 }
{
    match x {
        [a, b, c, d, ..] => four(*a, *b, *c, *d),
        [a, b, ..] => pair(*a, *b),
        _ => SHORT,
    }
}

/// The place of the first two bytes alone.
pub(crate) fn first_pair(x: &[u8]) -> u32
    ensures value { result ≡ first_pair x.now }
    ensures within { result ≤ 8192 }
{
    match x {
        [a, b, ..] => pair(*a, *b),
        _ => SHORT,
    }
}

/// The place of the last four bytes, or of the last two where there are no more than three.
pub(crate) fn last_mark(x: &[u8]) -> u32
    ensures { result ≡ last_mark x.now }
{
    let count = if x.len() < 4 { 2 } else { 4 };
    first_mark(&x[x.len().saturating_sub(count)..])
}

/// The place of the last two bytes alone.
pub(crate) fn last_pair(x: &[u8]) -> u32
    ensures { result ≡ last_pair x.now }
{
    first_pair(&x[x.len().saturating_sub(2)..])
}

/// The marks of a pattern.
pub(crate) fn mark_of(u: &[u8]) -> Mark
    ensures { result ≡ mark_of u.now }
{
    Mark {
        first: first_mark(u),
        last: last_mark(u),
    }
}

/// Whether a place is marked.
#[tactic(auto, unfolding(base_bits::specs::Words::bit))]
#[inline]
pub(crate) fn is_marked(words: &[u64], i: u32) -> bool
    requires { i < 64 * length words.now }
    ensures { result ≡ (bit words.now i == 1) }
{
    words[(i / 64) as usize] >> (i % 64) & 1 == 1
}

/// Marks a place.
#[tactic(auto, unfolding(base_bits::specs::Words::bit))]
#[inline]
fn put(words: &mut [u64], i: u32)
    requires { i < 64 * length words.old }
    ensures length { length words.new ≡ length words.old }
    ensures there { bit words.new i ≡ 1 }
    ensures others { (k : ℕ) → k ≢ i → bit words.new k ≡ bit words.old k }
{
    words[(i / 64) as usize] |= 1 << (i % 64);
}

/// Marks the places of all pairs and fours of a text.
pub(crate) fn mark_all(words: &mut [u64], x: &[u8])
    requires { length words.old ≡ 129 }
    ensures long { length words.new ≡ 129 }
    ensures marked { AreMarked words.new x.now }
{
    let mut left = x;
    while let Some((_, rest)) = left.split_first() {
        put(words, first_mark(left));
        put(words, first_pair(left));
        left = rest;
    }
    put(words, SHORT);
}
