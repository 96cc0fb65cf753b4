//! Tests whether a key occurs in a text.
ghost use Rattle.std.specs.Prelude.{◌≡◌};
ghost use Rattle.filter_constraints.specs.Bytes.{has_part};

use memchr::memmem;

/// Up to this length of a text, looking at its bytes one by one is quicker than to make a searcher for the key.
const SHORT: usize = 64;

/// Whether the bytes of a key stand in a text.
pub(crate) fn has_part(x: &[u8], u: &[u8]) -> bool
    ensures { result ≡ has_part x.now u.now }
{
    if x.len() <= SHORT {
        return has_part_short(x, u);
    }
    memmem::find(x, u).is_some()
}

/// The same for a short text.
fn has_part_short(x: &[u8], u: &[u8]) -> bool
    ensures { result ≡ has_part x.now u.now }
{
    let Some((first, rest)) = u.split_first() else {
        return true;
    };
    let mut left = x;
    while let Some((byte, later)) = left.split_first() {
        if byte == first && later.starts_with(rest) {
            return true;
        }
        left = later;
    }
    false
}
