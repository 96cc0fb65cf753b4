//! Tests bytes against bytes: order, prefix, suffix and part.
ghost use Rattle.std.specs.Prelude.{◌≡◌, not};
ghost use Rattle.std.specs.Str.{bytes_eq};
ghost use Rattle.filter_constraints.specs.Bytes.{less, has_prefix, has_suffix, has_part};

use memchr::memmem;
use std::cmp::Ordering;

#[tactic(auto, unfolding(crate::specs::Bytes::less))]
pub(crate) fn is_less(x: &[u8], y: &[u8]) -> bool
    ensures { result ≡ less x.now y.now }
{
    match x.cmp(y) {
        Ordering::Less => true,
        _ => false,
    }
}

pub(crate) fn is_same(x: &[u8], y: &[u8]) -> bool
    ensures { result ≡ bytes_eq x.now y.now }
{
    x == y
}

/// Whether the bytes x begin with the bytes u.
#[tactic(auto, unfolding(crate::specs::Bytes::has_prefix))]
pub fn has_prefix(x: &[u8], u: &[u8]) -> bool
    ensures { result ≡ has_prefix x.now u.now }
{
    x.starts_with(u)
}

/// Whether the bytes x end with the bytes u.
#[tactic(auto, unfolding(crate::specs::Bytes::has_suffix))]
pub fn has_suffix(x: &[u8], u: &[u8]) -> bool
    ensures { result ≡ has_suffix x.now u.now }
{
    x.ends_with(u)
}

pub(crate) fn has_part(x: &[u8], u: &[u8]) -> bool
    ensures { result ≡ has_part x.now u.now }
{
    memmem::find(x, u).is_some()
}
