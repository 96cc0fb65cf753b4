//! The type of the keys of a line of texts, which are mostly compared by a number of their first bytes.
ghost use Rattle.std.specs.Prelude.{◌≡◌, ◌<◌, ℕ, slice_index_or};
ghost use Rattle.std.specs.Ordering.{nat_cmp};
ghost use Rattle.std.specs.Cmp.Lexicographic.{slice_cmp};
ghost use Rattle.match_texts.specs.Keys.{head_of};

use base::NoMemory;
use match_index::{LineKey, Sought};
use std::alloc::Global;
use std::cmp::Ordering;
use std::marker::Model;

/// The byte at a place, or 0 behind the last one.
#[inline]
fn byte_at(x: &[u8], i: usize) -> u64
    ensures value { result ≡ slice_index_or x.now i 0 }
    ensures small { result < 256 }
{
    match x.get(i) {
        Some(byte) => u64::from(*byte),
        None => 0,
    }
}

/// The first eight bytes as one number.
fn head_of(x: &[u8]) -> u64
    ensures { result ≡ head_of x.now }
{
    let mut head = 0;
    for i in 0..8 {
        head = head * 256 + byte_at(x, i);
    }
    head
}

/// Does nothing; by its contract a byte is below 256.
#[inline]
fn lemma_bytes(x: &[u8])
    ensures { (i : ℕ) → slice_index_or x.now i 0 < 256 }
{
    let _first = x.first();
}

/// How a text compares with another one: by their first bytes at once, and by all where these are the same.
#[inline]
fn compare(head: u64, x: &[u8], other: u64, y: &[u8]) -> Ordering
    requires head { head ≡ head_of x.now }
    requires other { other ≡ head_of y.now }
    ensures { result ≡ slice_cmp nat_cmp x.now y.now }
{
    lemma_bytes(x);
    lemma_bytes(y);
    if head < other {
        return Ordering::Less;
    }
    if other < head {
        return Ordering::Greater;
    }
    x.cmp(y)
}

/// The bytes of an operand, in the order of texts: the first that differ decide, and a proper prefix comes first.
#[derive(Drop)]
pub struct TextKey {
    head: u64,
    bytes: Vec<u8>,
}

impl Model for TextKey {
    ghost use Rattle.std.specs.Prelude.{◌≡◌, List, ℕ};
    ghost use Rattle.match_texts.specs.Keys.{head_of};

    ghost Value = { List ℕ };

    ghost view = { λ key. key.bytes.items };

    ghost invariant = { λ key. key.head ≡ head_of key.bytes.items };
}

impl TextKey {
    ghost use Rattle.std.specs.Prelude.{◌≡◌, IfOk};

    /// A copy of bytes.
    pub fn with(alloc: Global, bytes: &[u8]) -> Result<TextKey, NoMemory>
        ensures { IfOk result (λ key. key ≡ bytes.now) }
    {
        let head = head_of(bytes);
        let bytes = Vec::from_slice(alloc, bytes)?;
        Ok(TextKey { head, bytes })
    }
}

impl LineKey for TextKey {
    ghost use Rattle.std.specs.Ordering.{nat_cmp};
    ghost use Rattle.std.specs.Cmp.Lexicographic.{slice_cmp};
    ghost use Rattle.std.proofs.lemmas.Cmp.{nat_list_cmp_total};
    ghost use Rattle.std.proofs.lemmas.Map.Lookups.{exact_bytes};

    ghost order = { slice_cmp nat_cmp };

    ghost total = { nat_list_cmp_total };

    ghost exact = { exact_bytes };

    #[inline]
    fn compare(&self, other: &TextKey) -> Ordering {
        compare(self.head, &self.bytes, other.head, &other.bytes)
    }
}

/// A text that is looked for.
#[derive(Clone, Copy)]
pub struct SoughtText<'a> {
    head: u64,
    bytes: &'a [u8],
    ghost packed: { head ≡ head_of bytes.now },
}

impl<'a> SoughtText<'a> {
    ghost use Rattle.std.specs.Prelude.{◌≡◌};

    /// These bytes.
    pub fn of(bytes: &'a [u8]) -> SoughtText<'a>
        ensures { result.bytes.now ≡ bytes.now }
    {
        let head = head_of(bytes);
        SoughtText { head, bytes }
    }
}

impl<'a> Sought<TextKey> for SoughtText<'a> {
    ghost meant = { λ sought. sought.bytes.now };

    #[inline]
    fn against(self, key: &TextKey) -> Ordering {
        compare(key.head, &key.bytes, self.head, self.bytes)
    }
}
