//! The type of a name: of an attribute, a client or a pattern.
ghost use Rattle.std.specs.Prelude.{◌≡◌, ◌<◌, ◌↔◌, ℕ, List, length, slice_index, IfOk, MatchOption, OnOk, IsErrOf, IsTrue};
ghost use Rattle.std.specs.Str.{bytes_eq};
ghost use Rattle.filter_values.specs.Name.{FitsNameAt, IsFirstBad, IsName, is_name};

use crate::short_bytes::ShortBytes;
use base::NoMemory;
use std::alloc::{AllocError, Global};
use std::cmp::Ordering;
use std::marker::Model;

/// Why bytes are no name.
#[derive(Clone, Copy, Debug, PartialEq, Eq)]
pub enum NameFault {
    /// There is no byte.
    Empty,
    /// There are more than 64 bytes.
    TooLong,
    /// The first byte that may not stand at its place, by that place, counted from 0.
    BadByte(usize),
    /// Memory ran out.
    NoMemory,
}

impl From<AllocError> for NameFault {
    ghost use Rattle.std.specs.Prelude.{◌≡◌};
    ghost use Rattle.filter_values.specs.declared.name.NameFault.TheVariants.{NoMemory};

    ghost from_gives = { λ _ e. e ≡ NoMemory };

    fn from(_: AllocError) -> Self {
        NameFault::NoMemory
    }
}

/// A name: 1 to 64 letters, digits, `_`, `.` and `-` of ASCII, the first a letter. Contracts see it
/// as its bytes.
#[derive(Drop)]
pub struct Name {
    bytes: ShortBytes,
}

impl Model for Name {
    ghost use Rattle.std.specs.Prelude.{List, ℕ};
    ghost use Rattle.filter_values.specs.Name.{IsName};

    ghost Value = { List ℕ };

    ghost view = { λ name. name.bytes };

    ghost invariant = { λ name. IsName name.bytes };
}

const MAX_LEN: usize = 64;

fn fits_at(place: usize, byte: u8) -> bool
    ensures { IsTrue result ↔ FitsNameAt place byte }
{
    match byte {
        b'a'..=b'z' | b'A'..=b'Z' => true,
        b'0'..=b'9' | b'_' | b'.' | b'-' => place != 0,
        _ => false,
    }
}

// The first place of a byte that may not stand there.
fn first_misfit(bytes: &[u8]) -> Option<usize>
    ensures { MatchOption result
        ((k : ℕ) → k < length bytes.now → FitsNameAt k (slice_index bytes.now k))
        (λ i. (i < length bytes.now) × (FitsNameAt i (slice_index bytes.now i) → ⊥) × ((k : ℕ) → k < i → FitsNameAt k (slice_index bytes.now k))) }
{
    for (i, byte) in bytes.iter().enumerate() {
        if !fits_at(i, *byte) {
            return Some(i);
        }
    }
    None
}

/// Whether the bytes are a name. It takes no memory.
#[tactic(auto, using(crate::proofs::NameTests::name_tested, crate::proofs::NameTests::tested_name))]
pub fn is_name(bytes: &[u8]) -> bool
    ensures name { IsTrue result ↔ IsName bytes.now }
    ensures test { result ≡ is_name bytes.now }
{
    !bytes.is_empty() && bytes.len() <= MAX_LEN && first_misfit(bytes).is_none()
}

impl Name {
    /// The name that the bytes spell. Where they spell none it answers the first fault, tried in the
    /// order of `NameFault`.
    pub fn read(alloc: Global, bytes: &[u8]) -> Result<Name, NameFault>
        ensures value { IfOk result (λ name. name ≡ bytes.now) }
        ensures ok { OnOk result (IsName bytes.now) }
        ensures empty { IsErrOf result NameFault.Empty ↔ (length bytes.now ≡ 0) }
        ensures too_long { IsErrOf result NameFault.TooLong ↔ (64 < length bytes.now) }
        ensures bad_byte { (i : ℕ) → IsErrOf result (NameFault.BadByte i) ↔ IsFirstBad bytes.now i }
        ensures memory { IsErrOf result NameFault.NoMemory → IsName bytes.now }
    {
        if bytes.is_empty() {
            return Err(NameFault::Empty);
        }
        if bytes.len() > MAX_LEN {
            return Err(NameFault::TooLong);
        }
        if let Some(i) = first_misfit(bytes) {
            return Err(NameFault::BadByte(i));
        }
        let bytes = ShortBytes::of_slice(alloc, bytes)?;
        Ok(Name { bytes })
    }

    /// The bytes of the name.
    pub fn bytes(&self) -> &[u8]
        ensures bytes { result.now ≡ self.now }
        ensures name { IsName self.now }
    {
        self.bytes.as_slice()
    }

    /// An equal name.
    pub fn copy(&self, alloc: Global) -> Result<Name, NoMemory>
        ensures { IfOk result (λ name. name ≡ self.now) }
    {
        let bytes = ShortBytes::of_slice(alloc, self.bytes.as_slice())?;
        Ok(Name { bytes })
    }
}

impl PartialEq for Name {
    ghost use Rattle.std.specs.Str.{bytes_eq};
    ghost use Rattle.std.specs.Cmp.{partial_equiv_from_equiv};
    ghost use Rattle.std.specs.Cmp.Lexicographic.{nat_list_eq_equiv};

    ghost eq = { bytes_eq };

    ghost laws = { partial_equiv_from_equiv nat_list_eq_equiv };

    fn eq(&self, other: &Name) -> bool
        ensures test { result ≡ bytes_eq self.now other.now }
        ensures same { IsTrue result ↔ (self.now ≡ other.now) }
    {
        self.bytes.as_slice() == other.bytes.as_slice()
    }
}

impl Eq for Name {
    ghost use Rattle.std.specs.Cmp.Lexicographic.{nat_list_eq_equiv};

    ghost laws = { nat_list_eq_equiv };
}

impl PartialOrd for Name {
    ghost use Rattle.std.specs.Ordering.{as_partial_cmp, nat_cmp};
    ghost use Rattle.std.specs.Cmp.Lexicographic.{slice_cmp, texts_po};

    ghost partial_cmp = { as_partial_cmp (slice_cmp nat_cmp) };

    ghost laws = { texts_po };

    fn partial_cmp(&self, other: &Name) -> Option<Ordering> {
        Some(self.cmp(other))
    }
}

impl Ord for Name {
    ghost use Rattle.std.specs.Ordering.{nat_cmp};
    ghost use Rattle.std.specs.Prelude.{refl};
    ghost use Rattle.std.specs.Cmp.Lexicographic.{slice_cmp, nat_list_cmp_total, texts_ties};

    ghost cmp = { slice_cmp nat_cmp };

    ghost total = { nat_list_cmp_total };

    ghost matches_partial_cmp = { λ x y. refl };

    ghost matches_eq = { texts_ties };

    fn cmp(&self, other: &Name) -> Ordering {
        self.bytes.as_slice().cmp(other.bytes.as_slice())
    }
}
