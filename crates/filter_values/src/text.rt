//! The type of a text: the bytes of a str value.
ghost use Rattle.std.specs.Prelude.{◌≡◌, ◌<◌, ◌≤◌, ◌↔◌, ℕ, length, IfOk, OnOk, IfNone, IfSome, IsSome, is_some, IsErrOf, IsTrue};
ghost use Rattle.std.specs.Prelude.{MatchOption, position, not, true, false};
ghost use Rattle.std.specs.Str.Lossy.{utf8_valid_len};
ghost use Rattle.std.specs.Str.{bytes_eq, is_utf8};
ghost use Rattle.std.specs.List.{list_all};
ghost use Rattle.filter_values.specs.Text.{IsText, IsBadUtf8, IsFirstControl, is_open_byte, is_text};

use crate::short_bytes::ShortBytes;
use base::NoMemory;
use std::alloc::Global;
use std::cmp::Ordering;
use std::marker::Model;

/// Why bytes are no text.
#[derive(Clone, Copy, Debug, PartialEq, Eq)]
pub enum TextFault {
    /// There are more than 1,024 bytes.
    TooLong,
    /// The bytes are no UTF-8; so many bytes has the longest prefix that is.
    BadUtf8(usize),
    /// The first control byte that a text may not have, by its place, counted from 0.
    Control(usize),
    /// Memory ran out.
    NoMemory,
}

const MAX_LEN: usize = 1024;

/// Whether a byte may stand in a text: no control character but the tab and the newline.
pub fn is_open_byte(b: u8) -> bool
    ensures { result ≡ is_open_byte b }
{
    match b {
        b'\t' | b'\n' => true,
        0..=31 | 127 => false,
        _ => true,
    }
}

// The length of the longest prefix that is UTF-8, where the whole is not.
fn bad_utf8(bytes: &[u8]) -> Option<usize>
    ensures { MatchOption result (is_utf8 bytes.now ≡ true) (λ i. (is_utf8 bytes.now ≡ false) × (i ≡ utf8_valid_len bytes.now)) }
{
    match std::str::from_utf8(bytes) {
        Ok(_) => None,
        Err(e) => Some(e.valid_up_to()),
    }
}

fn first_control(bytes: &[u8]) -> Option<usize>
    ensures { result ≡ position (λ b. not (is_open_byte b)) bytes.now }
{
    bytes.iter().position(|b| !is_open_byte(*b))
}

// The first place of a byte that no text has.
fn control(bytes: &[u8]) -> Option<usize>
    ensures value { result ≡ position (λ b. not (is_open_byte b)) bytes.now }
    ensures none { IfNone result (list_all is_open_byte bytes.now ≡ true) }
{
    first_control(bytes)
}

fn all_open(bytes: &[u8]) -> bool
    ensures { result ≡ list_all is_open_byte bytes.now }
{
    bytes.iter().all(|b| is_open_byte(*b))
}

/// Whether the bytes are a text. It takes no memory.
#[tactic(auto, using(crate::proofs::TextTests::text_tested, crate::proofs::TextTests::tested_text))]
pub fn is_text(bytes: &[u8]) -> bool
    ensures text { IsTrue result ↔ IsText bytes.now }
    ensures test { result ≡ is_text bytes.now }
{
    bytes.len() <= MAX_LEN && bad_utf8(bytes).is_none() && all_open(bytes)
}

/// A text: UTF-8 of at most 1,024 bytes without control bytes other than tab and newline (UTF-8 is
/// that of RFC 3629). Contracts see it as its bytes.
#[derive(Drop)]
pub struct Text {
    bytes: ShortBytes,
}

impl Model for Text {
    ghost use Rattle.std.specs.Prelude.{List, ℕ};
    ghost use Rattle.filter_values.specs.Text.{IsText};

    ghost Value = { List ℕ };

    ghost view = { λ text. text.bytes };

    ghost invariant = { λ text. IsText text.bytes };
}

impl Text {
    /// The bytes of the text.
    pub fn bytes(&self) -> &[u8]
        ensures bytes { result.now ≡ self.now }
        ensures text { IsText self.now }
    {
        self.bytes.as_slice()
    }

    /// The text of owned bytes, exactly where they are one. It takes no memory.
    pub fn from_bytes(bytes: Vec<u8>) -> Option<Text>
        ensures value { IfSome result (λ text. text ≡ bytes.items) }
        ensures some { IsSome result ↔ IsText bytes.items }
        ensures test { is_some result ≡ is_text bytes.items }
    {
        if is_text(&bytes) {
            Some(Text {
                bytes: ShortBytes::of_vec(bytes),
            })
        } else {
            None
        }
    }

    /// The text of these bytes. Where they are none it answers the first fault, tried in the order of
    /// `TextFault`.
    pub fn read(alloc: Global, bytes: &[u8]) -> Result<Text, TextFault>
        ensures value { IfOk result (λ text. text ≡ bytes.now) }
        ensures ok { OnOk result (IsText bytes.now) }
        ensures too_long { IsErrOf result TextFault.TooLong ↔ (1024 < length bytes.now) }
        ensures bad_utf8 { (i : ℕ) → IsErrOf result (TextFault.BadUtf8 i) ↔ IsBadUtf8 bytes.now i }
        ensures control { (i : ℕ) → IsErrOf result (TextFault.Control i) ↔ IsFirstControl bytes.now i }
        ensures memory { IsErrOf result TextFault.NoMemory → IsText bytes.now }
    {
        if bytes.len() > MAX_LEN {
            return Err(TextFault::TooLong);
        }
        if let Some(i) = bad_utf8(bytes) {
            return Err(TextFault::BadUtf8(i));
        }
        if let Some(i) = control(bytes) {
            return Err(TextFault::Control(i));
        }
        match ShortBytes::of_slice(alloc, bytes) {
            Ok(bytes) => Ok(Text { bytes }),
            Err(_) => Err(TextFault::NoMemory),
        }
    }

    /// An equal text.
    pub fn copy(&self, alloc: Global) -> Result<Text, NoMemory>
        ensures { IfOk result (λ text. text ≡ self.now) }
    {
        let bytes = ShortBytes::of_slice(alloc, self.bytes.as_slice())?;
        Ok(Text { bytes })
    }
}

impl PartialEq for Text {
    ghost use Rattle.std.specs.Str.{bytes_eq};
    ghost use Rattle.std.specs.Cmp.{partial_equiv_from_equiv};
    ghost use Rattle.std.specs.Cmp.Lexicographic.{nat_list_eq_equiv};

    ghost eq = { bytes_eq };

    ghost laws = { partial_equiv_from_equiv nat_list_eq_equiv };

    fn eq(&self, other: &Text) -> bool
        ensures test { result ≡ bytes_eq self.now other.now }
        ensures same { IsTrue result ↔ (self.now ≡ other.now) }
    {
        self.bytes.as_slice() == other.bytes.as_slice()
    }
}

impl Eq for Text {
    ghost use Rattle.std.specs.Cmp.Lexicographic.{nat_list_eq_equiv};

    ghost laws = { nat_list_eq_equiv };
}

impl PartialOrd for Text {
    ghost use Rattle.std.specs.Ordering.{as_partial_cmp, nat_cmp};
    ghost use Rattle.std.specs.Cmp.Lexicographic.{slice_cmp, texts_po};

    ghost partial_cmp = { as_partial_cmp (slice_cmp nat_cmp) };

    ghost laws = { texts_po };

    fn partial_cmp(&self, other: &Text) -> Option<Ordering> {
        Some(self.cmp(other))
    }
}

impl Ord for Text {
    ghost use Rattle.std.specs.Ordering.{nat_cmp};
    ghost use Rattle.std.specs.Prelude.{refl};
    ghost use Rattle.std.specs.Cmp.Lexicographic.{slice_cmp, nat_list_cmp_total, texts_ties};

    ghost cmp = { slice_cmp nat_cmp };

    ghost total = { nat_list_cmp_total };

    ghost matches_partial_cmp = { λ x y. refl };

    ghost matches_eq = { texts_ties };

    fn cmp(&self, other: &Text) -> Ordering {
        self.bytes.as_slice().cmp(other.bytes.as_slice())
    }
}
