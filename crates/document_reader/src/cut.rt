//! Cuts bytes into lines, and a line into words.
ghost use Rattle.std.specs.Prelude.{◌≡◌, ◌≢◌, ◌∷◌, [], ◌<◌, ◌≤◌, length, IfSome, MatchOption, slice_index, ℕ, true, false};
ghost use Rattle.document_reader.specs.Lines.{IsFirstLine, is_blank, lines, without_return, words};

use memchr::memchr;

/// Whether the byte is a space or a tab.
pub(crate) fn is_blank(byte: u8) -> bool
    ensures { result ≡ is_blank byte }
{
    byte == b' ' || byte == b'\t'
}

// How many bytes stand before the first newline, or in all where there is none.
fn line_len(bytes: &[u8]) -> usize
    ensures within { result ≤ length bytes.now }
    ensures before { (k : ℕ) → k < result → slice_index bytes.now k ≢ 10 }
    ensures at { result < length bytes.now → slice_index bytes.now result ≡ 10 }
{
    if !bytes.is_empty() && bytes[0] == b'\n' {
        return 0;
    }
    match memchr(b'\n', bytes) {
        Some(i) => i,
        None => bytes.len(),
    }
}

fn without_return(line: &[u8]) -> &[u8]
    ensures value { result.now ≡ without_return line.now }
    ensures len { length result.now ≤ length line.now }
{
    if line.len() == 0 {
        return line;
    }
    let before = line.len() - 1;
    if line[before] != b'\r' {
        return line;
    }
    let (front, _) = line.split_at(before);
    front
}

/// The first line, without its end, and the bytes behind it; `None` where there are no bytes.
pub fn next_line(bytes: &[u8]) -> Option<(&[u8], &[u8])>
    ensures cut { MatchOption result (lines bytes.now ≡ []) (λ r. lines bytes.now ≡ r.0.now ∷ lines r.1.now) }
    ensures parts { IfSome result (λ r. IsFirstLine bytes.now r.0.now r.1.now) }
    ensures within { IfSome result (λ r. length r.0.now ≤ length bytes.now) }
    ensures shorter { IfSome result (λ r. length r.1.now < length bytes.now) }
{
    if bytes.len() == 0 {
        return None;
    }
    let at = line_len(bytes);
    let (line, end) = bytes.split_at(at);
    if end.len() == 0 {
        return Some((line, end));
    }
    let (_, rest) = bytes.split_at(at + 1);
    Some((without_return(line), rest))
}

// How many blanks stand in front.
fn blanks_len(bytes: &[u8]) -> usize
    ensures within { result ≤ length bytes.now }
    ensures before { (k : ℕ) → k < result → is_blank (slice_index bytes.now k) ≡ true }
    ensures at { result < length bytes.now → is_blank (slice_index bytes.now result) ≡ false }
{
    for (i, b) in bytes.iter().enumerate() {
        if !is_blank(*b) {
            return i;
        }
    }
    bytes.len()
}

// How many bytes stand before the first blank, or in all where there is none.
fn word_len(bytes: &[u8]) -> usize
    ensures within { result ≤ length bytes.now }
    ensures before { (k : ℕ) → k < result → is_blank (slice_index bytes.now k) ≡ false }
    ensures at { result < length bytes.now → is_blank (slice_index bytes.now result) ≡ true }
{
    for (i, b) in bytes.iter().enumerate() {
        if is_blank(*b) {
            return i;
        }
    }
    bytes.len()
}

/// The first word of a line, and the bytes behind it; `None` where the line has no word.
pub fn next_word(bytes: &[u8]) -> Option<(&[u8], &[u8])>
    ensures { MatchOption result (words bytes.now ≡ []) (λ r. words bytes.now ≡ r.0.now ∷ words r.1.now) }
{
    let (_, text) = bytes.split_at(blanks_len(bytes));
    if text.len() == 0 {
        return None;
    }
    Some(text.split_at(word_len(text)))
}
