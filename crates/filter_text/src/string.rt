//! Reads and writes the text of a str value.
ghost use Rattle.std.specs.Prelude.{◌≡◌, ◌++◌, [], false, OnOk};
ghost use Rattle.filter_text.specs.Reading.{Reads};
ghost use Rattle.filter_text.specs.ValueText.{escape, string_text};
ghost use Rattle.filter_text.specs.Values.{plain, body_at, text_at};

use crate::fault::WireFault;
use crate::reader::Reader;
use base::NoMemory;
use filter_values::Text;
use std::alloc::Global;

/// The byte that a byte behind a backslash represents; `None` for an unknown escape.
pub fn unescape(b: u8) -> Option<u8>
    ensures { result ≡ plain b }
{
    match b {
        b'"' => Some(b'"'),
        b'\\' => Some(b'\\'),
        b'n' => Some(b'\n'),
        b't' => Some(b'\t'),
        _ => None,
    }
}

impl<'a> Reader<'a> {
    // The bytes up to the closing mark, which is read too.
    fn body(&mut self, alloc: Global) -> Result<Vec<u8>, WireFault>
        ensures { Reads (λ x. x.items) result (body_at [] false self.old.rest.now) self.new.rest.now }
    {
        let bytes = self.rest;
        let mut text = Vec::new(alloc);
        let mut slashed = false;
        for (i, b) in bytes.iter().enumerate() {
            if slashed {
                let Some(c) = unescape(*b) else {
                    return Err(WireFault::Outside);
                };
                text.push(c)?;
                slashed = false;
            } else if *b == b'"' {
                self.rest = &bytes[i + 1..];
                return Ok(text);
            } else if *b == b'\\' {
                slashed = true;
            } else if *b == b'\n' || *b == b'\t' {
                return Err(WireFault::Outside);
            } else {
                text.push(*b)?;
            }
        }
        Err(WireFault::Outside)
    }

    /// A str value.
    #[tactic(auto, unfolding(crate::specs::Values::text_at))]
    pub fn text(&mut self, alloc: Global) -> Result<Text, WireFault>
        ensures { Reads (λ x. x) result (text_at self.old.rest.now) self.new.rest.now }
    {
        let [b'"', rest @ ..] = self.rest else {
            return Err(WireFault::Outside);
        };
        self.rest = rest;
        let body = self.body(alloc)?;
        match Text::from_bytes(body) {
            Some(text) => Ok(text),
            None => Err(WireFault::Outside),
        }
    }
}

// Puts the text of a byte at the end.
fn push_escaped(out: &mut Vec<u8>, b: u8) -> Result<(), NoMemory>
    ensures { OnOk result (out.new.items ≡ out.old.items ++ escape b) }
{
    match b {
        b'"' => out.extend_from_slice(b"\\\"")?,
        b'\\' => out.extend_from_slice(b"\\\\")?,
        b'\n' => out.extend_from_slice(b"\\n")?,
        b'\t' => out.extend_from_slice(b"\\t")?,
        _ => out.push(b)?,
    }
    Ok(())
}

/// Puts the text of a str value at the end.
pub fn push_string(out: &mut Vec<u8>, text: &Text) -> Result<(), NoMemory>
    ensures { OnOk result (out.new.items ≡ out.old.items ++ string_text text.now) }
{
    out.push(b'"')?;
    for b in text.bytes() {
        push_escaped(out, *b)?;
    }
    out.push(b'"')?;
    Ok(())
}
