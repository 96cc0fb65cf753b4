//! Cuts one token off the front of a line.
ghost use Rattle.std.specs.Prelude.{◌≡◌, ◌≤◌, ◌∷◌, [], false, length, take, drop, IfOk, Some, None};
ghost use Rattle.std.specs.List.{list_all};
ghost use Rattle.std.specs.Str.{is_utf8};
ghost use Rattle.filter_values.specs.Text.{is_open_byte};
ghost use Rattle.document_script.specs.Tokens.{cut_by, equals_at, is_string, is_word_byte, quoted_at, run_at, skip, string_seen, string_token, token_at, tokens};
ghost use Rattle.document_script.specs.Seen.{seen};
ghost use Rattle.document_script.specs.Form.{more_in, op_in, word_in};
ghost use Rattle.document_script.specs.Reading.{Cuts, Nexts, Quotes, TakesFront};

use crate::token::Token;
use base::NoMemory;
use filter_constraints::Op;
use filter_text::{op_named, unescape};
use filter_values::{Text, TextFault, is_open_byte};
use std::alloc::Global;

/// The bytes of a line that are still to be cut.
#[derive(Drop)]
pub(crate) struct Cutter<'a> {
    /// The bytes.
    pub(crate) rest: &'a [u8],
}

// Each byte of a word stands at its own place, and a comma at every other place.
static WORD_MAP: [u8; 256] = *b"\
    ,,,,,,,,,,,,,,,,,,,,,,,,,,,,,,,,\
    ,,,,,,,,,,,+,-.,0123456789,,,,,,\
    ,ABCDEFGHIJKLMNOPQRSTUVWXYZ,,,,_\
    ,abcdefghijklmnopqrstuvwxyz,,,,,\
    ,,,,,,,,,,,,,,,,,,,,,,,,,,,,,,,,\
    ,,,,,,,,,,,,,,,,,,,,,,,,,,,,,,,,\
    ,,,,,,,,,,,,,,,,,,,,,,,,,,,,,,,,\
    ,,,,,,,,,,,,,,,,,,,,,,,,,,,,,,,,";

fn is_word_byte(b: u8) -> bool
    ensures { result ≡ is_word_byte b }
{
    WORD_MAP[b as usize] != b','
}

fn is_utf8(bytes: &[u8]) -> bool
    ensures { result ≡ is_utf8 bytes.now }
{
    match std::str::from_utf8(bytes) {
        Ok(_) => true,
        Err(_) => false,
    }
}

fn all_open(bytes: &[u8]) -> bool
    ensures { result ≡ list_all is_open_byte bytes.now }
{
    bytes.iter().all(|b| is_open_byte(*b))
}

fn is_string(bytes: &[u8]) -> bool
    ensures { result ≡ is_string bytes.now }
{
    is_utf8(bytes) && all_open(bytes)
}

// The token of a string's decoded bytes.
fn string_seen<'a>(bytes: Vec<u8>) -> Token<'a>
    ensures { seen result ≡ string_seen bytes.items }
{
    if bytes.len() > 1024 {
        if is_string(&bytes) {
            Token::Long
        } else {
            Token::Bad
        }
    } else {
        match Text::from_bytes(bytes) {
            Some(text) => Token::Str(text),
            None => Token::Bad,
        }
    }
}

// The token of a string's bytes, none of which is decoded.
fn plain_seen<'a>(alloc: Global, bytes: &[u8]) -> Result<Token<'a>, NoMemory>
    ensures { IfOk result (λ t. seen t ≡ string_seen bytes.now) }
{
    if bytes.len() > 1024 {
        return Ok(if is_string(bytes) {
            Token::Long
        } else {
            Token::Bad
        });
    }
    match Text::read(alloc, bytes) {
        Ok(text) => Ok(Token::Str(text)),
        Err(TextFault::TooLong) => Ok(Token::Long),
        Err(TextFault::BadUtf8(_)) => Ok(Token::Bad),
        Err(TextFault::Control(_)) => Ok(Token::Bad),
        Err(TextFault::NoMemory) => Err(NoMemory),
    }
}

impl<'a> Cutter<'a> {
    // Leaves out spaces and tabs in front.
    fn skip(&mut self)
        ensures { self.new.rest.now ≡ skip self.old.rest.now }
    {
        let bytes = self.rest;
        for (i, b) in bytes.iter().enumerate() {
            if *b != b' ' && *b != b'\t' {
                self.rest = &bytes[i..];
                return;
            }
        }
        self.rest = &bytes[bytes.len()..];
    }

    // The longest run of a word's bytes.
    fn run(&mut self) -> &'a [u8]
        ensures { (result.now, self.new.rest.now) ≡ run_at [] self.old.rest.now }
    {
        let bytes = self.rest;
        for (i, b) in bytes.iter().enumerate() {
            if !is_word_byte(*b) {
                self.rest = &bytes[i..];
                return &bytes[..i];
            }
        }
        self.rest = &bytes[bytes.len()..];
        bytes
    }

    // The decoded bytes up to the closing mark, which is read too; where there are none nothing is read.
    fn quoted(&mut self, alloc: Global) -> Result<Option<Vec<u8>>, NoMemory>
        ensures { Quotes (λ v. v.items) result (quoted_at [] false self.old.rest.now) self.old.rest.now self.new.rest.now }
    {
        let bytes = self.rest;
        let mut read = Vec::new(alloc);
        let mut slashed = false;
        for (i, b) in bytes.iter().enumerate() {
            if slashed {
                let Some(c) = unescape(*b) else {
                    return Ok(None);
                };
                read.push(c)?;
                slashed = false;
            } else if *b == b'"' {
                self.rest = &bytes[i + 1..];
                return Ok(Some(read));
            } else if *b == b'\\' {
                slashed = true;
            } else if *b == b'\n' {
                return Ok(None);
            } else {
                read.push(*b)?;
            }
        }
        Ok(None)
    }

    // How many bytes stand before the first closing mark, backslash or newline, or in all where there is none.
    fn plain_len(&self) -> usize
        ensures within { result ≤ length self.now.rest.now }
        ensures quoted { quoted_at (take result self.now.rest.now) false (drop result self.now.rest.now) ≡ quoted_at [] false self.now.rest.now }
    {
        let bytes = self.rest;
        for (i, b) in bytes.iter().enumerate() {
            if *b == b'"' || *b == b'\\' || *b == b'\n' {
                return i;
            }
        }
        bytes.len()
    }

    // A string up to its closing mark, of which bytes are decoded.
    fn escaped(&mut self, alloc: Global) -> Result<Token<'a>, NoMemory>
        ensures { Cuts result (string_token (quoted_at [] false self.old.rest.now) self.old.rest.now) self.new.rest.now }
    {
        match self.quoted(alloc)? {
            Some(bytes) => Ok(string_seen(bytes)),
            None => Ok(Token::Bad),
        }
    }

    fn string(&mut self, alloc: Global) -> Result<Token<'a>, NoMemory>
        ensures { Cuts result (string_token (quoted_at [] false self.old.rest.now) self.old.rest.now) self.new.rest.now }
    {
        let (plain, back) = self.rest.split_at(self.plain_len());
        match back {
            [b'"', after @ ..] => {
                let token = plain_seen(alloc, plain)?;
                self.rest = after;
                Ok(token)
            }
            _ => self.escaped(alloc),
        }
    }

    // Whether `=` stands in front, which is read then.
    fn equals(&mut self) -> bool
        ensures { (result, self.new.rest.now) ≡ equals_at self.old.rest.now }
    {
        match self.rest {
            [b'=', rest @ ..] => {
                self.rest = rest;
                true
            }
            _ => false,
        }
    }

    // The token that begins with the first byte.
    #[tactic(auto, unfolding(crate::specs::Tokens::token_at))]
    fn cut(&mut self, alloc: Global, first: u8, after: &'a [u8]) -> Result<Token<'a>, NoMemory>
        requires { self.old.rest.now ≡ first ∷ after.now }
        ensures { Cuts result (token_at first after.now) self.new.rest.now }
    {
        if is_word_byte(first) {
            return Ok(Token::Word(self.run()));
        }
        self.rest = after;
        match first {
            b'"' => self.string(alloc),
            b';' => Ok(Token::Semicolon),
            b'=' => Ok(Token::Sign(Op::Eq)),
            b'<' => Ok(Token::Sign(if self.equals() { Op::Le } else { Op::Lt })),
            b'>' => Ok(Token::Sign(if self.equals() { Op::Ge } else { Op::Gt })),
            b'!' => Ok(if self.equals() {
                Token::Sign(Op::Ne)
            } else {
                Token::Bad
            }),
            _ => Ok(Token::Bad),
        }
    }

    /// The word in front; where none stands there what is left has no meaning.
    pub(crate) fn word(&mut self) -> Option<&'a [u8]>
        ensures { TakesFront (λ w. w.now) result (word_in (tokens self.old.rest.now)) (tokens self.new.rest.now) }
    {
        self.skip();
        match self.rest {
            [] => None,
            [first, ..] => {
                if is_word_byte(*first) {
                    Some(self.run())
                } else {
                    None
                }
            }
        }
    }

    // The sign that begins with the first byte, which was read.
    #[tactic(auto, unfolding(crate::specs::Tokens::token_at))]
    fn sign(&mut self, first: u8) -> Option<Op>
        requires { is_word_byte first ≡ false }
        ensures { TakesFront (λ o. o) result (op_in (cut_by tokens (first ∷ self.old.rest.now))) (tokens self.new.rest.now) }
    {
        match first {
            b'=' => Some(Op::Eq),
            b'<' => Some(if self.equals() { Op::Le } else { Op::Lt }),
            b'>' => Some(if self.equals() { Op::Ge } else { Op::Gt }),
            b'!' => { if self.equals() { Some(Op::Ne) } else { None } }
            _ => None,
        }
    }

    /// The operator in front; where none stands there what is left has no meaning.
    pub(crate) fn op(&mut self) -> Option<Op>
        ensures { TakesFront (λ o. o) result (op_in (tokens self.old.rest.now)) (tokens self.new.rest.now) }
    {
        self.skip();
        match self.rest {
            [] => None,
            [first, after @ ..] => {
                if is_word_byte(*first) {
                    op_named(self.run())
                } else {
                    self.rest = after;
                    self.sign(*first)
                }
            }
        }
    }

    /// Whether a semicolon stands in front, and not the end of the line; where neither does what is left has no meaning.
    pub(crate) fn more(&mut self) -> Option<bool>
        ensures { TakesFront (λ m. m) result (more_in (tokens self.old.rest.now)) (tokens self.new.rest.now) }
    {
        self.skip();
        match self.rest {
            [] => Some(false),
            [first, after @ ..] => {
                if *first == b';' {
                    self.rest = after;
                    Some(true)
                } else {
                    None
                }
            }
        }
    }

    /// The next token; `None` at the end of the line.
    pub(crate) fn next(&mut self, alloc: Global) -> Result<Option<Token<'a>>, NoMemory>
        ensures { Nexts result (tokens self.old.rest.now) (tokens self.new.rest.now) }
    {
        self.skip();
        match self.rest {
            [] => Ok(None),
            [first, after @ ..] => {
                let token = self.cut(alloc, *first, after)?;
                Ok(Some(token))
            }
        }
    }
}
