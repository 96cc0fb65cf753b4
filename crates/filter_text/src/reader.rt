//! A reader over bytes: words, names, kinds and numbers.
ghost use Rattle.std.specs.Prelude.{◌≡◌, []};
ghost use Rattle.filter_text.specs.Reading.{Reads};
ghost use Rattle.filter_text.specs.Words.{is_stop, word_at, sign_at, space_at, kind_named, name_at, kind_at, head_at, number_at, when_within};
ghost use Rattle.filter_text.specs.Items.{more_at};

use crate::fault::WireFault;
use crate::int::int_of;
use crate::names::known_name;
use filter_values::{Kind, Name, is_name};
use std::alloc::Global;

/// The bytes that are still to be read.
#[derive(Drop)]
pub struct Reader<'a> {
    /// The bytes.
    pub rest: &'a [u8],
}

fn is_stop(b: u8) -> bool
    ensures { result ≡ is_stop b }
{
    b == b' ' || b == b';' || b == b'}'
}

/// The kind of this word.
pub fn kind_named(word: &[u8]) -> Option<Kind>
    ensures { result ≡ kind_named word.now }
{
    if word == b"bool".as_slice() {
        Some(Kind::Bool)
    } else if word == b"int".as_slice() {
        Some(Kind::Int)
    } else if word == b"str".as_slice() {
        Some(Kind::Str)
    } else if word == b"time".as_slice() {
        Some(Kind::Time)
    } else {
        None
    }
}

// The number, from 1 to the greatest.
fn when_within(most: u32, number: i64) -> Option<u32>
    ensures { result ≡ when_within most number }
{
    if number >= 1 && number <= i64::from(most) {
        Some(number as u32)
    } else {
        None
    }
}

impl<'a> Reader<'a> {
    /// A reader of all of these.
    pub fn new(bytes: &'a [u8]) -> Reader<'a>
        ensures { result.rest.now ≡ bytes.now }
    {
        Reader { rest: bytes }
    }

    /// The bytes up to the first that ends a word.
    #[tactic(auto, unfolding(crate::specs::Words::word_at))]
    pub fn word(&mut self) -> &'a [u8]
        ensures { (result.now, self.new.rest.now) ≡ word_at [] self.old.rest.now }
    {
        let bytes = self.rest;
        for (i, b) in bytes.iter().enumerate() {
            if is_stop(*b) {
                self.rest = &bytes[i..];
                return &bytes[..i];
            }
        }
        self.rest = &bytes[bytes.len()..];
        bytes
    }

    /// A sign.
    pub fn sign(&mut self, sign: u8) -> Result<(), WireFault>
        ensures { Reads (λ x. x) result (sign_at sign self.old.rest.now) self.new.rest.now }
    {
        match self.rest {
            [b, rest @ ..] if *b == sign => {
                self.rest = rest;
                Ok(())
            }
            _ => Err(WireFault::Outside),
        }
    }

    /// A space.
    pub fn space(&mut self) -> Result<(), WireFault>
        ensures { Reads (λ x. x) result (space_at self.old.rest.now) self.new.rest.now }
    {
        self.sign(b' ')
    }

    /// Whether `;` and a space stand in front, which are read then.
    pub fn more(&mut self) -> bool
        ensures { (result, self.new.rest.now) ≡ more_at self.old.rest.now }
    {
        match self.rest {
            [b';', b' ', rest @ ..] => {
                self.rest = rest;
                true
            }
            _ => false,
        }
    }

    /// A name.
    #[tactic(auto, unfolding(crate::specs::Words::name_at))]
    pub fn name(&mut self, alloc: Global) -> Result<Name, WireFault>
        ensures { Reads (λ x. x) result (name_at self.old.rest.now) self.new.rest.now }
    {
        let word = self.word();
        if !is_name(word) {
            return Err(WireFault::Outside);
        }
        Ok(known_name(alloc, word)?)
    }

    /// A kind.
    #[tactic(auto, unfolding(crate::specs::Words::kind_at))]
    pub fn kind(&mut self) -> Result<Kind, WireFault>
        ensures { Reads (λ x. x) result (kind_at self.old.rest.now) self.new.rest.now }
    {
        match kind_named(self.word()) {
            Some(kind) => Ok(kind),
            None => Err(WireFault::Outside),
        }
    }

    /// A name, a space and a kind.
    #[tactic(auto, unfolding(crate::specs::Words::head_at))]
    pub fn head(&mut self, alloc: Global) -> Result<(Name, Kind), WireFault>
        ensures { Reads (λ x. x) result (head_at self.old.rest.now) self.new.rest.now }
    {
        let name = self.name(alloc)?;
        self.space()?;
        let kind = self.kind()?;
        Ok((name, kind))
    }

    /// A number from 1 to the greatest, without leading zeros.
    #[tactic(auto, unfolding(crate::specs::Words::number_at))]
    pub fn number(&mut self, most: u32) -> Result<u32, WireFault>
        ensures { Reads (λ x. x) result (number_at most self.old.rest.now) self.new.rest.now }
    {
        let Some(number) = int_of(self.word()) else {
            return Err(WireFault::Outside);
        };
        match when_within(most, number) {
            Some(number) => Ok(number),
            None => Err(WireFault::Outside),
        }
    }
}
