//! Cuts a line into its tokens, one after the other.
use crate::cutter::Cutter;
use crate::token::Token;
use base::NoMemory;
use filter_constraints::Op;
use std::alloc::Global;
use std::marker::Model;

/// The tokens of a line, of which the first is cut off at each call of `next`; contracts see those that are left.
#[derive(Drop)]
pub struct Tokens<'a> {
    cutter: Cutter<'a>,
}

impl<'a> Model for Tokens<'a> {
    ghost use Rattle.std.specs.Prelude.{List};
    ghost use Rattle.document_script.specs.Tokens.{Token, tokens};

    ghost Value = { List Token };

    ghost view = { λ t. tokens t.cutter.rest.now };
}

impl<'a> Tokens<'a> {
    ghost use Rattle.std.specs.Prelude.{◌≡◌};
    ghost use Rattle.document_script.specs.Tokens.{tokens};
    ghost use Rattle.document_script.specs.Form.{more_in, op_in, word_in};
    ghost use Rattle.document_script.specs.Reading.{TakesFront};
    ghost use Rattle.document_script.specs.Seen.{TakesToken};

    /// The tokens of the line.
    pub fn new(line: &'a [u8]) -> Tokens<'a>
        ensures { result ≡ tokens line.now }
    {
        Tokens {
            cutter: Cutter { rest: line },
        }
    }

    /// The word in front; where none stands there what is left has no meaning.
    pub(crate) fn word(&mut self) -> Option<&'a [u8]>
        ensures { TakesFront (λ w. w.now) result (word_in self.old) self.new }
    {
        self.cutter.word()
    }

    /// The operator in front; where none stands there what is left has no meaning.
    pub(crate) fn op(&mut self) -> Option<Op>
        ensures { TakesFront (λ o. o) result (op_in self.old) self.new }
    {
        self.cutter.op()
    }

    /// Whether a semicolon stands in front, and not the end of the line; where neither does what is left has no meaning.
    pub(crate) fn more(&mut self) -> Option<bool>
        ensures { TakesFront (λ m. m) result (more_in self.old) self.new }
    {
        self.cutter.more()
    }

    /// For how many parts to make room: one more than there are semicolons in the next 1,024 bytes, but at most 64.
    pub(crate) fn room(&self) -> usize {
        let bytes = self.cutter.rest;
        let bytes = &bytes[..bytes.len().min(1024)];
        let mut semicolons: usize = 0;
        for b in bytes {
            semicolons += (*b == b';') as usize;
        }
        semicolons.min(63) + 1
    }

    /// The next token; `None` at the end of the line. Where memory runs out no token is cut off.
    pub fn next(&mut self, alloc: Global) -> Result<Option<Token<'a>>, NoMemory>
        ensures { TakesToken result self.old self.new }
    {
        let mut cutter = Cutter {
            rest: self.cutter.rest,
        };
        let token = cutter.next(alloc)?;
        self.cutter = cutter;
        Ok(token)
    }
}
