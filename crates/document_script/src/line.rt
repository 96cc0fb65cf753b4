//! A line of a script whose first token is cut off, so that what the line is and its command are found by cutting it once.
ghost use Rattle.std.specs.Prelude.{◌≡◌, Some, IfOk, IsErrOf, option_map};
ghost use Rattle.std.specs.Option.{option_copied};
ghost use Rattle.document_script.specs.Tokens.{first_token, first_word, tokens};

use crate::command::command_behind;
use crate::fault::ScriptFault;
use crate::token::Token;
use crate::tokens::Tokens;
use crate::verb::verb_named;
use base::NoMemory;
use filter_text::Command;
use std::alloc::Global;
use std::marker::Model;

/// A line of a script, without its line end, of which the first token is cut off; contracts see the line.
#[derive(Drop)]
pub struct Line<'a> {
    bytes: &'a [u8],
    first: Option<Token<'a>>,
    rest: Tokens<'a>,
}

impl<'a> Model for Line<'a> {
    ghost use Rattle.std.specs.Prelude.{List, ℕ};
    ghost use Rattle.document_script.specs.Tokens.{tokens};
    ghost use Rattle.std.specs.Prelude.{◌≡◌};
    ghost use Rattle.document_script.specs.Seen.{behind};

    ghost Value = { List ℕ };

    ghost view = { λ l. l.bytes.now };

    ghost invariant = { λ l. tokens l.bytes.now ≡ behind l.first l.rest };
}

impl<'a> Line<'a> {
    ghost use Rattle.document_script.specs.Command.{AnswersLine, IsCommandOf, IsVersion, form_of, script_fault};
    ghost use Rattle.document_script.specs.Seen.{seen};

    /// The line with its first token cut off. It takes memory where that is a string.
    pub fn cut(alloc: Global, bytes: &'a [u8]) -> Result<Line<'a>, NoMemory>
        ensures { IfOk result (λ l. l ≡ bytes.now) }
    {
        let mut rest = Tokens::new(bytes);
        let first = rest.next(alloc)?;
        Ok(Line { bytes, first, rest })
    }

    /// The first token; `None` where the line has none.
    pub fn first(&self) -> Option<&Token<'a>>
        ensures { option_map (λ t. seen t.now) result ≡ first_token (tokens self.now) }
    {
        self.first.as_ref()
    }

    /// The first token, if it is a word.
    pub fn first_word(&self) -> Option<&'a [u8]>
        ensures { option_copied result ≡ first_word (tokens self.now) }
    {
        match &self.first {
            Some(Token::Word(word)) => Some(*word),
            _ => None,
        }
    }

    #[tactic(auto, unfolding(crate::specs::Command::form_of))]
    fn answered(self, alloc: Global, version: u32) -> Result<Command, ScriptFault>
        ensures { AnswersLine result (form_of version self.entry) }
    {
        match self.first {
            Some(Token::Word(word)) => match verb_named(word) {
                Some(verb) => command_behind(alloc, version, verb, self.rest, self.bytes.len()),
                None => Err(ScriptFault::Syntax),
            },
            _ => Err(ScriptFault::Syntax),
        }
    }

    /// The command that the line spells in documents of the version, as `script_command` reads it.
    pub fn command(self, alloc: Global, version: u32) -> Result<Command, ScriptFault>
        requires { IsVersion version }
        ensures command { IfOk result (λ c. IsCommandOf version self.entry c) }
        ensures syntax { IsErrOf result ScriptFault.Syntax → script_fault version self.entry ≡ Some ScriptFault.Syntax }
        ensures value { IsErrOf result ScriptFault.Value → script_fault version self.entry ≡ Some ScriptFault.Value }
        ensures operand { IsErrOf result ScriptFault.Operand → script_fault version self.entry ≡ Some ScriptFault.Operand }
        ensures count { IsErrOf result ScriptFault.Count → script_fault version self.entry ≡ Some ScriptFault.Count }
        ensures repeat { IsErrOf result ScriptFault.Repeat → script_fault version self.entry ≡ Some ScriptFault.Repeat }
    {
        self.answered(alloc, version)
    }
}
