//! Reads the form of a command from its tokens.
ghost use Rattle.std.specs.Prelude.{◌≡◌, ◌≢◌, ◌<◌, [], length, IfOk};
ghost use Rattle.document_script.specs.Form.{attribute_in, constraint_in, given_in, head_in, kind_by, kind_in, operand_in, part_of, parts_in};
ghost use Rattle.document_script.specs.Reading.{GathersTokens, IsGathered, ReadsTokens, TakesFront};

use crate::fault::ScriptFault;
use crate::number::int_given;
use crate::part::{CommandPart, Parts};
use crate::time::time_given;
use crate::token::Token;
use crate::tokens::Tokens;
use filter_constraints::{BadConstraint, Constraint, Op, has_op};
use filter_text::{kind_named, truth_named};
use filter_values::{Kind, Name, NameFault, Value};
use std::alloc::Global;

/// A value as a line gives it.
#[derive(Drop)]
pub enum Given {
    /// A value within the limits.
    Fit(Value),
    /// An int outside i64, a time outside u64 or a string of more than 1,024 bytes.
    Wide,
}

/// A part of a control command.
#[derive(Drop)]
pub enum Part {
    /// A constraint.
    Whole(Constraint),
    /// One whose operand is beyond the limits.
    Beyond,
    /// A pattern whose operand is empty.
    Empty,
}

// The kind of the word in documents of the version.
fn kind_by(version: u32, word: &[u8]) -> Option<Kind>
    ensures { result ≡ kind_by version word.now }
{
    match kind_named(word) {
        Some(Kind::Time) if version < 2 => None,
        kind => kind,
    }
}

// The part of these.
fn part_of(name: Name, kind: Kind, op: Op, operand: Option<Given>) -> Option<Part>
    ensures { result ≡ part_of name kind op operand }
{
    let operand = match operand {
        None => None,
        Some(Given::Fit(value)) => Some(value),
        Some(Given::Wide) => return if has_op(kind, op) {
            Some(Part::Beyond)
        } else {
            None
        },
    };
    match Constraint::make(name, kind, op, operand) {
        Ok(constraint) => Some(Part::Whole(constraint)),
        Err(BadConstraint::EmptyPattern) => Some(Part::Empty),
        Err(BadConstraint::BadOp) => None,
        Err(BadConstraint::Operand) => None,
        Err(BadConstraint::WrongKind) => None,
    }
}

impl<'a> Tokens<'a> {
    // The kind in front, in documents of the version.
    fn kind(&mut self, version: u32) -> Option<Kind>
        ensures { TakesFront (λ k. k) result (kind_in version self.old) self.new }
    {
        match self.word() {
            Some(word) => kind_by(version, word),
            None => None,
        }
    }

    // A name and a kind.
    #[tactic(auto, unfolding(crate::specs::Form::head_in))]
    fn head(&mut self, alloc: Global, version: u32) -> Result<(Name, Kind), ScriptFault>
        ensures { ReadsTokens (λ x. x) result (head_in version self.old) self.new }
    {
        let Some(word) = self.word() else {
            return Err(ScriptFault::Syntax);
        };
        let Some(kind) = self.kind(version) else {
            return Err(ScriptFault::Syntax);
        };
        match Name::read(alloc, word) {
            Ok(name) => Ok((name, kind)),
            Err(NameFault::Empty) => Err(ScriptFault::Syntax),
            Err(NameFault::TooLong) => Err(ScriptFault::Syntax),
            Err(NameFault::BadByte(_)) => Err(ScriptFault::Syntax),
            Err(NameFault::NoMemory) => Err(ScriptFault::NoMemory),
        }
    }

    // A value that a word spells.
    fn spelled(&mut self, kind: Kind) -> Option<Given>
        requires { kind ≢ Kind.Str }
        ensures { TakesFront (λ g. g) result (given_in kind self.old) self.new }
    {
        let Some(word) = self.word() else {
            return None;
        };
        match kind {
            Kind::Bool => match truth_named(word) {
                Some(b) => Some(Given::Fit(Value::Bool(b))),
                None => None,
            },
            Kind::Int => int_given(word),
            Kind::Time => time_given(word),
            Kind::Str => None,
        }
    }

    // A string.
    fn string(&mut self, alloc: Global) -> Result<Given, ScriptFault>
        ensures { ReadsTokens (λ g. g) result (given_in Kind.Str self.old) self.new }
    {
        match self.next(alloc)? {
            Some(Token::Str(text)) => Ok(Given::Fit(Value::Str(text))),
            Some(Token::Long) => Ok(Given::Wide),
            _ => Err(ScriptFault::Syntax),
        }
    }

    // A value of this kind.
    fn given(&mut self, alloc: Global, kind: Kind) -> Result<Given, ScriptFault>
        ensures { ReadsTokens (λ g. g) result (given_in kind self.old) self.new }
    {
        if kind.is(Kind::Str) {
            return self.string(alloc);
        }
        match self.spelled(kind) {
            Some(given) => Ok(given),
            None => Err(ScriptFault::Syntax),
        }
    }

    fn operand(&mut self, alloc: Global, kind: Kind, op: Op) -> Result<Option<Given>, ScriptFault>
        ensures { ReadsTokens (λ u. u) result (operand_in kind op self.old) self.new }
    {
        match op {
            Op::Any => Ok(None),
            _ => Ok(Some(self.given(alloc, kind)?)),
        }
    }

    /// A part of a control command.
    #[tactic(auto, unfolding(crate::specs::Form::constraint_in))]
    pub(crate) fn constraint(&mut self, alloc: Global, version: u32) -> Result<Part, ScriptFault>
        ensures { ReadsTokens (λ p. p) result (constraint_in version self.old) self.new }
    {
        let (name, kind) = self.head(alloc, version)?;
        let Some(op) = self.op() else {
            return Err(ScriptFault::Syntax);
        };
        let operand = self.operand(alloc, kind, op)?;
        match part_of(name, kind, op, operand) {
            Some(part) => Ok(part),
            None => Err(ScriptFault::Syntax),
        }
    }

    /// A part of a publish command: a name, a kind and a value.
    #[tactic(auto, unfolding(crate::specs::Form::attribute_in))]
    pub(crate) fn attribute(
        &mut self,
        alloc: Global,
        version: u32,
    ) -> Result<(Name, Given), ScriptFault>
        ensures { ReadsTokens (λ a. a) result (attribute_in version self.old) self.new }
    {
        let (name, kind) = self.head(alloc, version)?;
        let given = self.given(alloc, kind)?;
        Ok((name, given))
    }

    /// The parts of a command, up to the end of the line; at most so many are read.
    pub(crate) fn parts<P: CommandPart>(
        &mut self,
        alloc: Global,
        version: u32,
        most: usize,
    ) -> Result<Parts<P::Inside>, ScriptFault>
        ensures { GathersTokens
            (λ k ps. IsGathered P.keeps P.inside P.is_beyond P.is_empty (k.is_full, k.kept.items) k.has_beyond k.has_empty ps)
            result (parts_in (P.front version) most [] self.old) }
    {
        let mut parts = P::begin(alloc, self.room())?;
        for _ in 0..most {
            let part = P::read(self, alloc, version)?;
            part.put(&mut parts)?;
            match self.more() {
                Some(true) => {}
                Some(false) => return Ok(parts),
                None => return Err(ScriptFault::Syntax),
            }
        }
        Err(ScriptFault::Syntax)
    }
}
