//! Reads and writes the texts of constraints and of lists of them.
ghost use Rattle.std.specs.Prelude.{◌≡◌, ◌++◌, OnOk, true};
ghost use Rattle.std.specs.Option.{option_copied};
ghost use Rattle.filter_values.specs.Name.{IsName};
ghost use Rattle.filter_text.specs.Reading.{Reads};
ghost use Rattle.filter_text.specs.ValueText.{op_word};
ghost use Rattle.filter_text.specs.NoticeText.{later};
ghost use Rattle.filter_text.specs.FilterText.{test_text, constraint_text, constraints_text, AreNamed};
ghost use Rattle.filter_text.specs.Filters.{op_named, op_at, some_at, operand_at, constraint_at};

use crate::fault::WireFault;
use crate::reader::Reader;
use crate::value::{kind_word, push_value};
use base::NoMemory;
use filter_constraints::{Constraint, Op};
use filter_values::{Kind, Value};
use std::alloc::Global;

/// The word of an operator.
pub fn op_word(op: Op) -> &'static [u8]
    ensures { result.now ≡ op_word op }
{
    match op {
        Op::Any => b"any",
        Op::Eq => b"=",
        Op::Ne => b"!=",
        Op::Lt => b"<",
        Op::Le => b"<=",
        Op::Gt => b">",
        Op::Ge => b">=",
        Op::Prefix => b"prefix",
        Op::Suffix => b"suffix",
        Op::Contains => b"contains",
    }
}

/// The operator of this word.
pub fn op_named(word: &[u8]) -> Option<Op>
    ensures { result ≡ op_named word.now }
{
    if word == b"any".as_slice() {
        Some(Op::Any)
    } else if word == b"=".as_slice() {
        Some(Op::Eq)
    } else if word == b"!=".as_slice() {
        Some(Op::Ne)
    } else if word == b"<".as_slice() {
        Some(Op::Lt)
    } else if word == b"<=".as_slice() {
        Some(Op::Le)
    } else if word == b">".as_slice() {
        Some(Op::Gt)
    } else if word == b">=".as_slice() {
        Some(Op::Ge)
    } else if word == b"prefix".as_slice() {
        Some(Op::Prefix)
    } else if word == b"suffix".as_slice() {
        Some(Op::Suffix)
    } else if word == b"contains".as_slice() {
        Some(Op::Contains)
    } else {
        None
    }
}

impl<'a> Reader<'a> {
    #[tactic(auto, unfolding(crate::specs::Filters::op_at))]
    fn op(&mut self) -> Result<Op, WireFault>
        ensures { Reads (λ x. x) result (op_at self.old.rest.now) self.new.rest.now }
    {
        match op_named(self.word()) {
            Some(op) => Ok(op),
            None => Err(WireFault::Outside),
        }
    }

    // A space and a value.
    fn some(&mut self, alloc: Global, kind: Kind) -> Result<Option<Value>, WireFault>
        ensures { Reads (λ x. x) result (some_at kind self.old.rest.now) self.new.rest.now }
    {
        self.space()?;
        let value = self.value(alloc, kind)?;
        Ok(Some(value))
    }

    #[tactic(auto, unfolding(crate::specs::Filters::operand_at))]
    fn operand(&mut self, alloc: Global, kind: Kind, op: Op) -> Result<Option<Value>, WireFault>
        ensures { Reads (λ x. x) result (operand_at kind op self.old.rest.now) self.new.rest.now }
    {
        match op {
            Op::Any => Ok(None),
            _ => self.some(alloc, kind),
        }
    }

    /// A constraint: a name, a kind, an operator and its operand.
    #[tactic(auto, unfolding(crate::specs::Filters::constraint_at))]
    pub(crate) fn constraint(&mut self, alloc: Global) -> Result<Constraint, WireFault>
        ensures { Reads (λ x. x) result (constraint_at self.old.rest.now) self.new.rest.now }
    {
        let (name, kind) = self.head(alloc)?;
        self.space()?;
        let op = self.op()?;
        let operand = self.operand(alloc, kind, op)?;
        match Constraint::make(name, kind, op, operand) {
            Ok(constraint) => Ok(constraint),
            Err(_) => Err(WireFault::Outside),
        }
    }
}

fn push_test(out: &mut Vec<u8>, op: Op, operand: Option<&Value>) -> Result<(), NoMemory>
    ensures { OnOk result (out.new.items ≡ out.old.items ++ test_text op (option_copied operand.entry)) }
{
    out.extend_from_slice(op_word(op))?;
    match operand {
        None => Ok(()),
        Some(u) => {
            out.push(b' ')?;
            push_value(out, u)
        }
    }
}

#[tactic(auto, unfolding(crate::specs::FilterText::constraint_text))]
fn push_constraint(out: &mut Vec<u8>, constraint: &Constraint) -> Result<(), NoMemory>
    ensures text { OnOk result (out.new.items ≡ out.old.items ++ constraint_text constraint.now) }
    ensures named { OnOk result (IsName constraint.now.name) }
{
    out.extend_from_slice(constraint.name().bytes())?;
    out.push(b' ')?;
    out.extend_from_slice(kind_word(constraint.kind()))?;
    out.push(b' ')?;
    push_test(out, constraint.op(), constraint.operand())
}

fn push_later(out: &mut Vec<u8>, rest: &[Constraint]) -> Result<(), NoMemory>
    ensures text { OnOk result (out.new.items ≡ out.old.items ++ later constraint_text rest.now) }
    ensures named { OnOk result (AreNamed rest.now) }
{
    for constraint in rest {
        out.extend_from_slice(b"; ")?;
        push_constraint(out, constraint)?;
    }
    Ok(())
}

/// Puts the text of constraints at the end.
#[tactic(auto, unfolding(crate::specs::FilterText::constraints_text))]
pub fn push_constraints(out: &mut Vec<u8>, constraints: &[Constraint]) -> Result<(), NoMemory>
    ensures text { OnOk result (out.new.items ≡ out.old.items ++ constraints_text constraints.now) }
    ensures named { OnOk result (AreNamed constraints.now) }
{
    let [first, rest @ ..] = constraints else {
        return Ok(());
    };
    push_constraint(out, first)?;
    push_later(out, rest)
}

/// Does nothing; by its contract the names in constraints of the program are names.
pub fn lemma_named(constraints: &[Constraint])
    ensures { AreNamed constraints.now }
{
    for constraint in constraints {
        let _bytes = constraint.name().bytes();
    }
}
