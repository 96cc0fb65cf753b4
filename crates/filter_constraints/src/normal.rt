//! The type of normal forms, and the tables of covering and compatibility over them.
ghost use Rattle.std.specs.Prelude.{◌≡◌, pos};
ghost use Rattle.filter_values.specs.declared.value.Kind.{Kind};
ghost use Rattle.filter_constraints.specs.Constraint.{form_covers, form_compatible, int_least, int_greatest, time_least, time_greatest};
ghost use Rattle.filter_constraints.specs.Constraint.Form.{number, time};
ghost use Rattle.filter_constraints.specs.Numbers.{number_form};
ghost use Rattle.filter_constraints.specs.Texts.{text_covers, text_allows, text_conflicts, text_compatible};
ghost use Rattle.filter_constraints.specs.Normal.{numbers_meant, numbers_of, times_of, texts_of, form_meant, IsOfKind};

use crate::bytes::{has_part, has_prefix, has_suffix, is_less, is_same};
use crate::numbers::{NumberForm, number_form};
use crate::op::Op;
use filter_values::Text;

/// The set of numbers that satisfy an int constraint, where it is neither empty nor all.
#[derive(Clone, Copy, Debug, PartialEq, Eq)]
pub enum IntSet {
    /// The number alone.
    Eq(i64),
    /// All but the number, which is neither the least nor the greatest i64.
    Ne(i64),
    /// The numbers up to this one, which is neither the least nor the greatest i64.
    Le(i64),
    /// The numbers from this one on, which is neither the least nor the greatest i64.
    Ge(i64),
}

/// The set of times that satisfy a constraint, where it is neither empty nor all.
#[derive(Clone, Copy, Debug, PartialEq, Eq)]
pub enum TimeSet {
    /// The time alone.
    Eq(u64),
    /// All but the time, which is neither 0 nor the greatest u64.
    Ne(u64),
    /// The times up to this one, which is neither 0 nor the greatest u64.
    Le(u64),
    /// The times from this one on, which is neither 0 nor the greatest u64.
    Ge(u64),
}

/// The normal form of a constraint: the values that meet it are those that satisfy the constraint.
#[derive(Clone, Copy)]
pub enum Normal<'a> {
    /// No value.
    Empty,
    /// Each value of the kind.
    All,
    /// The numbers of the set.
    Int(IntSet),
    /// This truth value alone.
    Bool(bool),
    /// The texts that satisfy the operator, which is not `Any`, with the operand. The operand of an
    /// order is not empty.
    Str(Op, &'a Text),
    /// The times of the set.
    Time(TimeSet),
}

impl IntSet {
    fn form(self) -> NumberForm
        ensures { numbers_meant result ≡ numbers_of self }
    {
        match self {
            IntSet::Eq(u) => NumberForm::Eq(i128::from(u)),
            IntSet::Ne(u) => NumberForm::Ne(i128::from(u)),
            IntSet::Le(u) => NumberForm::Le(i128::from(u)),
            IntSet::Ge(u) => NumberForm::Ge(i128::from(u)),
        }
    }
}

impl TimeSet {
    fn form(self) -> NumberForm
        ensures { numbers_meant result ≡ times_of self }
    {
        match self {
            TimeSet::Eq(u) => NumberForm::Eq(i128::from(u)),
            TimeSet::Ne(u) => NumberForm::Ne(i128::from(u)),
            TimeSet::Le(u) => NumberForm::Le(i128::from(u)),
            TimeSet::Ge(u) => NumberForm::Ge(i128::from(u)),
        }
    }
}

/// The normal form of a constraint on an int.
pub(crate) fn normal_int<'a>(op: Op, u: i64) -> Normal<'a>
    ensures kind { IsOfKind Kind.Int result }
    ensures form { form_meant Kind.Int result ≡ number (number_form int_least int_greatest op u) }
{
    match number_form(
        op,
        i128::from(u),
        i128::from(i64::MIN),
        i128::from(i64::MAX),
    ) {
        NumberForm::Empty => Normal::Empty,
        NumberForm::All => Normal::All,
        NumberForm::Eq(v) => Normal::Int(IntSet::Eq(v as i64)),
        NumberForm::Ne(v) => Normal::Int(IntSet::Ne(v as i64)),
        NumberForm::Le(v) => Normal::Int(IntSet::Le(v as i64)),
        NumberForm::Ge(v) => Normal::Int(IntSet::Ge(v as i64)),
    }
}

/// The normal form of a constraint on a time.
pub(crate) fn normal_time<'a>(op: Op, u: u64) -> Normal<'a>
    ensures kind { IsOfKind Kind.Time result }
    ensures form { form_meant Kind.Time result ≡ time (number_form time_least time_greatest op (pos u)) }
{
    match number_form(
        op,
        i128::from(u),
        i128::from(u64::MIN),
        i128::from(u64::MAX),
    ) {
        NumberForm::Empty => Normal::Empty,
        NumberForm::All => Normal::All,
        NumberForm::Eq(v) => Normal::Time(TimeSet::Eq(v as u64)),
        NumberForm::Ne(v) => Normal::Time(TimeSet::Ne(v as u64)),
        NumberForm::Le(v) => Normal::Time(TimeSet::Le(v as u64)),
        NumberForm::Ge(v) => Normal::Time(TimeSet::Ge(v as u64)),
    }
}

/// Whether the bytes x satisfy the operator with the operand u.
pub(crate) fn text_allows(op: Op, x: &[u8], u: &[u8]) -> bool
    ensures { result ≡ text_allows (texts_of op u.now) x.now }
{
    match op {
        Op::Any => true,
        Op::Eq => is_same(x, u),
        Op::Ne => !is_same(x, u),
        Op::Lt => is_less(x, u),
        Op::Le => !is_less(u, x),
        Op::Gt => is_less(u, x),
        Op::Ge => !is_less(x, u),
        Op::Prefix => has_prefix(x, u),
        Op::Suffix => has_suffix(x, u),
        Op::Contains => has_part(x, u),
    }
}

/// The str table: the covering operator and operand, then the covered ones.
fn text_covers_by(op: Op, u: &[u8], other: Op, v: &[u8]) -> bool
    ensures { result ≡ text_covers (texts_of op u.now) (texts_of other v.now) }
{
    match (op, other) {
        (Op::Any, _) => true,
        (_, Op::Eq) => text_allows(op, v, u),
        (Op::Ne, _) => !text_allows(other, u, v),
        (Op::Lt, Op::Le) => is_less(v, u),
        (Op::Lt, Op::Lt) | (Op::Le, Op::Lt) | (Op::Le, Op::Le) => !is_less(u, v),
        (Op::Gt, Op::Ge) => is_less(u, v),
        (Op::Gt, Op::Gt) | (Op::Ge, Op::Gt) | (Op::Ge, Op::Ge) => !is_less(v, u),
        (Op::Prefix, Op::Prefix) => has_prefix(v, u),
        (Op::Suffix, Op::Suffix) => has_suffix(v, u),
        (Op::Contains, Op::Contains) | (Op::Contains, Op::Prefix) | (Op::Contains, Op::Suffix) =>
            has_part(v, u),
        _ => false,
    }
}

/// Whether the str table has two operators with their operands, in this order, as apart.
fn text_conflicts_by(op: Op, u: &[u8], other: Op, v: &[u8]) -> bool
    ensures { result ≡ text_conflicts (texts_of op u.now) (texts_of other v.now) }
{
    match (op, other) {
        (Op::Eq, _) => !text_allows(other, u, v),
        (Op::Ge, Op::Le) => is_less(v, u),
        (Op::Gt, Op::Lt) | (Op::Gt, Op::Le) | (Op::Ge, Op::Lt) => !is_less(u, v),
        (Op::Prefix, Op::Prefix) => !has_prefix(u, v) && !has_prefix(v, u),
        (Op::Suffix, Op::Suffix) => !has_suffix(u, v) && !has_suffix(v, u),
        _ => false,
    }
}

impl<'a> Normal<'a> {
    /// Whether a normal form covers another of the same kind.
    pub fn covers(&self, other: &Normal<'_>) -> bool
        ensures { (kind : Kind) → IsOfKind kind self.now → IsOfKind kind other.now
            → result ≡ form_covers (form_meant kind self.now) (form_meant kind other.now) }
    {
        match (self, other) {
            (Normal::All, _) => true,
            (_, Normal::Empty) => true,
            (Normal::Int(a), Normal::Int(b)) => a.form().covers(b.form()),
            (Normal::Time(a), Normal::Time(b)) => a.form().covers(b.form()),
            (Normal::Bool(a), Normal::Bool(b)) => *a == *b,
            (Normal::Str(op, u), Normal::Str(other, v)) => text_covers_by(
                *op,
                u.bytes(),
                *other,
                v.bytes(),
            ),
            _ => false,
        }
    }

    /// Whether two normal forms of one kind are compatible.
    pub fn compatible(&self, other: &Normal<'_>) -> bool
        ensures { (kind : Kind) → IsOfKind kind self.now → IsOfKind kind other.now
            → result ≡ form_compatible (form_meant kind self.now) (form_meant kind other.now) }
    {
        match (self, other) {
            (Normal::Empty, _) | (_, Normal::Empty) => false,
            (Normal::Int(a), Normal::Int(b)) => a.form().compatible(b.form()),
            (Normal::Time(a), Normal::Time(b)) => a.form().compatible(b.form()),
            (Normal::Bool(a), Normal::Bool(b)) => *a == *b,
            (Normal::Str(op, u), Normal::Str(other, v)) => {
                let (u, v) = (u.bytes(), v.bytes());
                !text_conflicts_by(*op, u, *other, v) && !text_conflicts_by(*other, v, *op, u)
            }
            _ => true,
        }
    }
}
