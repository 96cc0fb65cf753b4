//! A constraint on the value of one attribute: making one, satisfaction, covering, compatibility.
ghost use Rattle.std.specs.Prelude.{◌≡◌, IfOk, MatchResult};
ghost use Rattle.std.specs.Option.{option_copied};

use crate::bytes::{has_part, has_prefix, has_suffix, is_less, is_same};
use crate::normal::{Normal, normal_int, normal_time, text_allows};
use crate::numbers::number_satisfies;
use crate::op::Op;
use crate::order::{op_order, operand_order};
use filter_values::{Kind, Name, NoMemory, Value};
use std::alloc::Global;
use std::cmp::Ordering;
use std::marker::Model;

/// Why parts make no constraint, in the order in which the faults are tried.
#[derive(Clone, Copy, Debug, PartialEq, Eq)]
pub enum BadConstraint {
    /// The kind lacks the operator.
    BadOp,
    /// `Any` has an operand, or another operator has none.
    Operand,
    /// The operand is of another kind.
    WrongKind,
    /// `Contains`, `Prefix` or `Suffix` has the empty text as its operand.
    EmptyPattern,
}

/// A constraint on the value of one attribute: the attribute's name, a kind, an operator of that kind
/// and, except for `Any`, an operand of that kind. It is ordered by name, kind, operator and operand;
/// this is its canonical order.
#[derive(Drop)]
pub struct Constraint {
    name: Name,
    kind: Kind,
    op: Op,
    operand: Option<Value>,
}

impl Model for Constraint {
    ghost use Rattle.filter_constraints.specs.Constraint.{ConstraintParts, IsTest};

    ghost Value = { ConstraintParts };

    ghost view = { λ c. record { name = c.name; kind = c.kind; op = c.op; operand = c.operand } };

    ghost invariant = { λ c. IsTest c.kind c.op c.operand };
}

impl Constraint {
    ghost use Rattle.std.specs.Prelude.{IsOk, IsErrOf, ◌↔◌, true, false};
    ghost use Rattle.filter_constraints.specs.Faults.{fault_of, has_op, is_misplaced, is_of_other_kind, is_empty_pattern};
    ghost use Rattle.filter_constraints.specs.Constraint.{ConstraintParts, IsTest, IsConstraint, same_subject, satisfies, constraint_covers, compatible, form_of};
    ghost use Rattle.filter_constraints.specs.Normal.{form_meant, IsOfKind};

    /// The constraint of these parts, exactly where they make one. `Bool` has the operators `Eq`, `Ne`
    /// and `Any`, `Int` and `Time` have besides `Lt`, `Le`, `Gt` and `Ge`, and `Str` has all. It takes
    /// no memory.
    pub fn make(
        name: Name,
        kind: Kind,
        op: Op,
        operand: Option<Value>,
    ) -> Result<Constraint, BadConstraint>
        ensures value { IfOk result (λ c. c ≡ record { name = name; kind = kind; op = op; operand = operand }) }
        ensures ok { IsOk result ↔ IsTest kind op operand }
        ensures bad_op { IsErrOf result BadConstraint.BadOp ↔ (has_op kind op ≡ false) }
        ensures operand { IsErrOf result BadConstraint.Operand ↔ ((has_op kind op ≡ true) × (is_misplaced op operand ≡ true)) }
        ensures wrong_kind { IsErrOf result BadConstraint.WrongKind
            ↔ ((has_op kind op ≡ true) × (is_misplaced op operand ≡ false) × (is_of_other_kind kind operand ≡ true)) }
        ensures empty_pattern { IsErrOf result BadConstraint.EmptyPattern
            ↔ ((has_op kind op ≡ true) × (is_misplaced op operand ≡ false) × (is_of_other_kind kind operand ≡ false)
            × (is_empty_pattern op operand ≡ true)) }
        ensures answer { MatchResult result (λ _. fault_of kind op operand ≡ None) (λ e. fault_of kind op operand ≡ Some e) }
    {
        if !has_op(kind, op) {
            return Err(BadConstraint::BadOp);
        }
        if operand.is_none() != (op == Op::Any) {
            return Err(BadConstraint::Operand);
        }
        if let Some(u) = &operand {
            if !u.kind().is(kind) {
                return Err(BadConstraint::WrongKind);
            }
            if is_pattern(op) && is_empty_text(u) {
                return Err(BadConstraint::EmptyPattern);
            }
        }
        Ok(Constraint {
            name,
            kind,
            op,
            operand,
        })
    }

    /// An equal constraint.
    pub fn copy(&self, alloc: Global) -> Result<Constraint, NoMemory>
        ensures { IfOk result (λ c. c ≡ self.now) }
    {
        let name = self.name.copy(alloc)?;
        let operand = match &self.operand {
            None => None,
            Some(u) => Some(u.copy(alloc)?),
        };
        Ok(Constraint {
            name,
            kind: self.kind,
            op: self.op,
            operand,
        })
    }

    /// The operand; there is none exactly for `Any`.
    pub fn operand(&self) -> Option<&Value>
        ensures { option_copied result ≡ self.now.operand }
    {
        self.operand.as_ref()
    }

    /// The operator.
    pub fn op(&self) -> Op
        ensures op { result ≡ self.now.op }
        ensures whole { IsConstraint self.now }
    {
        self.op
    }

    /// The name of the attribute.
    pub fn name(&self) -> &Name
        ensures { result.now ≡ self.now.name }
    {
        &self.name
    }

    /// Whether another constraint is on the same name and kind.
    pub fn same_subject(&self, other: &Constraint) -> bool
        ensures { result ≡ same_subject self.now other.now }
    {
        self.name == other.name && self.kind.is(other.kind)
    }

    /// The kind of the values that may satisfy the constraint.
    pub fn kind(&self) -> Kind
        ensures { result ≡ self.now.kind }
    {
        self.kind
    }

    /// Whether a value satisfies the constraint. A value of another kind never does. It takes constant
    /// time for numbers and truth values, and time linear in value and operand for texts.
    #[tactic(auto, unfolding(crate::specs::Constraint::satisfies))]
    pub fn satisfied(&self, value: &Value) -> bool
        ensures { result ≡ satisfies self.now value.now }
    {
        match (&self.operand, value) {
            (None, _) => self.kind == value.kind(),
            (Some(Value::Bool(u)), Value::Bool(x)) => (*u == *x) == (self.op == Op::Eq),
            (Some(Value::Int(u)), Value::Int(x)) => number_satisfies(
                self.op,
                i128::from(*x),
                i128::from(*u),
            ),
            (Some(Value::Str(u)), Value::Str(x)) => text_allows(self.op, x.bytes(), u.bytes()),
            (Some(Value::Time(u)), Value::Time(x)) => number_satisfies(
                self.op,
                i128::from(*x),
                i128::from(*u),
            ),
            _ => false,
        }
    }

    /// The normal form, by which constraints are compared: the values that meet it are those that
    /// satisfy the constraint. It takes constant time and borrows a text operand.
    pub fn normal(&self) -> Normal<'_>
        ensures kind { IsOfKind self.now.kind result }
        ensures form { form_meant self.now.kind result ≡ form_of self.now.kind self.now.op self.now.operand }
    {
        match &self.operand {
            None => Normal::All,
            Some(Value::Bool(u)) => Normal::Bool(*u == (self.op == Op::Eq)),
            Some(Value::Int(u)) => normal_int(self.op, *u),
            Some(Value::Str(u)) => match (self.op, u.bytes().is_empty()) {
                (Op::Ge, true) => Normal::All,
                (Op::Lt, true) => Normal::Empty,
                (Op::Le, true) => Normal::Str(Op::Eq, u),
                (Op::Gt, true) => Normal::Str(Op::Ne, u),
                (op, _) => Normal::Str(op, u),
            },
            Some(Value::Time(u)) => normal_time(self.op, *u),
        }
    }

    /// Whether this constraint covers the other: both are on one name and kind, and the covering table
    /// says that each value that satisfies the other satisfies this one. It takes constant time for
    /// numbers and truth values, and time linear in the operands for texts.
    #[tactic(auto, unfolding(crate::specs::Constraint::constraint_covers))]
    pub fn covers(&self, other: &Constraint) -> bool
        ensures { result ≡ constraint_covers self.now other.now }
    {
        self.name == other.name && self.kind.is(other.kind) && self.normal().covers(&other.normal())
    }

    /// Whether both are on one name and kind and the table finds no reason why no value should satisfy
    /// both. For numbers, times and truth values a yes says that one value does. It takes time as `covers`.
    #[tactic(auto, unfolding(crate::specs::Constraint::compatible))]
    pub fn compatible(&self, other: &Constraint) -> bool
        ensures { result ≡ compatible self.now other.now }
    {
        self.name == other.name
            && self.kind.is(other.kind)
            && self.normal().compatible(&other.normal())
    }
}

ghost use Rattle.filter_constraints.specs.Faults.{has_op, is_pattern, is_empty_text};

impl PartialEq for Constraint {
    ghost use Rattle.std.specs.Ordering.{eq_by_cmp};
    ghost use Rattle.std.specs.Cmp.{partial_equiv_from_equiv};
    ghost use Rattle.std.specs.Cmp.{eq_by_cmp_equiv};
    ghost use Rattle.filter_constraints.specs.Order.{constraint_cmp};
    ghost use Rattle.filter_constraints.specs.OrderTotal.{constraint_total};

    ghost eq = { eq_by_cmp constraint_cmp };

    ghost laws = { partial_equiv_from_equiv (eq_by_cmp_equiv constraint_total) };

    fn eq(&self, other: &Constraint) -> bool {
        match self.cmp(other) {
            Ordering::Equal => true,
            _ => false,
        }
    }
}

impl Eq for Constraint {
    ghost use Rattle.std.specs.Cmp.{eq_by_cmp_equiv};
    ghost use Rattle.filter_constraints.specs.OrderTotal.{constraint_total};

    ghost laws = { eq_by_cmp_equiv constraint_total };
}

impl PartialOrd for Constraint {
    ghost use Rattle.std.specs.Ordering.{as_partial_cmp};
    ghost use Rattle.std.specs.Prelude.{refl};
    ghost use Rattle.std.specs.Cmp.{partial_order_from_agreeing_total};
    ghost use Rattle.filter_constraints.specs.Order.{constraint_cmp};
    ghost use Rattle.filter_constraints.specs.OrderTotal.{constraint_total};

    ghost partial_cmp = { as_partial_cmp constraint_cmp };

    ghost laws = { partial_order_from_agreeing_total constraint_cmp constraint_total (λ x y. refl) (λ x y. refl) };

    fn partial_cmp(&self, other: &Constraint) -> Option<Ordering> {
        Some(self.cmp(other))
    }
}

impl Ord for Constraint {
    ghost use Rattle.std.specs.Prelude.{refl};
    ghost use Rattle.filter_constraints.specs.Order.{constraint_cmp};
    ghost use Rattle.filter_constraints.specs.OrderTotal.{constraint_total};

    ghost cmp = { constraint_cmp };

    ghost total = { constraint_total };

    ghost matches_partial_cmp = { λ x y. refl };

    ghost matches_eq = { λ x y. refl };

    fn cmp(&self, other: &Constraint) -> Ordering {
        self.name
            .cmp(&other.name)
            .then(self.kind.order(other.kind))
            .then(op_order(self.op, other.op))
            .then(operand_order(&self.operand, &other.operand))
    }
}

/// Whether values of the kind can be tested by the operator.
pub fn has_op(kind: Kind, op: Op) -> bool
    ensures { result ≡ has_op kind op }
{
    match (kind, op) {
        (_, Op::Any | Op::Eq | Op::Ne) => true,
        (Kind::Bool, _) => false,
        (Kind::Int | Kind::Time, Op::Contains | Op::Prefix | Op::Suffix) => false,
        _ => true,
    }
}

fn is_pattern(op: Op) -> bool
    ensures { result ≡ is_pattern op }
{
    match op {
        Op::Contains | Op::Prefix | Op::Suffix => true,
        _ => false,
    }
}

fn is_empty_text(v: &Value) -> bool
    ensures { result ≡ is_empty_text v.now }
{
    match v {
        Value::Str(t) => t.bytes().is_empty(),
        _ => false,
    }
}
