//! Normal forms of numbers of any kind, and their tables. Each kind's numbers lie in i128.
ghost use Rattle.std.specs.Prelude.{◌≡◌};
ghost use Rattle.filter_constraints.specs.Normal.{numbers_meant};
ghost use Rattle.filter_constraints.specs.Numbers.{IsNumberForm, IsWide, IsWithin};
ghost use Rattle.filter_constraints.specs.Numbers.{number_compatible, number_conflicts, number_covers, number_form, number_satisfies};

use crate::op::Op;

/// The numbers that satisfy a constraint.
#[derive(Clone, Copy)]
pub(crate) enum NumberForm {
    /// None.
    Empty,
    /// All of the kind.
    All,
    /// The number alone.
    Eq(i128),
    /// All but the number.
    Ne(i128),
    /// The numbers up to this one.
    Le(i128),
    /// The numbers from this one on.
    Ge(i128),
}

impl NumberForm {
    /// The covering table.
    pub(crate) fn covers(self, other: NumberForm) -> bool
        ensures { result ≡ number_covers (numbers_meant self) (numbers_meant other) }
    {
        match (self, other) {
            (NumberForm::All, _) | (_, NumberForm::Empty) => true,
            (NumberForm::Eq(u), NumberForm::Eq(v)) => u == v,
            (NumberForm::Ne(u), NumberForm::Eq(v)) => u != v,
            (NumberForm::Ne(u), NumberForm::Ne(v)) => u == v,
            (NumberForm::Ne(u), NumberForm::Le(v)) => v < u,
            (NumberForm::Ne(u), NumberForm::Ge(v)) => v > u,
            (NumberForm::Le(u), NumberForm::Eq(v) | NumberForm::Le(v)) => v <= u,
            (NumberForm::Ge(u), NumberForm::Eq(v) | NumberForm::Ge(v)) => v >= u,
            _ => false,
        }
    }

    /// Whether the table has the two, in this order, as apart.
    fn conflicts(self, other: NumberForm) -> bool
        ensures { result ≡ number_conflicts (numbers_meant self) (numbers_meant other) }
    {
        match (self, other) {
            (NumberForm::Empty, _) => true,
            (NumberForm::Eq(u), NumberForm::Eq(v)) => u != v,
            (NumberForm::Eq(u), NumberForm::Ne(v)) => u == v,
            (NumberForm::Eq(u), NumberForm::Le(v)) => u > v,
            (NumberForm::Eq(u), NumberForm::Ge(v)) => u < v,
            (NumberForm::Le(u), NumberForm::Ge(v)) => v > u,
            _ => false,
        }
    }

    /// Whether the table has the two as apart in neither order.
    pub(crate) fn compatible(self, other: NumberForm) -> bool
        ensures { result ≡ number_compatible (numbers_meant self) (numbers_meant other) }
    {
        !self.conflicts(other) && !other.conflicts(self)
    }
}

/// Whether the number x satisfies the operator with the operand u.
pub(crate) fn number_satisfies(op: Op, x: i128, u: i128) -> bool
    ensures { result ≡ number_satisfies op x u }
{
    match op {
        Op::Any => true,
        Op::Eq => x == u,
        Op::Ne => x != u,
        Op::Lt => x < u,
        Op::Le => x <= u,
        Op::Gt => x > u,
        Op::Ge => x >= u,
        Op::Prefix | Op::Suffix | Op::Contains => false,
    }
}

/// The normal form of an operator with its operand, on numbers from the least to the greatest.
pub(crate) fn number_form(op: Op, u: i128, least: i128, greatest: i128) -> NumberForm
    requires wide { IsWide least greatest }
    requires within { IsWithin least greatest u }
    ensures form { numbers_meant result ≡ number_form least greatest op u }
    ensures kept { IsNumberForm least greatest (numbers_meant result) }
{
    match op {
        Op::Any => NumberForm::All,
        Op::Eq => NumberForm::Eq(u),
        Op::Ne if u == least => NumberForm::Ge(least + 1),
        Op::Ne if u == greatest => NumberForm::Le(greatest - 1),
        Op::Ne => NumberForm::Ne(u),
        Op::Le if u == greatest => NumberForm::All,
        Op::Le if u == least => NumberForm::Eq(least),
        Op::Le => NumberForm::Le(u),
        Op::Lt if u == least => NumberForm::Empty,
        Op::Lt if u == least + 1 => NumberForm::Eq(least),
        Op::Lt => NumberForm::Le(u - 1),
        Op::Ge if u == least => NumberForm::All,
        Op::Ge if u == greatest => NumberForm::Eq(greatest),
        Op::Ge => NumberForm::Ge(u),
        Op::Gt if u == greatest => NumberForm::Empty,
        Op::Gt if u == greatest - 1 => NumberForm::Eq(greatest),
        Op::Gt => NumberForm::Ge(u + 1),
        Op::Prefix | Op::Suffix | Op::Contains => NumberForm::Empty,
    }
}
