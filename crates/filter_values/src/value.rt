//! The types of values and of their kinds, and the order of both.
ghost use Rattle.std.specs.Prelude.{◌≡◌, IfOk, IsTrue, ◌↔◌};
ghost use Rattle.filter_values.specs.Value.{kind_of, same_kind, IsValue};
ghost use Rattle.filter_values.specs.Order.{kind_cmp, value_cmp};

use crate::text::Text;
use base::NoMemory;
use std::alloc::Global;
use std::cmp::Ordering;

/// The kind of a value, ordered `Bool`, `Int`, `Str`, `Time`.
#[derive(Clone, Copy, Debug, PartialEq, Eq, PartialOrd, Ord)]
pub enum Kind {
    /// Truth values.
    Bool,
    /// Whole numbers of 64 bits with a sign.
    Int,
    /// Texts.
    Str,
    /// Times, in whole seconds.
    Time,
}

/// A value of an attribute, ordered by its kind and then false before true, by number, by bytes.
#[derive(Drop)]
pub enum Value {
    /// A truth value.
    Bool(bool),
    /// A number from -2^63 to 2^63 - 1.
    Int(i64),
    /// A text of at most 1,024 bytes.
    Str(Text),
    /// A time, as seconds from 0 to 2^64 - 1.
    Time(u64),
}

impl Kind {
    /// Whether two kinds are the same.
    pub fn is(self, other: Kind) -> bool
        ensures test { result ≡ same_kind self other }
        ensures same { IsTrue result ↔ (self ≡ other) }
    {
        self == other
    }

    /// Which of two kinds comes first in the order `Bool`, `Int`, `Str`, `Time`.
    pub fn order(self, other: Kind) -> Ordering
        ensures { result ≡ kind_cmp self other }
    {
        self.cmp(&other)
    }
}

impl Value {
    /// The kind of the value.
    pub fn kind(&self) -> Kind
        ensures { result ≡ kind_of self.now }
    {
        match self {
            Value::Bool(_) => Kind::Bool,
            Value::Int(_) => Kind::Int,
            Value::Str(_) => Kind::Str,
            Value::Time(_) => Kind::Time,
        }
    }

    /// An equal value.
    pub fn copy(&self, alloc: Global) -> Result<Value, NoMemory>
        ensures { IfOk result (λ v. v ≡ self.now) }
    {
        Ok(match self {
            Value::Bool(b) => Value::Bool(*b),
            Value::Int(n) => Value::Int(*n),
            Value::Str(t) => Value::Str(t.copy(alloc)?),
            Value::Time(n) => Value::Time(*n),
        })
    }
}

impl PartialEq for Value {
    ghost use Rattle.std.specs.Ordering.{eq_by_cmp};
    ghost use Rattle.std.specs.Cmp.{partial_equiv_from_equiv, eq_by_cmp_equiv};
    ghost use Rattle.filter_values.specs.Order.{value_cmp};
    ghost use Rattle.filter_values.specs.OrderTotal.{value_total};

    ghost eq = { eq_by_cmp value_cmp };

    ghost laws = { partial_equiv_from_equiv (eq_by_cmp_equiv value_total) };

    fn eq(&self, other: &Value) -> bool {
        match self.cmp(other) {
            Ordering::Equal => true,
            _ => false,
        }
    }
}

impl Eq for Value {
    ghost use Rattle.std.specs.Cmp.{eq_by_cmp_equiv};
    ghost use Rattle.filter_values.specs.OrderTotal.{value_total};

    ghost laws = { eq_by_cmp_equiv value_total };
}

impl PartialOrd for Value {
    ghost use Rattle.std.specs.Ordering.{as_partial_cmp};
    ghost use Rattle.std.specs.Prelude.{refl};
    ghost use Rattle.std.specs.Cmp.{partial_order_from_agreeing_total};
    ghost use Rattle.filter_values.specs.Order.{value_cmp};
    ghost use Rattle.filter_values.specs.OrderTotal.{value_total};

    ghost partial_cmp = { as_partial_cmp value_cmp };

    ghost laws = { partial_order_from_agreeing_total value_cmp value_total (λ x y. refl) (λ x y. refl) };

    fn partial_cmp(&self, other: &Value) -> Option<Ordering> {
        Some(self.cmp(other))
    }
}

impl Ord for Value {
    ghost use Rattle.std.specs.Prelude.{refl};
    ghost use Rattle.filter_values.specs.Order.{value_cmp};
    ghost use Rattle.filter_values.specs.OrderTotal.{value_total};

    ghost cmp = { value_cmp };

    ghost total = { value_total };

    ghost matches_partial_cmp = { λ x y. refl };

    ghost matches_eq = { λ x y. refl };

    fn cmp(&self, other: &Value) -> Ordering {
        match (self, other) {
            (Value::Bool(a), Value::Bool(b)) => a.cmp(b),
            (Value::Int(a), Value::Int(b)) => a.cmp(b),
            (Value::Str(a), Value::Str(b)) => a.cmp(b),
            (Value::Time(a), Value::Time(b)) => a.cmp(b),
            _ => self.kind().order(other.kind()),
        }
    }
}
