//! The types of filters and advertisements: lists of constraints in canonical order, which differ in how many they may have.
use crate::canonical::{listed, listed_of_rising};
use base::NoMemory;
use filter_constraints::Constraint;
use std::alloc::Global;
use std::cmp::Ordering;
use std::marker::Model;
use std::sync::ArcSlice;

/// Why there is no such filter or advertisement.
#[derive(Clone, Copy, Debug, PartialEq, Eq)]
pub enum FilterFault {
    /// There is no constraint.
    Nothing,
    /// Repeats aside there are more than 16 constraints, for an advertisement more than 64.
    TooMany,
    /// Memory ran out.
    NoMemory,
}

/// 1 to `MOST` constraints in canonical order, each once. Copies share them. They are ordered by their constraints, a
/// proper beginning being less; this is their canonical order.
#[derive(Drop)]
pub struct Constraints<const MOST: usize> {
    constraints: ArcSlice<Constraint>,
}

impl<const MOST: usize> Model for Constraints<MOST> {
    ghost use Rattle.std.specs.Prelude.{List};
    ghost use Rattle.filter_constraints.specs.Constraint.{ConstraintParts};
    ghost use Rattle.std.specs.Arc.{arc_slice_items};
    ghost use Rattle.filter_types.specs.Canonical.{IsListed};

    ghost Value = { List ConstraintParts };

    ghost view = { λ c. arc_slice_items c.constraints };

    ghost invariant = { λ c. IsListed MOST (arc_slice_items c.constraints) };
}

/// A filter: 1 to 16 constraints, all of which a notice must meet.
pub type Filter = Constraints<16>;

/// An advertisement: 1 to 64 constraints, of which each attribute of a notice must meet one.
pub type Advert = Constraints<64>;

impl<const MOST: usize> Constraints<MOST> {
    ghost use Rattle.std.specs.Prelude.{◌≡◌, ◌<◌, ◌↔◌, [], length, true, IfOk, IsErrOf};
    ghost use Rattle.filter_types.specs.Canonical.{canonical, is_listed, IsListed, IsListedAnswer};

    /// The list of these constraints, given in any order and maybe more than once.
    pub fn make(constraints: Vec<Constraint>) -> Result<Self, FilterFault>
        ensures value { IfOk result (λ c. c ≡ canonical constraints.items) }
        ensures listed { IfOk result (λ c. IsListed MOST c) }
        ensures nothing { IsErrOf result FilterFault.Nothing ↔ (constraints.items ≡ []) }
        ensures too_many { IsErrOf result FilterFault.TooMany ↔ (MOST < length (canonical constraints.items)) }
    {
        let constraints = listed(constraints, MOST)?;
        Ok(Constraints { constraints })
    }

    /// The list of constraints that stand in canonical order already, each once; `None` where they don't, or are none
    /// or more than `MOST`.
    pub fn of_rising(constraints: Vec<Constraint>) -> Result<Option<Self>, NoMemory>
        ensures { IfOk result (λ answer. IsListedAnswer MOST constraints.items answer) }
    {
        Ok(match listed_of_rising(constraints, MOST)? {
            None => None,
            Some(constraints) => Some(Constraints { constraints }),
        })
    }

    /// Its constraints in canonical order.
    #[tactic(auto, using(crate::proofs::Shapes::listed_told))]
    pub fn constraints(&self) -> &[Constraint]
        ensures same { result.now ≡ self.now }
        ensures whole { IsListed MOST self.now }
        ensures listed { is_listed MOST self.now ≡ true }
    {
        self.constraints.as_slice()
    }

    /// An equal list, which shares the constraints: none is copied.
    pub fn copy(&self, _alloc: Global) -> Result<Self, NoMemory>
        ensures { IfOk result (λ c. c ≡ self.now) }
    {
        let constraints = self.constraints.clone()?;
        Ok(Constraints { constraints })
    }
}

impl<const MOST: usize> PartialEq for Constraints<MOST> {
    ghost use Rattle.std.specs.Prelude.{◌≡◌, ◌↔◌, IsTrue};
    ghost use Rattle.std.specs.Ordering.{eq_by_cmp};
    ghost use Rattle.std.specs.Cmp.{partial_equiv_from_equiv, eq_by_cmp_equiv};
    ghost use Rattle.filter_constraints.specs.Order.{list_cmp};
    ghost use Rattle.filter_constraints.specs.OrderTotal.{list_total};

    ghost eq = { eq_by_cmp list_cmp };

    ghost laws = { partial_equiv_from_equiv (eq_by_cmp_equiv list_total) };

    #[tactic(auto, using(crate::proofs::BeforeLaws::equal_alike, crate::proofs::BeforeLaws::alike_equal))]
    fn eq(&self, other: &Self) -> bool
        ensures test { result ≡ eq_by_cmp list_cmp self.now other.now }
        ensures same { IsTrue result ↔ (self.now ≡ other.now) }
    {
        self.cmp(other).is_eq()
    }
}

impl<const MOST: usize> Eq for Constraints<MOST> {
    ghost use Rattle.std.specs.Cmp.{eq_by_cmp_equiv};
    ghost use Rattle.filter_constraints.specs.OrderTotal.{list_total};

    ghost laws = { eq_by_cmp_equiv list_total };
}

impl<const MOST: usize> PartialOrd for Constraints<MOST> {
    ghost use Rattle.std.specs.Ordering.{as_partial_cmp};
    ghost use Rattle.std.specs.Prelude.{refl};
    ghost use Rattle.std.specs.Cmp.{partial_order_from_agreeing_total};
    ghost use Rattle.filter_constraints.specs.Order.{list_cmp};
    ghost use Rattle.filter_constraints.specs.OrderTotal.{list_total};

    ghost partial_cmp = { as_partial_cmp list_cmp };

    ghost laws = { partial_order_from_agreeing_total list_cmp list_total (λ x y. refl) (λ x y. refl) };

    fn partial_cmp(&self, other: &Self) -> Option<Ordering> {
        Some(self.cmp(other))
    }
}

impl<const MOST: usize> Ord for Constraints<MOST> {
    ghost use Rattle.std.specs.Prelude.{refl};
    ghost use Rattle.filter_constraints.specs.Order.{list_cmp};
    ghost use Rattle.filter_constraints.specs.OrderTotal.{list_total};

    ghost cmp = { list_cmp };

    ghost total = { list_total };

    ghost matches_partial_cmp = { λ x y. refl };

    ghost matches_eq = { λ x y. refl };

    fn cmp(&self, other: &Self) -> Ordering {
        self.constraints().cmp(other.constraints())
    }
}
