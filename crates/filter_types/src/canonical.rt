//! Lists of constraints in the canonical order, as filters and advertisements keep them.
ghost use Rattle.std.specs.Prelude.{◌≡◌, ◌<◌, ◌↔◌, [], length, true, false, IfOk, IfNone, IfSome, IsErrOf};
ghost use Rattle.std.specs.Arc.{arc_slice_items};
ghost use Rattle.std.specs.List.Retain.{IsFiltered, DiffersFromLast};
ghost use Rattle.std.specs.Ordering.{is_lt, eq_by_cmp};
ghost use Rattle.filter_constraints.specs.Order.{constraint_cmp};
ghost use Rattle.filter_types.specs.Canonical.{canonical, is_rising, is_listed, AreConstraints, IsListed};

use crate::filter::FilterFault;
use base::NoMemory;
use filter_constraints::Constraint;
use std::cmp::Ordering;
use std::sync::ArcSlice;

// Of neighbours that are equal the first alone.
fn without_repeats(mut sorted: Vec<Constraint>) -> Vec<Constraint>
    ensures { IsFiltered (DiffersFromLast (eq_by_cmp constraint_cmp)) [] sorted.items result.items }
{
    sorted.dedup();
    sorted
}

/// The constraints, each once, in the canonical order. It takes no memory.
pub fn canonical(mut constraints: Vec<Constraint>) -> Vec<Constraint>
    ensures { result.items ≡ canonical constraints.items }
{
    constraints.sort_unstable();
    without_repeats(constraints)
}

// Whether the first constraint stands before the second.
fn is_less(c: &Constraint, d: &Constraint) -> bool
    ensures { result ≡ is_lt (constraint_cmp c.now d.now) }
{
    match c.cmp(d) {
        Ordering::Less => true,
        _ => false,
    }
}

/// Whether each constraint stands before the next.
pub fn is_rising(constraints: &[Constraint]) -> bool
    ensures { result ≡ is_rising constraints.now }
{
    constraints.is_sorted_by(|c, d| is_less(c, d))
}

/// Constraints of the program can be made.
pub fn lemma_constraints(constraints: &[Constraint])
    ensures { AreConstraints constraints.now }
{
    for constraint in constraints {
        let _op = constraint.op();
    }
}

/// The constraints, each once, in the canonical order, where there are some and at most this many.
#[tactic(auto, using(crate::proofs::CanonicalLaws::rising, crate::proofs::CanonicalLaws::canonical_some, crate::proofs::CanonicalLaws::canonical_none))]
pub fn listed(
    constraints: Vec<Constraint>,
    most: usize,
) -> Result<ArcSlice<Constraint>, FilterFault>
    ensures value { IfOk result (λ l. arc_slice_items l ≡ canonical constraints.items) }
    ensures listed { IfOk result (λ l. IsListed most (arc_slice_items l)) }
    ensures nothing { IsErrOf result FilterFault.Nothing ↔ (constraints.items ≡ []) }
    ensures too_many { IsErrOf result FilterFault.TooMany ↔ (most < length (canonical constraints.items)) }
{
    if constraints.is_empty() {
        return Err(FilterFault::Nothing);
    }
    let constraints = canonical(constraints);
    if constraints.len() > most {
        return Err(FilterFault::TooMany);
    }
    lemma_constraints(&constraints);
    match ArcSlice::from_vec(constraints) {
        Ok(constraints) => Ok(constraints),
        Err(_) => Err(FilterFault::NoMemory),
    }
}

/// The same of constraints that stand in canonical order already, each once; `None` where they don't, or are none or
/// more than this many.
#[tactic(auto, unfolding(crate::specs::Canonical::is_listed))]
pub fn listed_of_rising(
    constraints: Vec<Constraint>,
    most: usize,
) -> Result<Option<ArcSlice<Constraint>>, NoMemory>
    ensures none { IfOk result (λ o. IfNone o (is_listed most constraints.items ≡ false)) }
    ensures some { IfOk result (λ o. IfSome o (λ _. is_listed most constraints.items ≡ true)) }
    ensures value { IfOk result (λ o. IfSome o (λ l. arc_slice_items l ≡ constraints.items)) }
    ensures listed { IfOk result (λ o. IfSome o (λ l. IsListed most (arc_slice_items l))) }
{
    if constraints.is_empty() || constraints.len() > most || !is_rising(&constraints) {
        return Ok(None);
    }
    lemma_constraints(&constraints);
    Ok(Some(ArcSlice::from_vec(constraints)?))
}
