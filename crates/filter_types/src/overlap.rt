//! Overlap of a filter with an advertisement: whether the table of compatible constraints leaves room for a notice that
//! matches the one and is allowed by the other. It takes no memory, and never says no where there is such a notice.
ghost use Rattle.std.specs.Prelude.{◌≡◌, true, List};
ghost use Rattle.filter_constraints.specs.Constraint.{ConstraintParts};
ghost use Rattle.filter_types.specs.Notice.{Attribute, AreValues};
ghost use Rattle.filter_types.specs.Cover.{matches, allows, overlaps, fits_all, some_fits};

use crate::{Advert, Filter};
use filter_constraints::Constraint;

// Whether the offered constraint is compatible with each of the filter on the name and kind of the wanted one.
fn fits_all(constraints: &[Constraint], wanted: &Constraint, offered: &Constraint) -> bool
    ensures { result ≡ fits_all constraints.now wanted.now offered.now }
{
    constraints.iter().all(|other| !wanted.same_subject(other) || offered.compatible(other))
}

// Whether one of those offered on the name and kind of the wanted one is compatible with each of the filter there.
fn some_fits(constraints: &[Constraint], offers: &[Constraint], wanted: &Constraint) -> bool
    ensures { result ≡ some_fits constraints.now offers.now wanted.now }
{
    offers.iter().any(|offered| wanted.same_subject(offered)
        && fits_all(constraints, wanted, offered))
}

/// Whether the filter overlaps the advertisement: for each name and kind in the filter one constraint of the
/// advertisement there is compatible with every constraint of the filter there.
#[tactic(auto, unfolding(crate::specs::Cover::overlaps))]
pub fn overlaps(f: &Filter, a: &Advert) -> bool
    ensures { result ≡ overlaps f.now a.now }
{
    let constraints = f.constraints();
    let offers = a.constraints();
    constraints
        .iter()
        .all(|wanted| some_fits(constraints, offers, wanted))
}

/// A filter overlaps an advertisement where some notice of well-formed values matches the one and is allowed by the
/// other.
pub fn overlap_law()
    ensures { (f a : List ConstraintParts) (n : List Attribute) → AreValues n → matches n f ≡ true → allows a n ≡ true → overlaps f a ≡ true }
{}
