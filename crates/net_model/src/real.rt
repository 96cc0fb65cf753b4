//! The theory by which servers route, as the laws of runs ask for it.
ghost use Rattle.std.specs.Prelude.{◌≡◌, List};
ghost use Rattle.filter_constraints.specs.Constraint.{ConstraintParts};
ghost use Rattle.filter_types.specs.Notice.{Attribute, AreValues};
ghost use Rattle.filter_types.specs.Cover.{matches, allows};
ghost use Rattle.net_model.specs.Real.{real_matches, real_allows};

use law_machine::LocalStep;
use law_routing::Matching;

/// Filters, advertisements and notices as they are: lists of constraints and of attributes, with matching, allowing,
/// covering, overlap and the canonical order.
pub struct Real;

impl Matching for Real {
    ghost use Rattle.net_model.specs.Real.{real, real_laws};

    ghost theory = { real };

    ghost laws = { real_laws };
}

/// A lone server that routes by this theory, as the laws of machines ask for it.
impl LocalStep for Real {
    ghost use Rattle.net_model.specs.Lone.{lone_machine};

    ghost machine = { lone_machine };
}

/// Of the notices that a program can have the theory says what the definitions of matching and allowing say.
pub fn plain()
    ensures matching { (n : List Attribute) → AreValues n → real_matches n ≡ matches n }
    ensures allowing { (n : List Attribute) (a : List ConstraintParts) → AreValues n → real_allows a n ≡ allows a n }
{}
