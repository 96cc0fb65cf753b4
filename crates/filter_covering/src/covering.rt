//! Decides whether a filter, or an advertisement, covers another one. It takes no memory.
ghost use Rattle.std.specs.Prelude.{◌≡◌};
ghost use Rattle.filter_types.specs.Cover.{filter_covers, advert_covers, covers_some, some_covers};

use filter_constraints::Constraint;
use filter_types::{Advert, Filter};

// Whether the constraint covers one of these.
fn covers_some(constraint: &Constraint, others: &[Constraint]) -> bool
    ensures { result ≡ covers_some constraint.now others.now }
{
    others.iter().any(|other| constraint.covers(other))
}

// Whether one of these covers the constraint.
fn some_covers(others: &[Constraint], constraint: &Constraint) -> bool
    ensures { result ≡ some_covers others.now constraint.now }
{
    others.iter().any(|other| other.covers(constraint))
}

/// Whether the filter f covers the filter g: each constraint of f covers some constraint of g. Then f matches whatever g
/// matches.
#[tactic(auto, unfolding(filter_types::specs::Cover::filter_covers))]
pub fn filter_covers(f: &Filter, g: &Filter) -> bool
    ensures { result ≡ filter_covers f.now g.now }
{
    let others = g.constraints();
    f.constraints()
        .iter()
        .all(|constraint| covers_some(constraint, others))
}

/// Whether the advertisement a covers the advertisement b: each constraint of b is covered by one of a. Then a allows
/// whatever b allows.
#[tactic(auto, unfolding(filter_types::specs::Cover::advert_covers))]
pub fn advert_covers(a: &Advert, b: &Advert) -> bool
    ensures { result ≡ advert_covers a.now b.now }
{
    let others = a.constraints();
    b.constraints()
        .iter()
        .all(|constraint| some_covers(others, constraint))
}
