//! Keeps the filters of a matcher as contracts see them. No filter is kept for it at run time.
use filter_types::Filter;
use std::marker::Model;
use std::snapshot::Snapshot;

/// A list of filters, of which contracts alone see what it holds.
#[derive(Drop)]
#[cycle(listed)]
pub(crate) struct Listed {
    filters: Filters,
}

#[derive(Drop)]
#[cycle(listed)]
enum Filters {
    Nothing,
    /// Those before the last, and the last.
    More(Snapshot<Snapshot<Listed>>, Snapshot<Filter>),
}

impl Model for Listed {
    ghost use Rattle.std.specs.Prelude.{List, length};
    ghost use Rattle.filter_constraints.specs.Constraint.{ConstraintParts};

    ghost Value = { List (List ConstraintParts) };

    ghost use Rattle.match_filters.specs.Listed.{listed};

    ghost view = { λ l. listed l.filters };

    ghost size = { length };

    ghost use Rattle.std.proofs.Common.{arith, length-append};

    ghost size_decreases = { λ a h. Prim.grind (arith, length-append) };
}

impl Listed {
    ghost use Rattle.std.specs.Prelude.{◌≡◌, ◌++◌, ◌∷◌, []};

    /// No filter.
    pub(crate) fn nothing() -> Self
        ensures { result ≡ [] }
    {
        Listed {
            filters: Filters::Nothing,
        }
    }

    /// The filters put earlier, and this one.
    pub(crate) fn and(earlier: &Snapshot<Listed>, filter: &Filter) -> Self
        ensures { result ≡ earlier.now.value ++ filter.now ∷ [] }
    {
        Listed {
            filters: Filters::More(Snapshot::of(earlier), Snapshot::of(filter)),
        }
    }
}
