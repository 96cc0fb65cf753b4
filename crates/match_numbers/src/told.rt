//! Keeps the pairs of an index as contracts see them. No pair is kept for it at run time.
use filter_constraints::Constraint;
use std::marker::Model;
use std::snapshot::Snapshot;

/// A list of pairs of a constraint without its name and an id, of which contracts alone see what it holds.
#[derive(Drop)]
#[cycle(told)]
pub(crate) struct Told {
    pairs: Pairs,
}

#[derive(Drop)]
#[cycle(told)]
enum Pairs {
    Nothing,
    /// Those before the last, and the last.
    More(Snapshot<Snapshot<Told>>, Snapshot<Constraint>, u16),
}

impl Model for Told {
    ghost use Rattle.std.specs.Prelude.{List, length};
    ghost use Rattle.match_index.specs.Pairs.{Pair};

    ghost Value = { List Pair };

    ghost use Rattle.match_numbers.specs.Told.{told};

    ghost view = { λ t. told t.pairs };

    ghost size = { length };

    ghost use Rattle.std.proofs.Common.{arith};

    ghost size_decreases = { λ a h. Prim.grind (arith) };
}

impl Told {
    ghost use Rattle.std.specs.Prelude.{◌≡◌, ◌∷◌, []};
    ghost use Rattle.match_index.specs.Pairs.{test_of};

    /// No pair.
    pub(crate) fn nothing() -> Self
        ensures { result ≡ [] }
    {
        Told {
            pairs: Pairs::Nothing,
        }
    }

    /// The pairs put earlier, and this one.
    pub(crate) fn and(earlier: &Snapshot<Told>, constraint: &Constraint, id: u16) -> Self
        ensures { result ≡ (test_of constraint.now, id) ∷ earlier.now.value }
    {
        Told {
            pairs: Pairs::More(Snapshot::of(earlier), Snapshot::of(constraint), id),
        }
    }
}
