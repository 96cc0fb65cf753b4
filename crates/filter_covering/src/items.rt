//! Makes filters and advertisements items that cover one another in the canonical order.
use crate::covering::{advert_covers, filter_covers};
use crate::signature::{marks_of, signs_of};
use base::Cover;
use filter_types::{Advert, Filter};
use std::marker::Model;

/// A subscription: a filter as an item of a pool. Contracts see its constraints.
#[derive(Drop)]
pub struct Sub(pub Filter);

impl Model for Sub {
    ghost use Rattle.std.specs.Prelude.{List};
    ghost use Rattle.filter_constraints.specs.Constraint.{ConstraintParts};

    ghost Value = { List ConstraintParts };

    ghost view = { λ s. s.0 };
}

/// An advertisement as an item of a pool. Contracts see its constraints.
#[derive(Drop)]
pub struct Ad(pub Advert);

impl Model for Ad {
    ghost use Rattle.std.specs.Prelude.{List};
    ghost use Rattle.filter_constraints.specs.Constraint.{ConstraintParts};

    ghost Value = { List ConstraintParts };

    ghost view = { λ a. a.0 };
}

impl Cover for Sub {
    ghost use Rattle.filter_types.specs.Cover.{filter_covers};
    ghost use Rattle.filter_types.specs.Before.{list_before};
    ghost use Rattle.filter_covering.specs.Laws.{sub_laws};
    ghost use Rattle.filter_covering.specs.Signatures.{sub_marks, sub_never_misses};

    ghost covering = { filter_covers };

    ghost order = { list_before };

    ghost marked = { sub_marks };

    ghost laws = { sub_laws };

    ghost never_misses = { sub_never_misses };

    fn covers(&self, other: &Sub) -> bool {
        filter_covers(&self.0, &other.0)
    }

    #[tactic(auto, unfolding(filter_types::specs::Before::list_before))]
    fn before(&self, other: &Sub) -> bool {
        self.0 < other.0
    }

    /// The bits of its names, and of the values that its constraints ask for alone: a filter covers one that has these
    /// and maybe more.
    fn signature(&self) -> u64 {
        signs_of(self.0.constraints())
    }
}

impl Cover for Ad {
    ghost use Rattle.filter_types.specs.Cover.{advert_covers};
    ghost use Rattle.filter_types.specs.Before.{list_before};
    ghost use Rattle.filter_covering.specs.Laws.{ad_laws};
    ghost use Rattle.filter_covering.specs.Signatures.{ad_marks, ad_never_misses};

    ghost covering = { advert_covers };

    ghost order = { list_before };

    ghost marked = { ad_marks };

    ghost laws = { ad_laws };

    ghost never_misses = { ad_never_misses };

    fn covers(&self, other: &Ad) -> bool {
        advert_covers(&self.0, &other.0)
    }

    #[tactic(auto, unfolding(filter_types::specs::Before::list_before))]
    fn before(&self, other: &Ad) -> bool {
        self.0 < other.0
    }

    /// All bits but those of its names: an advertisement covers one that has no other names.
    fn signature(&self) -> u64 {
        !marks_of(self.0.constraints())
    }
}
