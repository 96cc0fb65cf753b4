//! States how pairs follow from changes, and routes from pairs.
ghost use Rattle.std.specs.Prelude.{◌≡◌, ◌↔◌, ◌++◌, List, [], ℕ};
ghost use Rattle.base.specs.Sets.{Has};
ghost use Rattle.match_routes.specs.declared.table_change.TableChange.{TableChange};
ghost use Rattle.match_routes.specs.Installed.{Pair, all_changed};
ghost use Rattle.match_routes.specs.Routes.{IsRouteBy};
ghost use Rattle.thread_versions.specs.Pairs.{pairs_after};

/// The pairs after a list of changes are what the changes make of no pairs, one after the other, and further changes go on
/// from them.
#[tactic(auto, using(crate::proofs::Pairs::none_after, crate::proofs::Pairs::more_after))]
pub fn pairs_are_applied()
    ensures none { pairs_after [] ≡ [] }
    ensures further { (changes more : List TableChange) → pairs_after (changes ++ more) ≡ all_changed more (pairs_after changes) }
{}

/// Where the same pairs are installed, in whatever order, routes are the same.
pub fn same_pairs_same_routes()
    ensures { (numbers : List ℕ) (a b : List Pair) (route : List ℕ) → ((x : Pair) → Has x a ↔ Has x b)
        → IsRouteBy numbers a route → IsRouteBy numbers b route }
{}
