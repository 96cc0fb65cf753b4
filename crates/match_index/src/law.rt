//! States that ids appended in two calls are appended.
ghost use Rattle.std.specs.Prelude.{◌≡◌, ◌++◌, List, ℕ};
ghost use Rattle.match_index.specs.Pairs.{Appends};

/// Ids that are appended in two calls are appended.
pub fn appends_law()
    ensures { (old between new a b : List ℕ) → Appends old between a → Appends between new b → Appends old new (a ++ b) }
{}
