//! States what follows from the laws of a tree alone.
ghost use Rattle.std.specs.Prelude.{◌≡◌, ℕ, List};
ghost use Rattle.base.specs.Sets.{Has};
ghost use Rattle.base_tree.specs.Hops.{AreHops};
ghost use Rattle.base_tree.specs.Sides.{AreSides};
ghost use Rattle.base_tree.specs.Tree.{IsPath};

/// Each server is on one side of an edge; one neighbour lies towards any other server; a way that never turns back is
/// the path; a side is one larger than the sides beyond it, and the sides of a server's edges are all other servers.
pub fn sides()
    ensures { (servers : List ℕ) (links : ℕ → List ℕ) (hop : ℕ → ℕ → ℕ) → AreHops servers links hop → AreSides servers links hop }
{}

/// Between two servers there is one path.
pub fn one_path()
    ensures { (servers : List ℕ) (links : ℕ → List ℕ) (hop : ℕ → ℕ → ℕ) → AreHops servers links hop → (a x : ℕ) (p q : List ℕ) → Has x servers
        → IsPath links a x p → IsPath links a x q → p ≡ q }
{}
