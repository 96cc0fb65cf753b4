//! States the laws of the canonical lists and of their order.
ghost use Rattle.std.specs.Prelude.{◌≡◌, ◌↔◌, true, false, List, IsPermutation};
ghost use Rattle.std.specs.List.{Contains};
ghost use Rattle.filter_constraints.specs.Constraint.{ConstraintParts};
ghost use Rattle.filter_types.specs.Before.{list_before};
ghost use Rattle.filter_types.specs.Canonical.{canonical, AreInCanonicalOrder};

/// The canonical list rises, has the members of what was given and doesn't depend on their order; two rising lists with
/// the same members are equal.
pub fn canonical_laws()
    ensures rising { (f : List ConstraintParts) → AreInCanonicalOrder (canonical f) }
    ensures members { (f : List ConstraintParts) (c : ConstraintParts) → Contains (canonical f) c ↔ Contains f c }
    ensures any_order { (f g : List ConstraintParts) → IsPermutation f g → canonical g ≡ canonical f }
    ensures unique { (f g : List ConstraintParts) → AreInCanonicalOrder f → AreInCanonicalOrder g
        → ((c : ConstraintParts) → Contains f c ↔ Contains g c) → f ≡ g }
{}

/// The canonical order of filters and of advertisements is strict and total, and its ties are equal.
pub fn order_laws()
    ensures irreflexive { (f : List ConstraintParts) → list_before f f ≡ false }
    ensures transitive { (f g h : List ConstraintParts) → list_before f g ≡ true → list_before g h ≡ true → list_before f h ≡ true }
    ensures total { (f g : List ConstraintParts) → list_before f g ≡ false → list_before g f ≡ false → f ≡ g }
{}
