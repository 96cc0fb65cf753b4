//! States the laws of covering: it is reflexive and transitive, and sound for notices whose values are well formed.
ghost use Rattle.std.specs.Prelude.{◌≡◌, true, List};
ghost use Rattle.filter_constraints.specs.Constraint.{ConstraintParts};
ghost use Rattle.filter_types.specs.Notice.{Attribute, AreValues};
ghost use Rattle.filter_types.specs.Cover.{matches, allows, filter_covers, advert_covers};

/// Covering of filters is reflexive, transitive and sound: what the covered one matches the covering one matches.
pub fn filter_laws()
    ensures reflexive { (f : List ConstraintParts) → filter_covers f f ≡ true }
    ensures transitive { (f g h : List ConstraintParts) → filter_covers f g ≡ true → filter_covers g h ≡ true → filter_covers f h ≡ true }
    ensures sound { (f g : List ConstraintParts) (n : List Attribute) → AreValues n → filter_covers f g ≡ true → matches n g ≡ true → matches n f ≡ true }
{}

/// Covering of advertisements is reflexive, transitive and sound: what the covered one allows the covering one allows.
pub fn advert_laws()
    ensures reflexive { (a : List ConstraintParts) → advert_covers a a ≡ true }
    ensures transitive { (a b c : List ConstraintParts) → advert_covers a b ≡ true → advert_covers b c ≡ true → advert_covers a c ≡ true }
    ensures sound { (a b : List ConstraintParts) (n : List Attribute) → AreValues n → advert_covers a b ≡ true → allows b n ≡ true → allows a n ≡ true }
{}
