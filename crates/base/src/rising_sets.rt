//! Finite sets as strictly rising lists over an order, and the roots of a set under a covering
//! relation.
//!
//! There is no code here but laws: functions that do nothing and whose contracts hold for every
//! type of items, every covering relation and every canonical order that keep `CoverLaws`.
ghost use Rattle.std.specs.Prelude.{◌≡◌, ◌↔◌, ◌⊎◌, Bool, true, false, List, [], filter};
ghost use Rattle.base.specs.Laws.{CoverLaws};
ghost use Rattle.base.specs.Sets.{Has, member, same_list, IsRising, union, minus, set_of, roots};

/// The test of membership answers true exactly for the members.
pub fn membership<T>()
    ensures { (covers before : T → T → Bool) → CoverLaws covers before → (x : T) (xs : List T) → (member before x xs ≡ true) ↔ Has x xs }
{}

/// The test of equality answers true exactly for equal lists.
pub fn equality<T>()
    ensures { (covers before : T → T → Bool) → CoverLaws covers before → (xs ys : List T) → (same_list before xs ys ≡ true) ↔ (xs ≡ ys) }
{}

/// Sets with the same members are equal.
pub fn same_members<T>()
    ensures { (covers before : T → T → Bool) → CoverLaws covers before → (xs ys : List T) → IsRising before xs → IsRising before ys
        → ((x : T) → Has x xs → Has x ys) → ((x : T) → Has x ys → Has x xs) → xs ≡ ys }
{}

/// The union of two sets is the set of what is in one of them.
pub fn union_of_sets<T>()
    ensures rising { (covers before : T → T → Bool) → CoverLaws covers before → (xs ys : List T) → IsRising before ys → IsRising before (union before xs ys) }
    ensures members { (covers before : T → T → Bool) → CoverLaws covers before → (x : T) (xs ys : List T) → Has x (union before xs ys) ↔ (Has x xs ⊎ Has x ys) }
{}

/// The difference of two sets is the set of what is in the first and not in the second.
pub fn difference_of_sets<T>()
    ensures rising { (covers before : T → T → Bool) → CoverLaws covers before → (xs ys : List T) → IsRising before xs → IsRising before (minus before xs ys) }
    ensures members { (covers before : T → T → Bool) → CoverLaws covers before → (x : T) (xs ys : List T)
        → Has x (minus before xs ys) ↔ (Has x xs × (Has x ys → ⊥)) }
{}

/// What a test lets pass of a set is a set.
pub fn part_of_set<T>()
    ensures rising { (covers before : T → T → Bool) → CoverLaws covers before → (test : T → Bool) (xs : List T) → IsRising before xs
        → IsRising before (filter test xs) }
    ensures members { (test : T → Bool) (x : T) (xs : List T) → Has x (filter test xs) ↔ (Has x xs × (test x ≡ true)) }
{}

/// The set of a list has its members, and a set is its own set.
pub fn set_of_list<T>()
    ensures rising { (covers before : T → T → Bool) → CoverLaws covers before → (xs : List T) → IsRising before (set_of before xs) }
    ensures members { (covers before : T → T → Bool) → CoverLaws covers before → (x : T) (xs : List T) → Has x (set_of before xs) ↔ Has x xs }
    ensures same { (covers before : T → T → Bool) → CoverLaws covers before → (xs : List T) → IsRising before xs → set_of before xs ≡ xs }
{}

/// The roots of a set are a set. A member is a root where each member that covers it is covered
/// back and does not come before it, and no root covers another one.
pub fn roots_of_set<T>()
    ensures rising { (covers before : T → T → Bool) → CoverLaws covers before → (s : List T) → IsRising before s → IsRising before (roots covers before s) }
    ensures members { (covers before : T → T → Bool) → (s : List T) (f : T)
        → Has f (roots covers before s) ↔ (Has f s × ((g : T) → Has g s → covers g f ≡ true → (covers f g ≡ true) × (before g f ≡ false))) }
    ensures apart { (covers before : T → T → Bool) → CoverLaws covers before → (s : List T) (f g : T) → Has f (roots covers before s)
        → Has g (roots covers before s) → covers f g ≡ true → f ≡ g }
{}

/// Each member of a set is covered by a root of it.
pub fn covered_by_root<T>()
    ensures { (covers before : T → T → Bool) → CoverLaws covers before → (s : List T) (f : T) → Has f s
        → (r : T) × Has r (roots covers before s) × (covers r f ≡ true) }
{}

/// A set that loses its difference to another set and takes in the other's difference to it
/// becomes the other set.
pub fn update<T>()
    ensures { (covers before : T → T → Bool) → CoverLaws covers before → (old new : List T) → IsRising before new
        → union before (minus before old (minus before old new)) (minus before new old) ≡ new }
{}
