//! Where an occurrence stands from a place on, a first one does, and one pass finds all.
ghost use Rattle.std.specs.Prelude.{◌≡◌, ℕ, ◌<◌, ◌≤◌, ◌+◌, true, false, List, [], ◌∷◌, ◌++◌, length};
ghost use Rattle.filter_types.specs.Notice.{Attribute};
ghost use Rattle.output_patterns.specs.Pattern.{Steps, Notices, IsOccurrence, IsFirst, AreAll, AreAllOccurrences, end_of, some_ends};
ghost use Rattle.output_patterns.specs.Scan.{occurrences_from, all_occurrences};

/// Wherever the steps occur from a place there is a first occurrence from there, and there is one alone.
pub fn first_laws()
    ensures exists { (steps : Steps) (notices : Notices) (s : ℕ) (places : List ℕ) → IsOccurrence steps notices s places
        → (first : List ℕ) × IsFirst steps notices s first }
    ensures one { (steps : Steps) (notices : Notices) (s : ℕ) (a b : List ℕ) → IsFirst steps notices s a → IsFirst steps notices s b → a ≡ b }
{}

/// One pass that takes each time the next notice that matches finds the first occurrence from a place and all after it.
/// There is one list of all occurrences alone, and that of a longer list of notices begins with it.
pub fn all_laws()
    ensures from { (steps : Steps) (notices : Notices) (s : ℕ) → 0 < length steps → 1 ≤ s
        → AreAll steps notices s (occurrences_from steps notices s) }
    ensures found { (steps : Steps) (notices : Notices) → 0 < length steps → AreAllOccurrences steps notices (all_occurrences steps notices) }
    ensures one { (steps : Steps) (notices : Notices) (a b : List (List ℕ)) → AreAllOccurrences steps notices a
        → AreAllOccurrences steps notices b → a ≡ b }
    ensures longer { (steps : Steps) (notices more : Notices) (a b : List (List ℕ)) → AreAllOccurrences steps notices a
        → AreAllOccurrences steps (notices ++ more) b → (later : List (List ℕ)) × (b ≡ a ++ later) }
{}

/// With one more notice all occurrences are the same, or one more where one ends with that notice. So what a detector
/// answers for one notice after another is the list of all occurrences.
pub fn next_laws()
    ensures same { (steps : Steps) (notices : Notices) (n : List Attribute) (a b : List (List ℕ)) → AreAllOccurrences steps notices a
        → AreAllOccurrences steps (notices ++ n ∷ []) b → some_ends b (length notices + 1) ≡ false → b ≡ a }
    ensures ended { (steps : Steps) (notices : Notices) (n : List Attribute) (a b : List (List ℕ)) → AreAllOccurrences steps notices a
        → AreAllOccurrences steps (notices ++ n ∷ []) b → some_ends b (length notices + 1) ≡ true
        → (places : List ℕ) × (b ≡ a ++ places ∷ []) × (end_of places ≡ length notices + 1) }
{}
