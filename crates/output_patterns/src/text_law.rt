//! States that the text of what patterns find shows all occurrences of each pattern.
ghost use Rattle.std.specs.Prelude.{◌≡◌, ◌<◌, ℕ, All, List, length};
ghost use Rattle.filter_text.specs.Deliveries.{Delivery as Delivered};
ghost use Rattle.net_model.specs.Parts.{ClientParts};
ghost use Rattle.output_patterns.specs.Parts.{PatternParts};
ghost use Rattle.output_patterns.specs.All.{AreFound, occurrences_text};
ghost use Rattle.output_patterns.specs.Found.{found_text};

/// The text of what patterns find is that of all occurrences of each pattern in what its client received, and these exist.
pub fn all_are_found()
    ensures text { (clients : List ClientParts) (received : List (List Delivered)) (patterns : List PatternParts) (alls : List (List (List ℕ)))
        → AreFound clients received patterns alls → found_text clients received patterns ≡ occurrences_text clients received patterns alls }
    ensures exist { (clients : List ClientParts) (received : List (List Delivered)) (patterns : List PatternParts)
        → All (λ p. 0 < length p.steps) patterns → (alls : List (List (List ℕ))) × AreFound clients received patterns alls }
{}
