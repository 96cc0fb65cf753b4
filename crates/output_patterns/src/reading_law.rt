//! Says what is true of every input with patterns.
ghost use Rattle.std.specs.Prelude.{◌≤◌, ℕ, All, List, length};
ghost use Rattle.net_model.specs.Parts.{NetParts};
ghost use Rattle.output_patterns.specs.Parts.{PatternParts};
ghost use Rattle.output_patterns.specs.Watch.{IsSoundPattern, IsWatchOf};

/// Every pattern that is read is one of a client of the net and has 2 to 8 steps, and there are at most 1,024.
pub fn lemma_patterns_sound()
    ensures sound { (bytes : List ℕ) (net : NetParts) (patterns : List PatternParts) → IsWatchOf bytes net patterns
        → All (IsSoundPattern (length net.clients)) patterns }
    ensures few { (bytes : List ℕ) (net : NetParts) (patterns : List PatternParts) → IsWatchOf bytes net patterns → length patterns ≤ 1024 }
{}
