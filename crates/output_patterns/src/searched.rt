//! The type of patterns with their detectors, over what their clients received.
ghost use Rattle.std.specs.Prelude.{◌≡◌, ℕ, All, IfOk};
ghost use Rattle.output_patterns.specs.Watch.{IsSoundPattern};

use crate::{Detector, Pattern};
use base::NoMemory;
use filter_values::Name;
use std::alloc::Global;
use std::marker::Model;

/// A pattern with a detector that was fed nothing; contracts see the pattern.
#[derive(Drop)]
pub struct Searched {
    /// The number of its client, from 1.
    pub client: u32,
    /// Its label.
    pub label: Name,
    /// The detector of its steps.
    pub detector: Detector,
}

impl Model for Searched {
    ghost use Rattle.std.specs.Prelude.{◌≡◌, ◌<◌, [], length};
    ghost use Rattle.output_patterns.specs.Parts.{PatternParts, pattern_parts};

    ghost Value = { PatternParts };

    ghost view = { λ s. pattern_parts s.client s.label s.detector.steps };

    ghost invariant = { λ s. (s.detector.fed ≡ []) × (0 < length s.detector.steps) };
}

// A pattern with its detector.
fn with_detector(pattern: Pattern, clients: usize) -> Result<Searched, NoMemory>
    requires { IsSoundPattern clients pattern }
    ensures { IfOk result (λ s. s ≡ pattern) }
{
    let Pattern {
        client,
        label,
        steps,
    } = pattern;
    Ok(Searched {
        client,
        label,
        detector: Detector::new(steps)?,
    })
}

/// Patterns of so many clients with their detectors.
pub fn all_searched(
    alloc: Global,
    patterns: Vec<Pattern>,
    clients: usize,
) -> Result<Vec<Searched>, NoMemory>
    requires { All (IsSoundPattern clients) patterns.items }
    ensures { IfOk result (λ all. all.items ≡ patterns.items) }
{
    let mut all = Vec::with_capacity(alloc, patterns.len())?;
    for pattern in patterns {
        all.push(with_detector(pattern, clients)?)?;
    }
    Ok(all)
}
