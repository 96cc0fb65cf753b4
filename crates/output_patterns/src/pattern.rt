//! The types of a pattern, and of a net with patterns.
use filter_types::Filter;
use filter_values::Name;
use net_model::Net;
use std::marker::Model;

/// A pattern: filters that a client's deliveries meet one after another.
#[derive(Drop)]
pub struct Pattern {
    /// The number of the client, from 1.
    pub client: u32,
    /// Its label, which no other pattern of the client has.
    pub label: Name,
    /// Its steps, in order: 2 to 8, once it is read.
    pub steps: Vec<Filter>,
}

impl Model for Pattern {
    ghost use Rattle.output_patterns.specs.Parts.{PatternParts, pattern_parts};

    ghost Value = { PatternParts };

    ghost view = { λ p. pattern_parts p.client p.label p.steps.items };
}

/// A net with the patterns that are looked for in what its clients receive.
#[derive(Drop)]
pub struct Watch {
    /// The net.
    pub net: Net,
    /// The patterns, at most 1,024, in order.
    pub patterns: Vec<Pattern>,
}
