//! The type of the state of the reader while patterns are read.
ghost use Rattle.std.specs.Prelude.{◌≡◌, OnOk, IfOk, length};
ghost use Rattle.std.specs.List.{list_any};
ghost use Rattle.std.specs.Option.{is_some};
ghost use Rattle.output_patterns.specs.Parts.{all_of, has_label, has_room, is_labelled, is_short, listed, with_last_step, with_pattern, with_step};
ghost use Rattle.output_patterns.specs.Rules.{nothing};

use crate::pattern::Pattern;
use base::NoMemory;
use filter_types::Filter;
use std::alloc::Global;
use std::marker::Model;

/// The patterns so far; contracts see those before the last, and the last, whose steps may go on.
#[derive(Drop)]
pub struct Watching {
    before: Vec<Pattern>,
    last: Option<Pattern>,
}

impl Model for Watching {
    ghost use Rattle.output_patterns.specs.Parts.{WatchingParts, watching};

    ghost Value = { WatchingParts };

    ghost view = { λ w. watching w.before.items w.last };
}

fn is_labelled(pattern: &Pattern, client: u32, label: &[u8]) -> bool
    ensures { result ≡ is_labelled client label.now pattern.now }
{
    pattern.client == client && pattern.label.bytes() == label
}

fn any_labelled(patterns: &[Pattern], client: u32, label: &[u8]) -> bool
    ensures { result ≡ list_any (is_labelled client label.now) patterns.now }
{
    patterns.iter().any(|p| is_labelled(p, client, label))
}

fn last_labelled(last: &Option<Pattern>, client: u32, label: &[u8]) -> bool
    ensures { result ≡ list_any (is_labelled client label.now) (listed last.now) }
{
    match last {
        None => false,
        Some(pattern) => is_labelled(pattern, client, label),
    }
}

// One step more.
fn add_step(pattern: &mut Pattern, step: Filter) -> Result<(), NoMemory>
    ensures { OnOk result (pattern.new ≡ with_step step pattern.old) }
{
    pattern.steps.push(step)?;
    Ok(())
}

impl Watching {
    /// No pattern.
    pub fn new(alloc: Global) -> Watching
        ensures { result ≡ nothing }
    {
        Watching {
            before: Vec::new(alloc),
            last: None,
        }
    }

    /// How many patterns there are.
    pub fn count(&self) -> usize
        ensures { result ≡ length (all_of self.now) }
    {
        match self.last {
            None => self.before.len(),
            Some(_) => self.before.len() + 1,
        }
    }

    /// Whether there is one.
    pub fn is_some(&self) -> bool
        ensures { result ≡ is_some self.now.last }
    {
        self.last.is_some()
    }

    /// Whether there is a last pattern with fewer than 2 steps.
    pub fn is_short(&self) -> bool
        ensures { result ≡ is_short self.now.last }
    {
        match &self.last {
            None => false,
            Some(pattern) => pattern.steps.len() < 2,
        }
    }

    /// Whether there is a last pattern with fewer than 8 steps.
    pub fn has_room(&self) -> bool
        ensures { result ≡ has_room self.now.last }
    {
        match &self.last {
            None => false,
            Some(pattern) => pattern.steps.len() < 8,
        }
    }

    /// Whether a pattern of this client has this label.
    #[tactic(auto, using(crate::proofs::Labels::label_parts))]
    pub fn has_label(&self, client: u32, label: &[u8]) -> bool
        ensures { result ≡ has_label client label.now (all_of self.now) }
    {
        any_labelled(&self.before, client, label) || last_labelled(&self.last, client, label)
    }

    /// Begins a pattern behind the others.
    pub fn begin(&mut self, pattern: Pattern) -> Result<(), NoMemory>
        ensures { OnOk result (self.new ≡ with_pattern pattern self.old) }
    {
        if let Some(before) = self.last.replace(pattern) {
            self.before.push(before)?;
        }
        Ok(())
    }

    /// One step more of the last pattern.
    pub fn add_step(&mut self, step: Filter) -> Result<(), NoMemory>
        ensures { OnOk result (self.new ≡ with_last_step step self.old) }
    {
        match &mut self.last {
            None => Ok(()),
            Some(pattern) => add_step(pattern, step),
        }
    }

    /// All patterns, given away.
    pub fn into_patterns(self) -> Result<Vec<Pattern>, NoMemory>
        ensures { IfOk result (λ patterns. patterns.items ≡ all_of self) }
    {
        let Watching { mut before, last } = self;
        if let Some(pattern) = last {
            before.push(pattern)?;
        }
        Ok(before)
    }
}
