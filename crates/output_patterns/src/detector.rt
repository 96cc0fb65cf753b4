//! Detects the occurrences of a pattern as notifications come, in one pass.
ghost use Rattle.std.specs.Prelude.{◌≡◌, ◌≤◌, ◌<◌, ℕ, List, length, drop, vec_capacity};
ghost use Rattle.filter_types.specs.Notice.{Attribute};
ghost use Rattle.output_patterns.specs.Scan.{advance, meet, is_over};

use crate::heard::Heard;
use base::NoMemory;
use filter_types::{Filter, Notice, matches};
use std::marker::Model;
use std::snapshot::Snapshot;

/// A detector of the occurrences of some steps in the notices that it is fed.
///
/// Contracts see its steps and all notices fed, of which it keeps none: it holds its steps, the places found for the steps
/// met since the last end, and how many notices it was fed.
#[derive(Drop)]
pub struct Detector {
    steps: Vec<Filter>,
    found: Vec<u64>,
    fed: u64,
    heard: Snapshot<Heard>,
}

impl Model for Detector {
    ghost use Rattle.std.specs.Prelude.{vec_capacity};
    ghost use Rattle.output_patterns.specs.Pattern.{Detected};
    ghost use Rattle.output_patterns.specs.Scan.{IsScanned};

    ghost Value = { Detected };

    ghost view = { λ d. record { steps = d.steps.items; fed = d.heard.value } };

    ghost invariant = { λ d. IsScanned d.steps.items d.heard.value d.found.items d.fed (vec_capacity d.found) };
}

// Forgets the places of an occurrence that has ended.
fn start_over(steps: &[Filter], found: &mut Vec<u64>)
    requires some { 0 < length steps.now }
    requires within { length found.old.items ≤ length steps.now }
    ensures below { length found.new.items < length steps.now }
    ensures room { vec_capacity found.new ≡ vec_capacity found.old }
    ensures same { (p : ℕ) (n : List Attribute) → advance steps.now (drop (length found.old.items) steps.now) found.old.items p n
        ≡ meet (drop (length found.new.items) steps.now) found.new.items p n }
{
    if found.len() == steps.len() {
        found.clear();
    }
}

// Takes the place where the notice matches the next step; true where it matches the last.
fn take_place(steps: &[Filter], found: &mut Vec<u64>, place: u64, n: &Notice) -> bool
    requires below { length found.old.items < length steps.now }
    requires room { length steps.now ≤ vec_capacity found.old }
    ensures within { length found.new.items ≤ length steps.now }
    ensures room { length steps.now ≤ vec_capacity found.new }
    ensures found { (meet (drop (length found.old.items) steps.now) found.old.items place n.now).found ≡ found.new.items }
    ensures left { (meet (drop (length found.old.items) steps.now) found.old.items place n.now).left ≡ drop (length found.new.items) steps.now }
    ensures over { result ≡ is_over (drop (length found.new.items) steps.now) }
{
    if !matches(&steps[found.len()], n) {
        return false;
    }
    found.push_reserved(place);
    found.len() == steps.len()
}

impl Detector {
    ghost use Rattle.std.specs.Prelude.{◌≡◌, ◌≤◌, ◌<◌, ◌+◌, ◌^◌, ◌++◌, ◌∷◌, [], ℕ, List, length, IfOk};
    ghost use Rattle.std.specs.List.{Contains};
    ghost use Rattle.output_patterns.specs.Pattern.{AreAllOccurrences, some_ends, end_of};

    /// A detector of these 2 to 8 steps, that was fed nothing.
    pub fn new(steps: Vec<Filter>) -> Result<Detector, NoMemory>
        requires { (2 ≤ length steps.items) × (length steps.items ≤ 8) }
        ensures { IfOk result (λ d. d ≡ record { steps = steps.items; fed = [] }) }
    {
        let found = Vec::with_capacity(*steps.allocator(), steps.len())?;
        Ok(Detector {
            steps,
            found,
            fed: 0,
            heard: Snapshot::of(&Heard::nothing()),
        })
    }

    /// Feeds it a notice; true exactly where one of all occurrences in the notices fed ends with this one. The notice is
    /// matched against one step alone. It takes no memory.
    pub fn feed(&mut self, n: &Notice) -> bool
        requires { length self.old.fed < 2 ^ 63 }
        ensures steps { self.new.steps ≡ self.old.steps }
        ensures fed { self.new.fed ≡ self.old.fed ++ n.now ∷ [] }
        ensures ends { (all : List (List ℕ)) → AreAllOccurrences self.new.steps self.new.fed all → result ≡ some_ends all (length self.new.fed) }
    {
        self.heard = Snapshot::of(&Heard::and(&self.heard, n));
        self.fed += 1;
        start_over(&self.steps, &mut self.found);
        take_place(&self.steps, &mut self.found, self.fed, n)
    }

    /// After an occurrence has ended with the notice fed last: its places, counted from 1.
    pub fn places(&self) -> &[u64]
        ensures { (all : List (List ℕ)) (places : List ℕ) → AreAllOccurrences self.now.steps self.now.fed all → Contains all places
            → end_of places ≡ length self.now.fed → result.now ≡ places }
    {
        &self.found
    }
}
