//! The workloads that are measured, each with its plan.
ghost use Rattle.std.specs.Prelude.{◌<◌};

use crate::plan::{Plan, Subject};

/// A table and the notices that it routes.
#[derive(Clone, Copy)]
pub struct Workload {
    /// What it is called.
    pub name: &'static str,
    /// The seed of all that is made.
    pub seed: u64,
    /// How many filters the table holds.
    pub filters: usize,
    /// How many interfaces hold them.
    pub interfaces: u32,
    /// How many notices the table routes.
    pub notices: usize,
    /// How many of these the scan routes.
    pub scanned: usize,
    /// How many filters are added and removed again.
    pub changes: usize,
    /// How filters and notices are made.
    pub plan: Plan,
    ghost some_interfaces: { 0 < interfaces },
}

/// Filters of up to six constraints on twenty names, and notices of eight attributes, with operators as in use.
const USUAL: Plan = Plan {
    subject: Subject::Usual,
    constraints: 6,
    names: 20,
    further: 0,
    attributes: 8,
    numbers: 1000,
    words: 200,
    letters: 16,
    joined: 1,
    ends: false,
};

/// The same with the operators more alike.
const MIXED: Plan = Plan {
    subject: Subject::Mixed,
    constraints: 6,
    names: 20,
    further: 0,
    attributes: 8,
    numbers: 1000,
    words: 200,
    letters: 16,
    joined: 1,
    ends: false,
};

/// The same on int alone.
const NUMBERS: Plan = Plan {
    subject: Subject::Numbers,
    constraints: 6,
    names: 20,
    further: 0,
    attributes: 8,
    numbers: 1000,
    words: 200,
    letters: 16,
    joined: 1,
    ends: false,
};

/// Filters of one pattern on one of five names, and notices with a text of each name.
const TEXTS: Plan = Plan {
    subject: Subject::Texts,
    constraints: 1,
    names: 5,
    further: 0,
    attributes: 5,
    numbers: 1000,
    words: 400,
    letters: 16,
    joined: 3,
    ends: false,
};

/// The workloads, in the order of the figures.
pub const WORKLOADS: [Workload; 4] = [
    Workload {
        name: "usual",
        seed: 4,
        filters: 4000,
        interfaces: 512,
        notices: 20_000,
        scanned: 2000,
        changes: 201,
        plan: USUAL,
    },
    Workload {
        name: "mixed",
        seed: 1,
        filters: 4000,
        interfaces: 512,
        notices: 20_000,
        scanned: 2000,
        changes: 201,
        plan: MIXED,
    },
    Workload {
        name: "numbers",
        seed: 2,
        filters: 4000,
        interfaces: 512,
        notices: 20_000,
        scanned: 2000,
        changes: 201,
        plan: NUMBERS,
    },
    Workload {
        name: "texts",
        seed: 3,
        filters: 3000,
        interfaces: 512,
        notices: 20_000,
        scanned: 2000,
        changes: 201,
        plan: TEXTS,
    },
];
