//! One row of a table of servers: a number for each server.
ghost use Rattle.std.specs.Prelude.{◌≡◌, ◌==◌, ◌<◌, ◌≤◌, ◌+◌, ◌&&◌, [], ℕ, cond, not, filter, length, slice_index, IfOk};
ghost use Rattle.std.specs.List.{range_with_len};
ghost use Rattle.base_tree.specs.Growing.{hop_after};

use base::NoMemory;
use std::alloc::Global;
use std::marker::Model;

/// Numbers by server, which contracts see as their list.
#[derive(Debug, Drop)]
pub struct Row {
    numbers: Vec<u32>,
}

impl Model for Row {
    ghost use Rattle.std.specs.Prelude.{List, ℕ};

    ghost Value = { List ℕ };

    ghost view = { λ r. r.numbers.items };
}

// Writes the step at each place that has the label.
fn write_steps(hops: &mut [u32], labels: &[u32], label: u32, step: u32)
    requires { length hops.old ≤ length labels.now }
    ensures { (y : ℕ) → y < length hops.old → slice_index hops.new y ≡ cond (slice_index labels.now y == label) step (slice_index hops.old y) }
{
    for (y, hop) in hops.iter_mut().enumerate() {
        if labels[y] == label {
            *hop = step;
        }
    }
}

impl Row {
    pub fn new(alloc: Global) -> Row
        ensures { result ≡ [] }
    {
        Row {
            numbers: Vec::new(alloc),
        }
    }

    pub fn zeros(alloc: Global, len: usize) -> Result<Row, NoMemory>
        ensures { IfOk result (λ r. length r ≡ len) }
    {
        Ok(Row {
            numbers: vec![in alloc; 0u32; len]?,
        })
    }

    pub fn get(&self, place: u32) -> u32
        requires { place < length self.now }
        ensures { result ≡ slice_index self.now place }
    {
        self.numbers[place as usize]
    }

    pub fn as_slice(&self) -> &[u32]
        ensures { result.now ≡ self.now }
    {
        &self.numbers
    }

    // From x over the edge between its part's server `near` and `far` to all in the part of `far`.
    fn cross(&mut self, x: u32, labels: &[u32], near: u32, far: u32)
        requires labels { length self.old ≤ length labels.now }
        requires near { near < length self.old }
        requires far { far < length labels.now }
        ensures len { length self.new ≡ length self.old }
        ensures hops { (y : ℕ) → y < length self.old
            → slice_index self.new y ≡ cond (slice_index labels.now y == slice_index labels.now far)
            (cond (x == near) far (slice_index self.old near)) (slice_index self.old y) }
    {
        let step = if x == near { far } else { self.get(near) };
        write_steps(&mut self.numbers, labels, labels[far as usize], step);
    }

    /// The hops of x after an edge joins the parts of a and b.
    pub fn join(&mut self, x: u32, labels: &[u32], a: u32, b: u32)
        requires labels { length self.old ≤ length labels.now }
        requires x { x < length self.old }
        requires a { a < length self.old }
        requires b { b < length self.old }
        ensures len { length self.new ≡ length self.old }
        ensures hops { (y : ℕ) → y < length self.old → slice_index self.new y ≡ hop_after labels.now self.old x a b y }
    {
        let label = labels[x as usize];
        if label == labels[a as usize] {
            self.cross(x, labels, a, b);
        } else if label == labels[b as usize] {
            self.cross(x, labels, b, a);
        }
    }

    // Whether b is a neighbour of a, by the hops of a.
    fn is_neighbour(&self, a: u32, b: u32) -> bool
        requires { b < length self.now }
        ensures { result ≡ (not (b == a) && (slice_index self.now b == b)) }
    {
        b != a && self.get(b) == b
    }

    /// The neighbours of a, by its hops.
    pub fn neighbours(&self, alloc: Global, a: u32) -> Result<Row, NoMemory>
        requires some { 0 < length self.now }
        requires few { length self.now ≤ 65 }
        ensures { (n : ℕ) → length self.now ≡ n + 1 → IfOk result (λ r. r ≡ filter (λ b. not (b == a) && (slice_index self.now b == b)) (range_with_len 1 n)) }
    {
        let mut numbers = Vec::new(alloc);
        for b in 1..self.numbers.len() as u32 {
            if self.is_neighbour(a, b) {
                numbers.push(b)?;
            }
        }
        Ok(Row { numbers })
    }
}
