//! A table with a count for each direction between two servers.
use base::NoMemory;
use std::alloc::Global;
use std::marker::Model;

/// How many directions there are between numbers up to 64.
const PLACES: usize = 4225;

/// Counts of the directions between servers, which are numbered up to 64. A count stops at 2^32 - 1. Contracts see the list of them.
#[derive(Drop)]
pub(crate) struct Counts {
    cells: Vec<u32>,
}

impl Model for Counts {
    ghost use Rattle.std.specs.Prelude.{List, ℕ};
    ghost use Rattle.output_traffic.specs.Counts.{HasAllPlaces};

    ghost Value = { List ℕ };

    ghost view = { λ c. c.cells.items };

    ghost invariant = { λ c. HasAllPlaces c.cells.items };
}

impl Counts {
    ghost use Rattle.std.specs.Prelude.{◌≡◌, ◌+◌, ◌≤◌, ◌<◌, ◌^◌, ℕ, IfOk, length, slice_set, slice_index};
    ghost use Rattle.base.specs.Numbers.{count};
    ghost use Rattle.output_traffic.specs.Counts.{AreCounts, IsRaised, count_at, is_direction};

    /// Nothing is counted.
    pub(crate) fn none(alloc: Global) -> Result<Counts, NoMemory>
        ensures { IfOk result (λ c. AreCounts c (λ from to. 0)) }
    {
        Ok(Counts {
            cells: vec![in alloc; 0u32; PLACES]?,
        })
    }

    // One more at a place, as far as a cell counts.
    fn raise(&mut self, place: usize)
        requires { place < 4225 }
        ensures more { slice_index self.old place + 1 < 2 ^ 32 → self.new ≡ slice_set self.old place (slice_index self.old place + 1) }
        ensures full { 2 ^ 32 ≤ slice_index self.old place + 1 → self.new ≡ slice_set self.old place (slice_index self.old place) }
        ensures places { length self.old ≡ 4225 }
    {
        self.cells[place] = self.cells[place].saturating_add(1);
    }

    /// One more on the direction between two servers, as far as it is counted; what is no server's number is not counted.
    pub(crate) fn add(&mut self, a: u32, b: u32)
        ensures { (from to : ℕ) → IsRaised self.old self.new from to (count (is_direction a b from to)) }
    {
        if a > 64 || b > 64 {
            return;
        }
        self.raise((a * 65 + b) as usize);
    }

    /// The count of a direction.
    pub(crate) fn get(&self, from: u32, to: u32) -> u32
        ensures { result ≡ count_at self.now from to }
    {
        match self.cells.get(from as usize * 65 + to as usize) {
            Some(count) => *count,
            None => 0,
        }
    }
}
