//! A table of the pairs of servers that are neighbours.
ghost use Rattle.std.specs.Prelude.{◌≡◌, ◌==◌, ◌&&◌, ◌||◌, ◌≤◌, ℕ, false, length, slice_index};
ghost use Rattle.base_tree.specs.Graph.{joins};
ghost use Rattle.document_reader.specs.Near.{is_near};

use std::marker::Model;

/// Pairs of servers 0 to 64; contracts see 1 at a pair that is there, else 0, for the pair (a, b) at the place 65 a + b.
#[derive(Debug, Drop)]
pub struct Near {
    pairs: [u8; 4225],
}

impl Model for Near {
    ghost use Rattle.std.specs.Prelude.{List, ℕ, ◌≡◌, length};

    ghost Value = { List ℕ };

    ghost view = { λ n. n.pairs };

    ghost invariant = { λ n. length n.pairs ≡ 4225 };
}

// No pair.
fn no_pairs() -> [u8; 4225]
    ensures none { (k : ℕ) → slice_index result k ≡ 0 }
    ensures len { length result ≡ 4225 }
{
    [0; 4225]
}

impl Near {
    /// No pair.
    pub fn new() -> Near
        ensures { (a b : ℕ) → a ≤ 64 → b ≤ 64 → is_near result a b ≡ false }
    {
        Near { pairs: no_pairs() }
    }

    /// Both pairs of two servers more.
    pub fn join(&mut self, a: u32, b: u32)
        requires a { a ≤ 64 }
        requires b { b ≤ 64 }
        ensures { (c d : ℕ) → c ≤ 64 → d ≤ 64 → is_near self.new c d ≡ (joins (a, b) c d || is_near self.old c d) }
    {
        self.pairs[(65 * a + b) as usize] = 1;
        self.pairs[(65 * b + a) as usize] = 1;
    }

    /// Whether the pair is there.
    pub fn has(&self, a: u32, b: u32) -> bool
        requires a { a ≤ 64 }
        requires b { b ≤ 64 }
        ensures { result ≡ is_near self.now a b }
    {
        self.pairs[(65 * a + b) as usize] == 1
    }
}
