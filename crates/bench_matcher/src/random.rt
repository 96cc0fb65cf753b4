//! Draws numbers that look random, and the same ones again from the same seed.
ghost use Rattle.std.specs.Prelude.{◌<◌, length};

/// A generator of numbers that look random (splitmix64).
#[derive(Drop)]
pub struct Random {
    state: u64,
}

impl Random {
    /// The generator of this seed.
    pub fn seeded(seed: u64) -> Random {
        Random { state: seed }
    }

    /// The next number.
    pub fn next(&mut self) -> u64 {
        self.state = self.state.wrapping_add(0x9E37_79B9_7F4A_7C15);
        let mixed = (self.state ^ (self.state >> 30)).wrapping_mul(0xBF58_476D_1CE4_E5B9);
        let mixed = (mixed ^ (mixed >> 27)).wrapping_mul(0x94D0_49BB_1331_11EB);
        mixed ^ (mixed >> 31)
    }

    /// A number below a bound.
    pub fn below(&mut self, bound: usize) -> usize
        requires { 0 < bound }
        ensures { result < bound }
    {
        (self.next() % bound as u64) as usize
    }

    /// True once in so many times.
    pub fn once_in(&mut self, times: usize) -> bool
        requires { 0 < times }
    {
        self.below(times) == 0
    }

    /// One of some items.
    pub fn pick<'a, T>(&mut self, items: &'a [T]) -> &'a T
        requires { 0 < length items.now }
    {
        let place = self.below(items.len());
        &items[place]
    }
}
