//! Draws the numbers and letters of a generated document from a seed.
ghost use Rattle.std.specs.Prelude.{◌≡◌, ◌<◌};
ghost use Rattle.document_generate.specs.Draws.{next, draw, letter};

/// A linear congruential generator with Knuth's multiplier for 64 bits (MMIX). Its upper 31 bits are drawn from.
#[derive(Drop)]
pub(crate) struct Draws {
    pub state: u64,
}

// The next state.
#[tactic(auto, unfolding(crate::specs::Draws::next), using(crate::proofs::Wrapping::wraps))]
fn next(state: u64) -> u64
    ensures { result ≡ next state }
{
    state
        .wrapping_mul(6364136223846793005)
        .wrapping_add(1442695040888963407)
}

impl Draws {
    /// A number below this one.
    #[tactic(auto, unfolding(crate::specs::Draws::draw))]
    pub fn below(&mut self, bound: u64) -> u64
        requires { 0 < bound }
        ensures drawn { result ≡ draw self.old.state bound }
        ensures below { result < bound }
        ensures state { self.new.state ≡ next self.old.state }
    {
        self.state = next(self.state);
        (self.state >> 33) % bound
    }

    /// A letter from `a` to `f`.
    #[tactic(auto, unfolding(crate::specs::Draws::letter))]
    pub fn letter(&mut self) -> u8
        ensures drawn { result ≡ letter self.old.state }
        ensures state { self.new.state ≡ next self.old.state }
    {
        b'a' + self.below(6) as u8
    }
}
