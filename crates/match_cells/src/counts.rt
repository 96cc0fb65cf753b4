//! Sixty-four counts.
ghost use Rattle.std.specs.Prelude.{◌≡◌, ℕ, ◌+◌, ◌*◌, ◌%◌, ◌<◌};
ghost use Rattle.std.specs.Int.{bit_at};

use crate::adders::{full, half};

/// Sixty-four counts, each below 32 and by its bits: the first word has the lowest bit of each.
#[derive(Clone, Copy)]
pub struct Counts {
    pub(crate) ones: u64,
    pub(crate) twos: u64,
    pub(crate) fours: u64,
    pub(crate) eights: u64,
    pub(crate) sixteens: u64,
}

impl Counts {
    ghost use Rattle.std.specs.Prelude.{◌≡◌, ◌↔◌, ℕ, ◌+◌, ◌%◌, ◌<◌};
    ghost use Rattle.std.specs.Int.{bit_at};
    ghost use Rattle.match_cells.specs.Counts.{count_at};

    /// Counts of nought.
    #[inline]
    pub fn zero() -> Counts
        ensures { (q : ℕ) → count_at result q ≡ 0 }
    {
        Counts {
            ones: 0,
            twos: 0,
            fours: 0,
            eights: 0,
            sixteens: 0,
        }
    }

    /// Counts of 31.
    #[inline]
    pub fn most() -> Counts
        ensures { (q : ℕ) → q < 64 → count_at result q ≡ 31 }
    {
        Counts {
            ones: u64::MAX,
            twos: u64::MAX,
            fours: u64::MAX,
            eights: u64::MAX,
            sixteens: u64::MAX,
        }
    }

    /// The counts with one more wherever the word has its bit; 32 is nought again.
    #[inline]
    pub fn with(self, word: u64) -> Counts
        ensures { (q : ℕ) → count_at result q ≡ (count_at self q + bit_at word q) % 32 }
    {
        let (ones, carry) = half(self.ones, word);
        let (twos, carry) = half(self.twos, carry);
        let (fours, carry) = half(self.fours, carry);
        let (eights, carry) = half(self.eights, carry);
        let (sixteens, _) = half(self.sixteens, carry);
        Counts {
            ones,
            twos,
            fours,
            eights,
            sixteens,
        }
    }

    /// The counts with one more for each of four words that has its bit; 32 is nought again.
    #[inline]
    pub fn with_four(self, first: u64, second: u64, third: u64, fourth: u64) -> Counts
        ensures { (q : ℕ) → count_at result q ≡ (count_at self q + (bit_at first q + bit_at second q + bit_at third q + bit_at fourth q)) % 32 }
    {
        let (ones, two) = full(self.ones, first, second);
        let (ones, another) = full(ones, third, fourth);
        let (twos, carry) = full(self.twos, two, another);
        let (fours, carry) = half(self.fours, carry);
        let (eights, carry) = half(self.eights, carry);
        let (sixteens, _) = half(self.sixteens, carry);
        Counts {
            ones,
            twos,
            fours,
            eights,
            sixteens,
        }
    }

    /// The places where two counts differ.
    #[inline]
    fn differ(self, other: Counts) -> u64
        ensures { (q : ℕ) → (bit_at result q ≡ 0) ↔ (count_at self q ≡ count_at other q) }
    {
        (self.ones ^ other.ones)
            | (self.twos ^ other.twos)
            | (self.fours ^ other.fours)
            | (self.eights ^ other.eights)
            | (self.sixteens ^ other.sixteens)
    }

    /// The places where two counts are the same.
    #[inline]
    pub fn same(self, other: Counts) -> u64
        ensures { (q : ℕ) → q < 64 → (bit_at result q ≡ 1) ↔ (count_at self q ≡ count_at other q) }
    {
        !self.differ(other)
    }
}
