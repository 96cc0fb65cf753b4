//! The trait of items that cover one another, in one canonical order.
ghost use Rattle.std.specs.Prelude.{◌≡◌};

/// Items that cover one another and stand in one canonical order, as filters do: a filter covers
/// another where it matches whatever the other matches.
///
/// Covering is reflexive and transitive. The order is strict and total, and its ties are equal
/// items. The bits of a covering item's signature are among those of the covered one's, so most
/// pairs are decided by one word.
pub trait Cover {
    ghost use Rattle.std.specs.Prelude.{◌≡◌, ◌⊎◌, ℕ, Bool, true, bit_and};
    ghost use Rattle.base.specs.Laws.{CoverLaws};

    ghost covering: { Self → Self → Bool };

    ghost order: { Self → Self → Bool };

    ghost marked: { Self → ℕ };

    /// Whether this item covers the other one.
    fn covers(&self, other: &Self) -> bool
        ensures { result ≡ covering self.now other.now };

    /// Whether this item comes before the other one in the canonical order.
    fn before(&self, other: &Self) -> bool
        ensures { result ≡ order self.now other.now };

    /// The bits that each item that this one covers has too. 0 decides nothing: such an item may cover
    /// and be covered by any.
    fn signature(&self) -> u64
        ensures { (result ≡ 0) ⊎ (result ≡ marked self.now) }
    {
        0
    }

    ghost laws: { CoverLaws covering order };

    ghost never_misses: { (f g : Self) → covering f g ≡ true → bit_and (marked f) (marked g) ≡ marked f };
}
