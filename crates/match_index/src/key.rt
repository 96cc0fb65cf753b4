//! The trait of the keys of a line, and of what is looked for in one.
ghost use Rattle.std.specs.Prelude.{◌≡◌};

use std::cmp::Ordering;

/// Keys in an order, in which only equal keys tie.
pub trait LineKey {
    ghost use Rattle.std.specs.Prelude.{◌≡◌};
    ghost use Rattle.std.specs.declared.cmp.Ordering.{Ordering};
    ghost use Rattle.std.specs.declared.cmp.Ordering.TheVariants.{Equal};
    ghost use Rattle.std.specs.Cmp.{IsTotalOrder};

    ghost order: { Self → Self → Ordering };

    /// How this key compares with another.
    fn compare(&self, other: &Self) -> Ordering
        ensures { result ≡ order self.now other.now };

    ghost total: { IsTotalOrder order };

    ghost exact: { (x y : Self) → order x y ≡ Equal → x ≡ y };
}

/// What a key is looked for by: a key that is lent, or what represents one.
pub trait Sought<K: LineKey>: Copy {
    ghost use Rattle.std.specs.Prelude.{◌≡◌};

    ghost meant: { Self → K };

    /// How a key compares with the one that is looked for.
    fn against(self, key: &K) -> Ordering
        ensures { result ≡ K.order key.now (meant self) };
}

impl LineKey for i64 {
    ghost use Rattle.std.specs.Ordering.{int_cmp};
    ghost use Rattle.std.proofs.lemmas.Cmp.{int_cmp_total};
    ghost use Rattle.std.proofs.lemmas.Map.Lookups.{exact_signed};

    ghost order = { int_cmp };

    ghost total = { int_cmp_total };

    ghost exact = { exact_signed };

    #[inline]
    fn compare(&self, other: &i64) -> Ordering {
        self.cmp(other)
    }
}

impl<'a, K: LineKey> Sought<K> for &'a K {
    ghost meant = { λ sought. sought.now };

    #[inline]
    fn against(self, key: &K) -> Ordering {
        key.compare(self)
    }
}
