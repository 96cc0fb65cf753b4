//! States the orders of kinds and of values as laws.
ghost use Rattle.std.specs.Prelude.{◌≡◌};
ghost use Rattle.std.specs.Cmp.{IsTotalOrder};
ghost use Rattle.std.specs.declared.cmp.Ordering.TheVariants.{Equal};
ghost use Rattle.filter_values.specs.Order.{kind_cmp, value_cmp};
ghost use Rattle.filter_values.specs.declared.value.Kind.{Kind};
ghost use Rattle.filter_values.specs.declared.value.Value.{Value};

/// The orders of kinds and of values are total, and what ties is equal.
pub fn value_order()
    ensures kinds { IsTotalOrder kind_cmp }
    ensures same_kinds { (k m : Kind) → kind_cmp k m ≡ Equal → k ≡ m }
    ensures values { IsTotalOrder value_cmp }
    ensures same_values { (x y : Value) → value_cmp x y ≡ Equal → x ≡ y }
{}
