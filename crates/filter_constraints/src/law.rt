//! States the laws of covering, of compatibility and of the canonical order. The laws of numbers are over any
//! range with a least and a greatest number and at least three in all; int is the range of i64, time
//! that of u64.
ghost use Rattle.std.specs.Prelude.{◌≡◌, ◌≢◌, ℤ, true, List};
ghost use Rattle.std.specs.Cmp.{IsTotalOrder};
ghost use Rattle.std.specs.declared.cmp.Ordering.TheVariants.{Equal};
ghost use Rattle.filter_values.specs.Value.{IsValue};
ghost use Rattle.filter_values.specs.declared.value.Kind.{Kind};
ghost use Rattle.filter_values.specs.declared.value.Value.{Value};
ghost use Rattle.filter_constraints.specs.Complete.{IsCompletePair, IsImplied, SharesValue};
ghost use Rattle.filter_constraints.specs.Constraint.{ConstraintParts, IsConstraint, satisfies, constraint_covers, compatible, form_of, form_allows};
ghost use Rattle.filter_constraints.specs.Constraint.{int_least, int_greatest, time_least, time_greatest};
ghost use Rattle.filter_constraints.specs.Numbers.{Numbers, IsNumberForm, IsWithin, IsWide, IsWiderWithin, HaveCommonWithin};
ghost use Rattle.filter_constraints.specs.Numbers.{number_allows, number_covers, number_compatible, number_form, number_satisfies};
ghost use Rattle.filter_constraints.specs.Order.{constraint_cmp, list_cmp};
ghost use Rattle.filter_constraints.specs.declared.op.Op.{Op};

/// The values that meet the normal form are those that satisfy the constraint.
pub fn normal_form()
    ensures { (c : ConstraintParts) (x : Value) → IsValue x → form_allows (form_of c.kind c.op c.operand) x ≡ satisfies c x }
{}

/// Covering is reflexive, transitive and sound.
pub fn covering()
    ensures reflexive { (c : ConstraintParts) → constraint_covers c c ≡ true }
    ensures transitive { (c d e : ConstraintParts) → constraint_covers c d ≡ true → constraint_covers d e ≡ true → constraint_covers c e ≡ true }
    ensures sound { (c d : ConstraintParts) → constraint_covers c d ≡ true → IsImplied c d }
{}

/// Covering is complete for int, for time, for bool, and for the pairs of forms of str that are named.
pub fn covering_complete()
    ensures { (c d : ConstraintParts) → IsCompletePair c d → IsImplied c d → constraint_covers c d ≡ true }
{}

/// Compatibility is symmetric, it is never no where one value satisfies both, and for int, time and
/// bool it is yes only there.
pub fn compatibility()
    ensures symmetric { (c d : ConstraintParts) → compatible c d ≡ compatible d c }
    ensures never_wrong { (c d : ConstraintParts) → c.name ≡ d.name → SharesValue c d → compatible c d ≡ true }
    ensures exact { (c d : ConstraintParts) → IsConstraint c → IsConstraint d → c.kind ≢ Kind.Str → compatible c d ≡ true → SharesValue c d }
{}

/// The canonical orders of constraints and of lists of them are total, and what ties is equal.
pub fn canonical_order()
    ensures constraints { IsTotalOrder constraint_cmp }
    ensures same_constraints { (c d : ConstraintParts) → constraint_cmp c d ≡ Equal → c ≡ d }
    ensures lists { IsTotalOrder list_cmp }
    ensures same_lists { (f g : List ConstraintParts) → list_cmp f g ≡ Equal → f ≡ g }
{}

/// int is a range that the laws of numbers speak of.
pub fn int_range()
    ensures { IsWide int_least int_greatest }
{}

/// So is time.
pub fn time_range()
    ensures { IsWide time_least time_greatest }
{}

/// The normal form of a constraint on a number is one of the range, and the numbers that meet it
/// satisfy the constraint.
pub fn number_normal_form()
    ensures is_form { (least greatest : ℤ) (op : Op) (u : ℤ) → IsWide least greatest → IsWithin least greatest u
        → IsNumberForm least greatest (number_form least greatest op u) }
    ensures same { (least greatest : ℤ) (op : Op) (u x : ℤ) → IsWide least greatest → IsWithin least greatest x
        → number_allows (number_form least greatest op u) x ≡ number_satisfies op x u }
{}

/// Covering of numbers is reflexive, transitive, sound and complete.
pub fn number_covering()
    ensures reflexive { (k : Numbers) → number_covers k k ≡ true }
    ensures transitive { (k m n : Numbers) → number_covers k m ≡ true → number_covers m n ≡ true → number_covers k n ≡ true }
    ensures sound { (k m : Numbers) (x : ℤ) → number_covers k m ≡ true → number_allows m x ≡ true → number_allows k x ≡ true }
    ensures complete { (least greatest : ℤ) (k m : Numbers) → IsWide least greatest → IsNumberForm least greatest k → IsNumberForm least greatest m
        → IsWiderWithin least greatest k m → number_covers k m ≡ true }
{}

/// Forms of numbers are compatible exactly where some number of the range meets both.
pub fn number_compatibility()
    ensures never_wrong { (k m : Numbers) (x : ℤ) → number_allows k x ≡ true → number_allows m x ≡ true → number_compatible k m ≡ true }
    ensures exact { (least greatest : ℤ) (k m : Numbers) → IsWide least greatest → IsNumberForm least greatest k → IsNumberForm least greatest m
        → number_compatible k m ≡ true → HaveCommonWithin least greatest k m }
{}
