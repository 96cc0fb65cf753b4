//! Counts the parts of filters.
ghost use Rattle.std.specs.Prelude.{◌≡◌, ◌<◌, ◌≤◌, ◌+◌, ◌*◌, ◌/◌, ◌++◌, ◌∷◌, [], ℕ, List, cond, drop, length, OnOk};
ghost use Rattle.std.specs.List.{list_any};
ghost use Rattle.filter_constraints.specs.Constraint.{ConstraintParts};
ghost use Rattle.match_filters.specs.Parts.{is_alone, is_beside, ends_part, parts_of};
ghost use Rattle.match_filters.specs.Goals.{AreGoals, IsOpen};
ghost use Rattle.match_index.specs.Heads.{is_pattern_op};
ghost use Rattle.match_cells.specs.Counts.{goal_at};

use base::NoMemory;
use filter_constraints::{Constraint, Op};
use filter_values::Kind;
use match_cells::{Counts, count_one};

/// Whether an operator is one of the patterns.
fn is_pattern(op: Op) -> bool
    ensures { result ≡ is_pattern_op op }
{
    matches!(op, Op::Prefix | Op::Suffix | Op::Contains)
}

/// Whether a constraint is a part by itself.
pub(crate) fn is_alone(constraint: &Constraint) -> bool
    ensures { result ≡ is_alone constraint.now }
{
    constraint.kind().is(Kind::Str) && is_pattern(constraint.op())
}

/// Whether two constraints belong to one part.
fn is_beside(first: &Constraint, other: &Constraint) -> bool
    ensures { result ≡ is_beside first.now other.now }
{
    !is_alone(other) && first.same_subject(other)
}

/// Whether some constraint belongs to the part of another one.
fn has_beside(constraint: &Constraint, later: &[Constraint]) -> bool
    ensures { result ≡ list_any (is_beside constraint.now) later.now }
{
    later.iter().any(|other| is_beside(constraint, other))
}

/// Whether a constraint is a part by itself, or no later one belongs to its part.
fn ends_part(constraint: &Constraint, later: &[Constraint]) -> bool
    ensures { result ≡ ends_part constraint.now later.now }
{
    is_alone(constraint) || !has_beside(constraint, later)
}

/// The constraints behind a place.
fn behind(constraints: &[Constraint], i: usize) -> &[Constraint]
    requires { i < length constraints.now }
    ensures { result.now ≡ drop (i + 1) constraints.now }
{
    &constraints[i + 1..]
}

/// Counts a number once more, if so.
fn count_if(goals: &mut [Counts], id: usize, so: bool)
    requires known { id < 64 * length goals.old }
    requires few { goal_at goals.old id < 31 }
    ensures length { length goals.new ≡ length goals.old }
    ensures more { goal_at goals.new id ≡ cond so 1 0 + goal_at goals.old id }
    ensures others { (k : ℕ) → (k ≡ id → ⊥) → goal_at goals.new k ≡ goal_at goals.old k }
{
    if so {
        count_one(goals, id);
    }
}

/// Counts the parts of the filter of a number.
fn count_parts(goals: &mut [Counts], constraints: &[Constraint], id: usize)
    requires known { id < 64 * length goals.old }
    requires none { goal_at goals.old id ≡ 0 }
    requires few { length constraints.now ≤ 16 }
    ensures length { length goals.new ≡ length goals.old }
    ensures parts { goal_at goals.new id ≡ parts_of constraints.now }
    ensures others { (k : ℕ) → (k ≡ id → ⊥) → goal_at goals.new k ≡ goal_at goals.old k }
{
    for i in 0..constraints.len() {
        let ends = ends_part(&constraints[i], behind(constraints, i));
        count_if(goals, id, ends);
    }
}

/// Sets the goal of a number, which no count reaches yet, to how many parts the filter has.
fn set_goal(goals: &mut [Counts], constraints: &[Constraint], id: usize)
    requires known { id < 64 * length goals.old }
    requires most { goal_at goals.old id ≡ 31 }
    requires few { length constraints.now ≤ 16 }
    ensures length { length goals.new ≡ length goals.old }
    ensures parts { goal_at goals.new id ≡ parts_of constraints.now }
    ensures others { (k : ℕ) → (k ≡ id → ⊥) → goal_at goals.new k ≡ goal_at goals.old k }
{
    // 32 is nought.
    count_one(goals, id);
    count_parts(goals, constraints, id);
}

/// Makes room for the goal of the next filter, which no count reaches yet.
fn make_room(goals: &mut Vec<Counts>, id: usize) -> Result<(), NoMemory>
    requires long { length goals.old.items ≡ (id + 63) / 64 }
    requires small { id < 4096 }
    ensures length { OnOk result (length goals.new.items ≡ (id + 64) / 64) }
    ensures old { OnOk result ((k : ℕ) → k < 64 * length goals.old.items → goal_at goals.new.items k ≡ goal_at goals.old.items k) }
    ensures new { OnOk result ((k : ℕ) → 64 * length goals.old.items ≤ k → k < 64 * length goals.new.items → goal_at goals.new.items k ≡ 31) }
{
    if id % 64 == 0 {
        goals.push(Counts::most())?;
    }
    Ok(())
}

/// Puts in the goal of the next filter: how many parts it has.
pub(crate) fn put_goal(
    goals: &mut Vec<Counts>,
    constraints: &[Constraint],
    id: usize,
) -> Result<(), NoMemory>
    requires few { length constraints.now ≤ 16 }
    requires small { id < 4096 }
    requires unreached { IsOpen id goals.old.items }
    ensures { OnOk result ((filters : List (List ConstraintParts)) → length filters ≡ id → AreGoals goals.old.items filters
        → AreGoals goals.new.items (filters ++ constraints.now ∷ [])) }
{
    make_room(goals, id)?;
    set_goal(goals, constraints, id);
    Ok(())
}
