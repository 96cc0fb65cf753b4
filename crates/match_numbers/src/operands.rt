//! The type of the operands of one name while constraints are put.
ghost use Rattle.std.specs.Prelude.{◌≡◌, ◌∷◌, List, length, OnOk};
ghost use Rattle.std.specs.Ordering.{int_cmp, nat_cmp};
ghost use Rattle.std.specs.Cmp.Lexicographic.{slice_cmp};
ghost use Rattle.match_index.specs.Pairs.{Pair, test_of};
ghost use Rattle.match_cells.specs.Places.{AreRising};
ghost use Rattle.match_numbers.specs.Operands.{IsTold};
ghost use Rattle.match_numbers.specs.Texts.{AreTextsTold};

use crate::key::{key_of, sides_for};
use crate::told::Told;
use base::NoMemory;
use filter_constraints::Constraint;
use filter_values::Kind;
use match_cells::{Ask, put_ask};
use match_texts::{TextKey, key_of as bytes_of};
use std::alloc::Global;
use std::marker::Model;
use std::snapshot::Snapshot;

/// Constraints on one name, by operand: pairs of a constraint without its name and an id. Contracts see the pairs; what is
/// kept is on which sides of each operand a value may be, of a number and of a text.
#[derive(Drop)]
pub struct Operands {
    pub(crate) alloc: Global,
    pub(crate) cuts: Vec<i64>,
    pub(crate) groups: Vec<Vec<Ask>>,
    pub(crate) texts: Vec<TextKey>,
    pub(crate) text_groups: Vec<Vec<Ask>>,
    pub(crate) told: Snapshot<Told>,
}

impl Model for Operands {
    ghost use Rattle.std.specs.Prelude.{List};
    ghost use Rattle.match_index.specs.Pairs.{Pair};
    ghost use Rattle.match_numbers.specs.Operands.{IsTold};
    ghost use Rattle.match_numbers.specs.Texts.{AreTextsTold};

    ghost Value = { List Pair };

    ghost view = { λ o. o.told.value };

    ghost invariant = { λ o. IsTold o.cuts.items o.groups.items o.told.value × AreTextsTold o.texts.items o.text_groups.items o.told.value };
}

/// Puts what a constraint asks of a number among the operands.
fn put_number(
    alloc: Global,
    cuts: &mut Vec<i64>,
    groups: &mut Vec<Vec<Ask>>,
    constraint: &Constraint,
    id: u16,
) -> Result<(), NoMemory>
    requires paired { length cuts.old.items ≡ length groups.old.items }
    requires rising { AreRising int_cmp cuts.old.items }
    ensures { OnOk result ((pairs : List Pair) → IsTold cuts.old.items groups.old.items pairs
        → IsTold cuts.new.items groups.new.items ((test_of constraint.now, id) ∷ pairs)) }
{
    let key = key_of(constraint.operand());
    let ask = Ask::of(id, sides_for(constraint.op()));
    put_ask(alloc, cuts, groups, key, ask)?;
    Ok(())
}

/// Puts what a constraint asks of a text among the operands.
fn put_text(
    alloc: Global,
    texts: &mut Vec<TextKey>,
    groups: &mut Vec<Vec<Ask>>,
    constraint: &Constraint,
    id: u16,
) -> Result<(), NoMemory>
    requires paired { length texts.old.items ≡ length groups.old.items }
    requires rising { AreRising (slice_cmp nat_cmp) texts.old.items }
    ensures { OnOk result ((pairs : List Pair) → AreTextsTold texts.old.items groups.old.items pairs
        → AreTextsTold texts.new.items groups.new.items ((test_of constraint.now, id) ∷ pairs)) }
{
    let key = TextKey::with(alloc, bytes_of(constraint.operand()))?;
    let ask = Ask::of(id, sides_for(constraint.op()));
    put_ask(alloc, texts, groups, key, ask)?;
    Ok(())
}

/// Puts what a constraint asks among the operands of its kind.
fn put(
    alloc: Global,
    cuts: &mut Vec<i64>,
    groups: &mut Vec<Vec<Ask>>,
    texts: &mut Vec<TextKey>,
    text_groups: &mut Vec<Vec<Ask>>,
    constraint: &Constraint,
    id: u16,
) -> Result<(), NoMemory>
    requires paired { length cuts.old.items ≡ length groups.old.items }
    requires rising { AreRising int_cmp cuts.old.items }
    requires paired_texts { length texts.old.items ≡ length text_groups.old.items }
    requires rising_texts { AreRising (slice_cmp nat_cmp) texts.old.items }
    ensures numbers { OnOk result ((pairs : List Pair) → IsTold cuts.old.items groups.old.items pairs
        → IsTold cuts.new.items groups.new.items ((test_of constraint.now, id) ∷ pairs)) }
    ensures texts { OnOk result ((pairs : List Pair) → AreTextsTold texts.old.items text_groups.old.items pairs
        → AreTextsTold texts.new.items text_groups.new.items ((test_of constraint.now, id) ∷ pairs)) }
{
    match constraint.kind() {
        Kind::Str => put_text(alloc, texts, text_groups, constraint, id),
        Kind::Int | Kind::Bool | Kind::Time => put_number(alloc, cuts, groups, constraint, id),
    }
}

impl Operands {
    ghost use Rattle.std.specs.Prelude.{◌≡◌, ◌∷◌, [], OnOk};
    ghost use Rattle.match_index.specs.Pairs.{test_of};

    /// No pairs. It takes no memory.
    pub fn new(alloc: Global) -> Operands
        ensures { result ≡ [] }
    {
        Operands {
            alloc,
            cuts: Vec::new(alloc),
            groups: Vec::new(alloc),
            texts: Vec::new(alloc),
            text_groups: Vec::new(alloc),
            told: Snapshot::of(&Told::nothing()),
        }
    }

    /// Puts a pair. After running out of memory there are none.
    pub fn put(&mut self, constraint: &Constraint, id: u16) -> Result<(), NoMemory>
        ensures { OnOk result (self.new ≡ (test_of constraint.now, id) ∷ self.old) }
    {
        let answer = put(
            self.alloc,
            &mut self.cuts,
            &mut self.groups,
            &mut self.texts,
            &mut self.text_groups,
            constraint,
            id,
        );
        match answer {
            Ok(()) => self.told = Snapshot::of(&Told::and(&self.told, constraint, id)),
            Err(_) => {
                self.cuts.clear();
                self.groups.clear();
                self.texts.clear();
                self.text_groups.clear();
                self.told = Snapshot::of(&Told::nothing());
            }
        }
        answer
    }
}
