//! The type of the index of str constraints, and its search.
ghost use Rattle.std.specs.Prelude.{◌≡◌};
ghost use Rattle.std.specs.Option.{option_copied};
ghost use Rattle.match_index.specs.Keys.{key_of};

use crate::patterns::Patterns;
use base::NoMemory;
use filter_constraints::Constraint;
use filter_values::Value;
use std::alloc::Global;
use std::marker::Model;

/// An index of patterns of strs: pairs of a constraint without its name and an id.
#[derive(Drop)]
pub struct Texts {
    alloc: Global,
    patterns: Patterns,
}

impl Model for Texts {
    ghost use Rattle.std.specs.Prelude.{List};
    ghost use Rattle.match_index.specs.Pairs.{Pair};

    ghost Value = { List Pair };

    ghost view = { λ texts. texts.patterns };
}

/// The bytes of an operand.
pub fn key_of<'a>(operand: Option<&'a Value>) -> &'a [u8]
    ensures { result.now ≡ key_of (option_copied operand.entry) }
{
    match operand {
        Some(Value::Str(text)) => text.bytes(),
        _ => &[],
    }
}

impl Texts {
    ghost use Rattle.std.specs.Prelude.{◌≡◌, ◌∷◌, [], true, OnOk};
    ghost use Rattle.match_index.specs.Heads.{is_pattern_op};
    ghost use Rattle.filter_values.specs.declared.value.Kind.{Kind};
    ghost use Rattle.filter_values.specs.declared.value.Value.{Value};
    ghost use Rattle.match_index.specs.Pairs.{Same, Appends, test_of, ids_met};

    /// An index of nothing. It takes no memory.
    pub fn new(alloc: Global) -> Texts
        ensures { result ≡ [] }
    {
        Texts {
            alloc,
            patterns: Patterns::new(alloc),
        }
    }

    /// Adds a pair.
    pub fn add(&mut self, constraint: &Constraint, id: u32) -> Result<(), NoMemory>
        requires kind { constraint.now.kind ≡ Kind.Str }
        requires pattern { is_pattern_op constraint.now.op ≡ true }
        ensures { OnOk result (Same self.new ((test_of constraint.now, id) ∷ self.old)) }
    {
        let key = key_of(constraint.operand());
        self.patterns.put(self.alloc, constraint.op(), key, id)
    }

    /// Appends the ids of the pairs whose constraint the value satisfies.
    pub fn hits(&self, value: &Value, found: &mut Vec<u32>) -> Result<(), NoMemory>
        ensures { OnOk result (Appends found.old.items found.new.items (ids_met value.now self.now)) }
    {
        self.patterns.lemma_only_texts();
        match value {
            Value::Str(text) => self.patterns.meet(text.bytes(), found),
            _ => Ok(()),
        }
    }
}
