//! Keeps the patterns of an index apart by operator.
use crate::marked::Marked;
use base::NoMemory;
use filter_constraints::Op;
use std::alloc::Global;
use std::marker::Model;

/// Patterns of texts: pairs of a constraint without its name and an id.
#[derive(Drop)]
pub(crate) struct Patterns {
    prefixes: Marked,
    suffixes: Marked,
    parts: Marked,
}

impl Model for Patterns {
    ghost use Rattle.std.specs.Prelude.{List, ◌++◌};
    ghost use Rattle.filter_constraints.specs.declared.op.Op.{Op};
    ghost use Rattle.match_index.specs.Pairs.{Pair};
    ghost use Rattle.match_index.specs.Lines.{told};
    ghost use Rattle.match_index.specs.Keys.{test_at};

    ghost Value = { List Pair };

    ghost view = { λ all. told (test_at Op.Prefix) all.prefixes ++ (told (test_at Op.Suffix) all.suffixes ++ told (test_at Op.Contains) all.parts) };
}

impl Patterns {
    ghost use Rattle.std.specs.Prelude.{◌≡◌, ◌∷◌, [], true, OnOk};
    ghost use Rattle.filter_values.specs.declared.value.Value.{Value};
    ghost use Rattle.match_index.specs.Pairs.{Same, Appends, ids_met};
    ghost use Rattle.match_index.specs.Heads.{is_pattern_op};
    ghost use Rattle.match_index.specs.Keys.{test_at};

    /// No patterns. It takes no memory.
    pub(crate) fn new(alloc: Global) -> Patterns
        ensures { result ≡ [] }
    {
        Patterns {
            prefixes: Marked::new(alloc),
            suffixes: Marked::new(alloc),
            parts: Marked::new(alloc),
        }
    }

    /// Adds a pattern with an id.
    pub(crate) fn put(&mut self, alloc: Global, op: Op, key: &[u8], id: u32) -> Result<(), NoMemory>
        requires { is_pattern_op op ≡ true }
        ensures { OnOk result (Same self.new ((test_at op key.now, id) ∷ self.old)) }
    {
        match op {
            Op::Prefix => self.prefixes.put(alloc, key, id),
            Op::Suffix => self.suffixes.put(alloc, key, id),
            _ => self.parts.put(alloc, key, id),
        }
    }

    /// Appends the ids of the patterns that a text has.
    pub(crate) fn meet(&self, text: &[u8], found: &mut Vec<u32>) -> Result<(), NoMemory>
        ensures { OnOk result (Appends found.old.items found.new.items (ids_met (Value.Str text.now) self.now)) }
    {
        self.prefixes.meet_prefixes(text, found)?;
        self.suffixes.meet_suffixes(text, found)?;
        self.parts.meet_parts(text, found)
    }

    /// Does nothing; by its contract no value but a text has a pattern.
    pub(crate) fn lemma_only_texts(&self)
        ensures { (v : Value) → ((x : List ℕ) → v ≡ Value.Str x → ⊥) → ids_met v self.now ≡ [] }
    {
        let _prefixes = &self.prefixes;
    }

    ghost use Rattle.std.specs.Prelude.{List, ℕ};
}
