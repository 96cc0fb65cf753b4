//! The type of the cells of the operands of one name.
use crate::key::key_of;
use crate::operands::Operands;
use crate::told::Told;
use base::NoMemory;
use filter_values::Value;
use match_cells::{Ask, Cells, read_row};
use match_texts::{SoughtText, TextKey};
use std::marker::Model;
use std::snapshot::Snapshot;

/// Constraints on one name, in which the ids are found that a value satisfies: pairs of a constraint
/// without its name and an id, which contracts alone see.
#[derive(Drop)]
pub struct Part {
    cuts: Vec<i64>,
    cells: Cells,
    groups: Snapshot<Vec<Vec<Ask>>>,
    texts: Vec<TextKey>,
    text_cells: Cells,
    text_groups: Snapshot<Vec<Vec<Ask>>>,
    told: Snapshot<Told>,
}

impl Model for Part {
    ghost use Rattle.std.specs.Prelude.{List};
    ghost use Rattle.match_index.specs.Pairs.{Pair};
    ghost use Rattle.match_numbers.specs.Operands.{IsPart};
    ghost use Rattle.match_numbers.specs.Texts.{IsTextPart};

    ghost Value = { List Pair };

    ghost view = { λ p. p.told.value };

    ghost invariant = { λ p. IsPart p.cuts.items p.cells p.groups.value.items p.told.value
        × IsTextPart p.texts.items p.text_cells p.text_groups.value.items p.told.value };
}

impl Part {
    ghost use Rattle.std.specs.Prelude.{◌≡◌, ℕ, ◌*◌, ◌^◌, ◌<◌, length, IfOk, OnOk};
    ghost use Rattle.filter_values.specs.Value.{kind_of};
    ghost use Rattle.filter_values.specs.declared.value.Value.{Value};
    ghost use Rattle.match_numbers.specs.Operands.{AreBelow, AreOf, IsNumeric, IsRowOf};

    /// The part of these pairs, where each id has a bit in so many words.
    pub fn of(operands: Operands, span: usize) -> Result<Part, NoMemory>
        requires narrow { span < 2 ^ 32 }
        requires below { AreBelow (64 * span) operands }
        requires few { length operands < 2 ^ 30 }
        ensures { IfOk result (λ part. part ≡ operands) }
    {
        let Operands {
            alloc,
            cuts,
            groups,
            texts,
            text_groups,
            told,
        } = operands;
        let cells = Cells::of(alloc, span, &groups)?;
        let text_cells = Cells::of(alloc, span, &text_groups)?;
        Ok(Part {
            cuts,
            cells,
            groups: Snapshot::of(&groups),
            texts,
            text_cells,
            text_groups: Snapshot::of(&text_groups),
            told,
        })
    }

    /// Sets the row to the ids that have pairs all of whose tests the number passes.
    fn read_number(&self, value: &Value, row: &mut Vec<u64>) -> Result<(), NoMemory>
        requires { IsNumeric (kind_of value.now) }
        ensures { OnOk result (AreOf value.now self.now → (k : ℕ) → IsRowOf value.now k self.now row.new.items) }
    {
        row.resize(self.cells.span(), 0)?;
        read_row(&self.cuts, &self.cells, &key_of(Some(value)), row);
        Ok(())
    }

    /// Sets the row to the ids that have pairs all of whose tests the text passes.
    fn read_text(&self, text: &[u8], row: &mut Vec<u64>) -> Result<(), NoMemory>
        ensures { OnOk result (AreOf (Value.Str text.now) self.now → (k : ℕ) → IsRowOf (Value.Str text.now) k self.now row.new.items) }
    {
        row.resize(self.text_cells.span(), 0)?;
        let sought = SoughtText::of(text);
        read_row(&self.texts, &self.text_cells, sought, row);
        Ok(())
    }

    /// Sets the row to the ids that have pairs all of whose tests the value passes, in as many words as there are.
    fn read_all(&self, value: &Value, row: &mut Vec<u64>) -> Result<(), NoMemory>
        ensures { OnOk result (AreOf value.now self.now → (k : ℕ) → IsRowOf value.now k self.now row.new.items) }
    {
        match value {
            Value::Str(text) => self.read_text(text.bytes(), row),
            Value::Int(_) | Value::Bool(_) | Value::Time(_) => self.read_number(value, row),
        }
    }

    /// Sets the row to so many words with the ids that have pairs all of whose tests the value passes.
    pub fn read(&self, value: &Value, span: usize, row: &mut Vec<u64>) -> Result<(), NoMemory>
        ensures long { OnOk result (length row.new.items ≡ span) }
        ensures bits { OnOk result (AreOf value.now self.now → (k : ℕ) → k < 64 * span → IsRowOf value.now k self.now row.new.items) }
    {
        self.read_all(value, row)?;
        row.resize(span, 0)?;
        Ok(())
    }
}
