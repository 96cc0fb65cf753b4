//! The trait of the two sorts of parts that commands have: constraints and attributes.
ghost use Rattle.std.specs.Prelude.{◌≡◌, false};
ghost use Rattle.document_script.specs.Command.{fit_of, is_beyond, is_empty, is_wide, whole_of};
ghost use Rattle.document_script.specs.Form.{attribute_in, constraint_in};
ghost use Rattle.document_script.specs.Reading.{KeepsDistinct, KeepsFew};

use crate::distinct::make_room;
use crate::fault::ScriptFault;
use crate::form::{Given, Part};
use crate::tokens::Tokens;
use base::NoMemory;
use filter_constraints::Constraint;
use filter_values::{Name, Value};
use std::alloc::Global;

/// The parts of a command, as far as they are within the limits and needed, and whether others are there.
#[derive(Drop)]
pub(crate) struct Parts<T> {
    /// Those within the limits: attributes in order, but at most 65, and constraints, of which equal ones may be one.
    pub(crate) kept: Vec<T>,
    /// Whether there are more than 64 distinct constraints, so that no more are kept.
    pub(crate) is_full: bool,
    /// Whether a value is beyond the limits.
    pub(crate) has_beyond: bool,
    /// Whether a pattern is empty.
    pub(crate) has_empty: bool,
}

/// What stands between the semicolons of a command.
pub(crate) trait CommandPart: Drop {
    ghost use Rattle.std.specs.Prelude.{◌≡◌, ◌||◌, ◌++◌, ◌∷◌, [], ℕ, Bool, List, false, IfOk, OnOk};
    ghost use Rattle.std.specs.List.{filter_map};
    ghost use Rattle.std.specs.declared.option.Option.{Option};
    ghost use Rattle.document_script.specs.Tokens.{Token};
    ghost use Rattle.document_script.specs.Reading.{ReadsTokens};

    /// What it is within the limits.
    type Inside: Drop;

    ghost front: { ℕ → List Token → Option (Self × List Token) };

    ghost inside: { Self → Option Self.Inside };

    ghost is_beyond: { Self → Bool };

    ghost is_empty: { Self → Bool };

    ghost keeps: { Bool × List Self.Inside → List Self.Inside → Type 0 };

    /// No part, and room for so many.
    fn begin(alloc: Global, room: usize) -> Result<Parts<Self::Inside>, NoMemory>
        ensures kept { IfOk result (λ p. keeps (p.is_full, p.kept.items) []) }
        ensures beyond { IfOk result (λ p. p.has_beyond ≡ false) }
        ensures empty { IfOk result (λ p. p.has_empty ≡ false) };

    /// A part in front of what is left of the line, in documents of the version.
    fn read(left: &mut Tokens<'_>, alloc: Global, version: u32) -> Result<Self, ScriptFault>
        ensures { ReadsTokens (λ p. p) result (front version left.old) left.new };

    /// Puts it behind the others.
    fn put(self, parts: &mut Parts<Self::Inside>) -> Result<(), NoMemory>
        ensures kept { (before : List Self.Inside) → keeps (parts.old.is_full, parts.old.kept.items) before
            → OnOk result (keeps (parts.new.is_full, parts.new.kept.items) (before ++ filter_map inside (self ∷ []))) }
        ensures beyond { OnOk result (parts.new.has_beyond ≡ (parts.old.has_beyond || is_beyond self)) }
        ensures empty { OnOk result (parts.new.has_empty ≡ (parts.old.has_empty || is_empty self)) };
}

impl CommandPart for Part {
    type Inside = Constraint;

    ghost front = { constraint_in };

    ghost inside = { whole_of };

    ghost is_beyond = { is_beyond };

    ghost is_empty = { is_empty };

    ghost keeps = { KeepsDistinct };

    fn begin(alloc: Global, room: usize) -> Result<Parts<Constraint>, NoMemory> {
        Ok(Parts {
            kept: Vec::with_capacity(alloc, room)?,
            is_full: false,
            has_beyond: false,
            has_empty: false,
        })
    }

    fn read(left: &mut Tokens<'_>, alloc: Global, version: u32) -> Result<Part, ScriptFault> {
        left.constraint(alloc, version)
    }

    fn put(self, parts: &mut Parts<Constraint>) -> Result<(), NoMemory> {
        match self {
            Part::Whole(constraint) => {
                if parts.is_full {
                    return Ok(());
                }
                if make_room(&mut parts.kept)? {
                    parts.is_full = true;
                } else {
                    parts.kept.push(constraint)?;
                }
            }
            Part::Beyond => parts.has_beyond = true,
            Part::Empty => parts.has_empty = true,
        }
        Ok(())
    }
}

impl CommandPart for (Name, Given) {
    type Inside = (Name, Value);

    ghost front = { attribute_in };

    ghost inside = { fit_of };

    ghost is_beyond = { is_wide };

    ghost is_empty = { λ _. false };

    ghost keeps = { KeepsFew };

    fn begin(alloc: Global, room: usize) -> Result<Parts<(Name, Value)>, NoMemory> {
        Ok(Parts {
            kept: Vec::with_capacity(alloc, room)?,
            is_full: false,
            has_beyond: false,
            has_empty: false,
        })
    }

    fn read(
        left: &mut Tokens<'_>,
        alloc: Global,
        version: u32,
    ) -> Result<(Name, Given), ScriptFault> {
        left.attribute(alloc, version)
    }

    fn put(self, parts: &mut Parts<(Name, Value)>) -> Result<(), NoMemory> {
        let (name, given) = self;
        match given {
            Given::Fit(value) => {
                if parts.kept.len() <= 64 {
                    parts.kept.push((name, value))?;
                }
            }
            Given::Wide => parts.has_beyond = true,
        }
        Ok(())
    }
}
