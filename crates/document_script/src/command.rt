//! Reads the command of a line out of its tokens.
ghost use Rattle.std.specs.Prelude.{◌≡◌, ◌≢◌, List, Some, IfOk, IsErrOf};
ghost use Rattle.document_script.specs.declared.verb.Verb.{Verb};
ghost use Rattle.document_script.specs.Form.{control_in, form_in, publish_in};
ghost use Rattle.document_script.specs.Form.CommandForm.{control};
ghost use Rattle.document_script.specs.Command.{AnswersLine, IsCommandOf, IsVersion, Spells, fault_in, is_beyond, is_empty, script_fault, whole_of};
ghost use Rattle.document_script.specs.Reading.{IsGathered, Judges, KeepsDistinct};
ghost use Rattle.document_script.specs.declared.form.Part.{Part};

use crate::fault::ScriptFault;
use crate::form::{Given, Part};
use crate::limits::{list_of, notice_of};
use crate::line::Line;
use crate::part::Parts;
use crate::tokens::Tokens;
use crate::verb::Verb;
use filter_constraints::Constraint;
use filter_text::Command;
use filter_values::Name;
use std::alloc::Global;

// The command of a control command's parts.
fn control(verb: Verb, parts: Parts<Constraint>) -> Result<Command, ScriptFault>
    requires { verb ≢ Verb.Publish }
    ensures { (given : List Part)
        → IsGathered KeepsDistinct whole_of is_beyond is_empty (parts.is_full, parts.kept.items) parts.has_beyond parts.has_empty given
        → Judges (Spells (control verb given)) result (fault_in (control verb given)) }
{
    match verb {
        Verb::Subscribe => Ok(Command::Subscribe(list_of(parts)?)),
        Verb::Unsubscribe => Ok(Command::Unsubscribe(list_of(parts)?)),
        Verb::Advertise => Ok(Command::Advertise(list_of(parts)?)),
        Verb::Unadvertise => Ok(Command::Unadvertise(list_of(parts)?)),
        Verb::Publish => Err(ScriptFault::Syntax),
    }
}

// The control command of what follows its first word.
fn control_command(
    alloc: Global,
    version: u32,
    verb: Verb,
    mut left: Tokens<'_>,
    most: usize,
) -> Result<Command, ScriptFault>
    requires { verb ≢ Verb.Publish }
    ensures { AnswersLine result (control_in version most verb left.entry) }
{
    let parts = left.parts::<Part>(alloc, version, most)?;
    control(verb, parts)
}

// The publish command of what follows its first word.
fn publish_command(
    alloc: Global,
    version: u32,
    mut left: Tokens<'_>,
    most: usize,
) -> Result<Command, ScriptFault>
    ensures { AnswersLine result (publish_in version most left.entry) }
{
    let parts = left.parts::<(Name, Given)>(alloc, version, most)?;
    let notice = notice_of(parts)?;
    Ok(Command::Publish(notice))
}

/// The command of what follows its first word.
pub(crate) fn command_behind(
    alloc: Global,
    version: u32,
    verb: Verb,
    left: Tokens<'_>,
    most: usize,
) -> Result<Command, ScriptFault>
    ensures { AnswersLine result (form_in version most verb left.entry) }
{
    match verb {
        Verb::Publish => publish_command(alloc, version, left, most),
        Verb::Subscribe => control_command(alloc, version, verb, left, most),
        Verb::Unsubscribe => control_command(alloc, version, verb, left, most),
        Verb::Advertise => control_command(alloc, version, verb, left, most),
        Verb::Unadvertise => control_command(alloc, version, verb, left, most),
    }
}

/// The command that a line of a script spells, without its line end, in documents of the version, which is 1 or 2.
/// Spaces and tabs between tokens may be missing where the cut is clear, parts stand in any order, and equal constraints
/// count once. A fault is the first, over the whole line, in the order of `ScriptFault`.
pub fn script_command(alloc: Global, line: &[u8], version: u32) -> Result<Command, ScriptFault>
    requires { IsVersion version }
    ensures command { IfOk result (λ c. IsCommandOf version line.now c) }
    ensures syntax { IsErrOf result ScriptFault.Syntax → script_fault version line.now ≡ Some ScriptFault.Syntax }
    ensures value { IsErrOf result ScriptFault.Value → script_fault version line.now ≡ Some ScriptFault.Value }
    ensures operand { IsErrOf result ScriptFault.Operand → script_fault version line.now ≡ Some ScriptFault.Operand }
    ensures count { IsErrOf result ScriptFault.Count → script_fault version line.now ≡ Some ScriptFault.Count }
    ensures repeat { IsErrOf result ScriptFault.Repeat → script_fault version line.now ≡ Some ScriptFault.Repeat }
{
    Line::cut(alloc, line)?.command(alloc, version)
}
