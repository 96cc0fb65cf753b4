//! Reads the filter of a step.
ghost use Rattle.std.specs.Prelude.{◌≡◌, ◌++◌, IfOk, Ok, drop};
ghost use Rattle.document_script.specs.Command.{IsVersion};
ghost use Rattle.document_script.specs.Tokens.{skip};
ghost use Rattle.document_reader.specs.Answer.{GivesByRule};
ghost use Rattle.output_patterns.specs.Reading.{Tells};
ghost use Rattle.output_patterns.specs.Steps.{as_subscribe, filter_of, step_filter};

use crate::fault::{PatternKind, Ruled};
use base::NoMemory;
use document_reader::LineFault;
use document_script::{ScriptFault, script_command};
use filter_text::Command;
use filter_types::Filter;
use std::alloc::Global;

// Without the spaces and tabs in front.
fn behind_blanks(line: &[u8]) -> &[u8]
    ensures { result.now ≡ skip line.now }
{
    for (i, b) in line.iter().enumerate() {
        if *b != b' ' && *b != b'\t' {
            return &line[i..];
        }
    }
    &line[line.len()..]
}

// What follows the word `step`, which has 4 bytes.
fn behind_word(text: &[u8]) -> &[u8]
    ensures { result.now ≡ drop 4 text.now }
{
    let (_, rest) = text.split_at(text.len().min(4));
    rest
}

// The line with `subscribe` in place of `step`.
fn as_subscribe(alloc: Global, line: &[u8]) -> Result<Vec<u8>, NoMemory>
    ensures { IfOk result (λ text. text.items ≡ as_subscribe line.now) }
{
    let mut text = Vec::new(alloc);
    text.extend_from_slice(b"subscribe")?;
    text.extend_from_slice(behind_word(behind_blanks(line)))?;
    Ok(text)
}

// A fault of a subscription, as one of a step.
fn step_fault(fault: ScriptFault) -> LineFault<PatternKind>
    ensures { Tells result fault }
{
    match fault {
        ScriptFault::Value => LineFault::Kind(PatternKind::Value),
        ScriptFault::Operand => LineFault::Kind(PatternKind::Operand),
        ScriptFault::Count => LineFault::Kind(PatternKind::Count),
        ScriptFault::Syntax | ScriptFault::Repeat => LineFault::Kind(PatternKind::Syntax),
        ScriptFault::NoMemory => LineFault::NoMemory,
    }
}

// The filter of a subscription.
fn filter_of(command: Command) -> Ruled<Filter>
    ensures { GivesByRule result (filter_of (Ok command)) }
{
    match command {
        Command::Subscribe(filter) => Ok(filter),
        Command::Unsubscribe(_)
        | Command::Advertise(_)
        | Command::Unadvertise(_)
        | Command::Publish(_) => Err(LineFault::Kind(PatternKind::Syntax)),
    }
}

/// The filter of a line `step` in documents of the version, read as that of a subscription.
pub fn step_filter(alloc: Global, version: u32, line: &[u8]) -> Ruled<Filter>
    requires { IsVersion version }
    ensures { GivesByRule result (step_filter version line.now) }
{
    let text = as_subscribe(alloc, line)?;
    match script_command(alloc, &text, version) {
        Ok(command) => filter_of(command),
        Err(fault) => Err(step_fault(fault)),
    }
}
