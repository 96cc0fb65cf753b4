//! Reads the turns that a trace shows, line by line.
ghost use Rattle.std.specs.Prelude.{◌≡◌, ◌≤◌, ◌+◌, Ok, Err, IfOk, IsOk, MatchResult, length};
ghost use Rattle.net_model.specs.Sound.{IsSound};
ghost use Rattle.audit_claim.specs.Output.{output_lines};
ghost use Rattle.audit_claim.specs.Trace.{shown_by, trace_behind, trace_line, with_line};
ghost use Rattle.audit_claim.specs.Reading.{ReadsAs, Steps};

use crate::fault::ClaimFault;
use crate::line::{TraceLine, begins_trace, is_trace_head, trace_line};
use crate::output::next_line;
use net_model::{Net, Turn};
use std::alloc::{AllocFailed, Global};

// The lines behind the first of the trace, with the number of the first of them, in an output whose first line has this number.
fn behind_head(first: u32, output: &[u8]) -> Result<(u32, &[u8]), ClaimFault>
    requires { first + length output.now ≤ 268435458 }
    ensures read { ReadsAs (λ p. (p.0, output_lines p.1.now)) result (trace_behind first (output_lines output.now)) }
    ensures bound { IfOk result (λ p. p.0 + length p.1.now ≤ 268435458) }
{
    let mut number = first;
    let mut rest = output;
    'lines: while let Some((line, after)) = next_line(rest) {
        if begins_trace(line) {
            return if is_trace_head(line) {
                Ok((number + 1, after))
            } else {
                Err(ClaimFault::Form(number))
            };
        }
        number += 1;
        rest = after;
    }
    Err(ClaimFault::Form(number))
}

// Takes line n of the trace.
fn take_line(
    turns: &mut Vec<(u32, Turn)>,
    n: u32,
    shown: Option<TraceLine>,
) -> Result<(), ClaimFault>
    ensures { Steps result turns.new.items (with_line n turns.old.items shown) }
{
    match shown {
        None => Err(ClaimFault::Form(n)),
        Some(TraceLine::Message) => Ok(()),
        Some(TraceLine::Entry(turn)) => match turns.push((n, turn)) {
            Ok(()) => Ok(()),
            Err(AllocFailed { value: _ }) => Err(ClaimFault::NoMemory),
        },
    }
}

/// The turns that an output shows, each with its line, and the number of its end; its first line has this number.
pub fn shown_turns(
    alloc: Global,
    net: &Net,
    first: u32,
    output: &[u8],
) -> Result<(Vec<(u32, Turn)>, u32), ClaimFault>
    requires sound { IsSound net.now }
    requires bound { first + length output.now ≤ 268435458 }
    ensures { ReadsAs (λ p. (p.0.items, p.1)) result (shown_by net.now first (output_lines output.now)) }
{
    let (mut number, mut rest) = behind_head(first, output)?;
    let mut turns = Vec::new(alloc);
    'lines: while let Some((line, after)) = next_line(rest) {
        take_line(&mut turns, number, trace_line(net, line))?;
        number += 1;
        rest = after;
    }
    Ok((turns, number))
}
