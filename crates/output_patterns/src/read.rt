//! Reads an input with patterns, or refuses it with its first fault.
ghost use Rattle.std.specs.Prelude.{◌≡◌, ◌≤◌, ◌+◌, ◌⊎◌, ℕ, List, IfOk, IsErrOf, IsOk, codes, length};
ghost use Rattle.document_script.specs.Command.{IsVersion};
ghost use Rattle.net_model.specs.Parts.{NetParts};
ghost use Rattle.document_reader.specs.declared.fault.Fault.{Fault as DocumentFault};
ghost use Rattle.document_reader.specs.Lines.{lines};
ghost use Rattle.output_patterns.specs.declared.fault.PatternKind.{PatternKind as Kind};
ghost use Rattle.output_patterns.specs.declared.fault.PatternFault.TheVariants.{Bad, Document, NoMemory};
ghost use Rattle.document_reader.specs.Cut.{IsCutAt, IsNoLine, first_number};
ghost use Rattle.output_patterns.specs.Parts.{PatternParts};
ghost use Rattle.output_patterns.specs.Reading.{AnswersWatch, ReadsDocument, ReadsPatterns};
ghost use Rattle.output_patterns.specs.Rules.{nothing, read_from};
ghost use Rattle.output_patterns.specs.Watch.{IsBadDocument, IsBadPattern, IsWatchOf};

use crate::fault::PatternFault;
use crate::line::{end, line};
use crate::pattern::{Pattern, Watch};
use crate::watching::Watching;
use document_reader::{Cut, InputFault, cut_at, next_line, read_net};
use net_model::{Client, Net};
use std::alloc::Global;

// The patterns of the lines behind the line `patterns`, of which the first has this number.
fn patterns(
    alloc: Global,
    version: u32,
    clients: &[Client],
    first: u32,
    bytes: &[u8],
) -> Result<Vec<Pattern>, PatternFault>
    requires version { IsVersion version }
    requires few { length clients.now ≤ 1024 }
    requires short { first + length bytes.now ≤ 4194306 }
    ensures { ReadsPatterns (λ patterns. patterns.items) result (read_from version clients.now first nothing (lines bytes.now)) }
{
    let mut state = Watching::new(alloc);
    let mut number = first;
    let mut rest = bytes;
    'lines: while let Some((text, after)) = next_line(rest) {
        if let Err(fault) = line(alloc, version, clients, &mut state, text) {
            return Err(PatternFault::Bad {
                line: number,
                kind: fault.kind()?,
            });
        }
        number += 1;
        rest = after;
    }
    match end(state) {
        Ok(patterns) => Ok(patterns),
        Err(fault) => Err(PatternFault::Bad {
            line: number,
            kind: fault.kind()?,
        }),
    }
}

// The net of the document part.
fn document(alloc: Global, bytes: &[u8]) -> Result<Net, PatternFault>
    ensures read { ReadsDocument bytes.now result }
    ensures version { IfOk result (λ net. IsVersion net.version) }
    ensures few { IfOk result (λ net. length net.clients ≤ 1024) }
{
    match read_net(alloc, bytes) {
        Ok(net) => Ok(net),
        Err(InputFault::Bad { line, kind }) => Err(PatternFault::Document { line, kind }),
        Err(InputFault::NoMemory) => Err(PatternFault::NoMemory),
    }
}

// Where there is no line `patterns`.
fn without(alloc: Global, bytes: &[u8]) -> Result<Watch, PatternFault>
    requires short { length bytes.now ≤ 4194304 }
    requires none { IsNoLine (codes "patterns") (lines bytes.now) }
    ensures { AnswersWatch (λ w. w.net) (λ w. w.patterns.items) bytes.now result }
{
    match document(alloc, bytes) {
        Ok(net) => Ok(Watch {
            net,
            patterns: Vec::new(alloc),
        }),
        Err(fault) => Err(fault),
    }
}

// Where the input is cut at its first line `patterns`.
fn with(alloc: Global, cut: Cut<'_>) -> Result<Watch, PatternFault>
    requires number { cut.number ≡ first_number cut.before.now }
    requires bound { cut.number + length cut.after.now ≤ 4194306 }
    ensures { (bytes : List ℕ) → IsCutAt (codes "patterns") bytes cut.entry.before.now cut.entry.after.now
        → AnswersWatch (λ w. w.net) (λ w. w.patterns.items) bytes result }
{
    let net = match document(alloc, cut.before) {
        Ok(net) => net,
        Err(fault) => return Err(fault),
    };
    match patterns(alloc, net.version, &net.clients, cut.number, cut.after) {
        Ok(patterns) => Ok(Watch { net, patterns }),
        Err(fault) => Err(fault),
    }
}

fn answered(alloc: Global, bytes: &[u8]) -> Result<Watch, PatternFault>
    requires { length bytes.now ≤ 4194304 }
    ensures { AnswersWatch (λ w. w.net) (λ w. w.patterns.items) bytes.now result }
{
    match cut_at(bytes, b"patterns".as_slice()) {
        Some(cut) => with(alloc, cut),
        None => without(alloc, bytes),
    }
}

/// The net and the patterns of an input of at most 4,194,304 bytes, or its first fault. The input is cut at its first line
/// that is exactly `patterns`: what stands before is the document, whose end is that line, and where there is no such line
/// there are no patterns. The document part is refused before any line behind it. A step is read as a subscription of the
/// document's version. It takes time in proportion to the input, but that a pattern is looked up among the clients and the
/// patterns before it.
pub fn read_patterns(alloc: Global, bytes: &[u8]) -> Result<Watch, PatternFault>
    requires { length bytes.now ≤ 4194304 }
    ensures watch { IfOk result (λ w. IsWatchOf bytes.now w.net w.patterns.items) }
    ensures given { (net : NetParts) (patterns : List PatternParts) → IsWatchOf bytes.now net patterns → IsOk result ⊎ IsErrOf result NoMemory }
    ensures document { (line : ℕ) (kind : DocumentFault) → IsErrOf result (Document line kind) → IsBadDocument bytes.now line kind }
    ensures bad { (line : ℕ) (kind : Kind) → IsErrOf result (Bad line kind) → IsBadPattern bytes.now line kind }
    ensures refused_document { (line : ℕ) (kind : DocumentFault) → IsBadDocument bytes.now line kind
        → IsErrOf result (Document line kind) ⊎ IsErrOf result NoMemory }
    ensures refused_pattern { (line : ℕ) (kind : Kind) → IsBadPattern bytes.now line kind
        → IsErrOf result (Bad line kind) ⊎ IsErrOf result NoMemory }
{
    answered(alloc, bytes)
}
