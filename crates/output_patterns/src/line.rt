//! Reads the lines behind the line `patterns`.
ghost use Rattle.std.specs.Prelude.{◌≡◌, ◌≤◌, length};
ghost use Rattle.std.specs.Option.{option_copied};
ghost use Rattle.document_script.specs.Command.{IsVersion};
ghost use Rattle.document_script.specs.Tokens.{first_word, tokens};
ghost use Rattle.document_reader.specs.Lines.{words};
ghost use Rattle.document_reader.specs.Places.{is_comment};
ghost use Rattle.document_reader.specs.Answer.{GivesAsByRule, StepsByRule};
ghost use Rattle.output_patterns.specs.Rules.{at_token, end_rule, is_token, line_rule, pattern_rule, step_rule};

use crate::fault::{PatternKind, Ruled};
use crate::pattern::Pattern;
use crate::step::step_filter;
use crate::watching::Watching;
use crate::words::{client_named, two_names};
use document_reader::{LineFault, need, next_word, want};
use document_script::Line;
use filter_text::known_name;
use net_model::Client;
use std::alloc::Global;

/// `pattern CLIENT LABEL`.
#[tactic(auto, unfolding(crate::specs::Rules::pattern_rule))]
fn pattern(
    alloc: Global,
    clients: &[Client],
    state: &mut Watching,
    word: &[u8],
    rest: &[u8],
) -> Ruled<()>
    requires { length clients.now ≤ 1024 }
    ensures { StepsByRule result state.new (pattern_rule clients.now state.old word.now (words rest.now)) }
{
    need(word == b"pattern".as_slice(), PatternKind::Words)?;
    let (name, label) = want(two_names(rest), PatternKind::Words)?;
    let client = want(client_named(clients, name), PatternKind::Name)?;
    need(!state.has_label(client, label), PatternKind::Name)?;
    need(state.count() < 1024, PatternKind::Count)?;
    state.begin(Pattern {
        client,
        label: known_name(alloc, label)?,
        steps: Vec::new(alloc),
    })?;
    Ok(())
}

/// `step`, with what follows it.
#[tactic(auto, unfolding(crate::specs::Rules::step_rule))]
fn step(alloc: Global, version: u32, state: &mut Watching, line: &[u8]) -> Ruled<()>
    requires { IsVersion version }
    ensures { StepsByRule result state.new (step_rule version state.old line.now) }
{
    need(state.is_some(), PatternKind::Order)?;
    let filter = step_filter(alloc, version, line)?;
    need(state.has_room(), PatternKind::Count)?;
    state.add_step(filter)?;
    Ok(())
}

// Whether the first token of a line is this word.
fn is_token(token: Option<&[u8]>, word: &[u8]) -> bool
    ensures { result ≡ is_token word.now (option_copied token.entry) }
{
    match token {
        Some(token) => token == word,
        None => false,
    }
}

// A line by its first token.
#[tactic(auto, unfolding(crate::specs::Rules::at_token))]
fn at_token(
    alloc: Global,
    version: u32,
    clients: &[Client],
    state: &mut Watching,
    line: &[u8],
    word: &[u8],
    rest: &[u8],
) -> Ruled<()>
    requires version { IsVersion version }
    requires few { length clients.now ≤ 1024 }
    ensures { StepsByRule result state.new (at_token version clients.now state.old line.now word.now (words rest.now) (first_word (tokens line.now))) }
{
    let cut = Line::cut(alloc, line)?;
    let token = cut.first_word();
    if is_token(token, b"step".as_slice()) {
        return step(alloc, version, state, line);
    }
    need(!state.is_short(), PatternKind::Short)?;
    if is_token(token, b"pattern".as_slice()) {
        return pattern(alloc, clients, state, word, rest);
    }
    Err(LineFault::Kind(PatternKind::Order))
}

fn is_comment(word: &[u8]) -> bool
    ensures { result ≡ is_comment word.now }
{
    match word {
        [] => false,
        [first, ..] => *first == b'#',
    }
}

/// Takes a line, or answers its first fault.
#[tactic(auto, unfolding(crate::specs::Rules::line_rule))]
pub fn line(
    alloc: Global,
    version: u32,
    clients: &[Client],
    state: &mut Watching,
    line: &[u8],
) -> Ruled<()>
    requires version { IsVersion version }
    requires few { length clients.now ≤ 1024 }
    ensures { StepsByRule result state.new (line_rule version clients.now state.old line.now) }
{
    let Some((word, rest)) = next_word(line) else {
        return Ok(());
    };
    if is_comment(word) {
        return Ok(());
    }
    at_token(alloc, version, clients, state, line, word, rest)
}

/// Takes the end, and gives all patterns, or answers its fault.
#[tactic(auto, unfolding(crate::specs::Rules::end_rule))]
pub fn end(state: Watching) -> Ruled<Vec<Pattern>>
    ensures { GivesAsByRule (λ patterns. patterns.items) result (end_rule state) }
{
    need(!state.is_short(), PatternKind::Short)?;
    Ok(state.into_patterns()?)
}
