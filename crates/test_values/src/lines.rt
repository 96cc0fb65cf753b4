//! Shows the commands that lines spell, and their faults.
use crate::long::{marks, members, repeats};
use document_script::{
    Line, ScriptFault, Token, Tokens, are_digits, one_command, script_command, verb_named,
};
use filter_text::{Command, write_advert, write_filter, write_notice};
use std::alloc::Global;
use test_support::{RowFault, first_word, number, put, spelled, truth, two_parts};

/// The wire text of what a command carries, behind its word.
fn carried(alloc: Global, command: &Command) -> Result<Vec<u8>, RowFault> {
    let (word, text) = match command {
        Command::Subscribe(filter) => (b"subscribe ".as_slice(), write_filter(alloc, filter)?),
        Command::Unsubscribe(filter) => (b"unsubscribe ".as_slice(), write_filter(alloc, filter)?),
        Command::Advertise(advert) => (b"advertise ".as_slice(), write_advert(alloc, advert)?),
        Command::Unadvertise(advert) => (b"unadvertise ".as_slice(), write_advert(alloc, advert)?),
        Command::Publish(notice) => (b"publish ".as_slice(), write_notice(alloc, notice)?),
    };
    let mut answer = Vec::from_slice(alloc, word)?;
    answer.extend_from_slice(&text)?;
    Ok(answer)
}

/// What a line spells, or its fault.
fn told(alloc: Global, found: Result<Command, ScriptFault>) -> Result<Vec<u8>, RowFault> {
    match found {
        Ok(command) => carried(alloc, &command),
        Err(ScriptFault::NoMemory) => Err(RowFault::NoMemory),
        Err(fault) => Ok(Vec::from_slice(alloc, format!(in alloc; "{fault:?}")?.as_bytes())?),
    }
}

/// What a line spells in documents of version 1.
pub fn first_version(alloc: Global, rest: &str) -> Result<Vec<u8>, RowFault> {
    told(alloc, script_command(alloc, &spelled(alloc, rest)?, 1))
}

/// What a line spells in documents of version 2.
pub fn second_version(alloc: Global, rest: &str) -> Result<Vec<u8>, RowFault> {
    let bytes = spelled(alloc, rest)?;
    let line = Line::cut(alloc, &bytes)?;
    told(alloc, line.command(alloc, 2))
}

/// What a line spells in documents of either version.
pub fn both(alloc: Global, rest: &str) -> Result<Vec<u8>, RowFault> {
    let first = first_version(alloc, rest)?;
    let second = second_version(alloc, rest)?;
    if first.as_slice() == second.as_slice() {
        return Ok(first);
    }
    Ok(Vec::from_slice(alloc, b"differently")?)
}

/// The first word of a line.
pub fn cut(alloc: Global, rest: &str) -> Result<Vec<u8>, RowFault> {
    let bytes = spelled(alloc, rest)?;
    let line = Line::cut(alloc, &bytes)?;
    let mut answer = Vec::new(alloc);
    put_token(&mut answer, line.first())?;
    put(&mut answer, line.first_word().unwrap_or(b"no word"))?;
    Ok(answer)
}

/// Puts a token's sort behind the other parts of an answer.
fn put_token(answer: &mut Vec<u8>, token: Option<&Token<'_>>) -> Result<(), RowFault> {
    match token {
        None => put(answer, b"end"),
        Some(Token::Word(word)) => put(answer, *word),
        Some(Token::Sign(_)) => put(answer, b"sign"),
        Some(Token::Semicolon) => put(answer, b"semicolon"),
        Some(_) => put(answer, b"other"),
    }
}

/// The first four tokens of a line.
pub fn tokens(alloc: Global, rest: &str) -> Result<Vec<u8>, RowFault> {
    let mut answer = Vec::new(alloc);
    let mut tokens = Tokens::new(rest.as_bytes());
    for _ in 0..4 {
        let token = tokens.next(alloc)?;
        put_token(&mut answer, token.as_ref())?;
    }
    Ok(answer)
}

/// Whether a word is a verb; no line has two commands.
pub fn verb(alloc: Global, rest: &str) -> Result<Vec<u8>, RowFault> {
    one_command();
    match verb_named(rest.as_bytes()) {
        Some(verb) => Ok(Vec::from_slice(alloc, format!(in alloc; "{verb:?}")?.as_bytes())?),
        None => Ok(Vec::from_slice(alloc, b"none")?),
    }
}

/// Whether a word is of digits.
pub fn digits(alloc: Global, rest: &str) -> Result<Vec<u8>, RowFault> {
    truth(alloc, are_digits(rest.as_bytes()))
}

/// The fault of a line, if it has one.
fn fault(alloc: Global, line: &[u8]) -> Result<Vec<u8>, RowFault> {
    match script_command(alloc, line, 1) {
        Ok(_) => Ok(Vec::from_slice(alloc, b"none")?),
        Err(fault) => told(alloc, Err(fault)),
    }
}

/// The fault of a line with a string of so many quotation marks.
pub fn long_line(alloc: Global, rest: &str) -> Result<Vec<u8>, RowFault> {
    fault(alloc, &marks(alloc, b"publish s str \"", number(rest)?)?)
}

/// The fault of a line with so many parts, of names of their own or of one name.
pub fn parts(alloc: Global, rest: &str) -> Result<Vec<u8>, RowFault> {
    let (count, rest) = first_word(rest);
    let (names, rest) = first_word(rest);
    let (begin, end) = two_parts(rest)?;
    let count = number(count)?;
    let mut word = Vec::from_slice(alloc, begin.as_bytes())?;
    word.push(b' ')?;
    match names {
        "distinct" => fault(alloc, &members(alloc, &word, count, &spelled(alloc, end)?)?),
        "equal" => fault(alloc, &repeats(alloc, &word, count, &spelled(alloc, end)?)?),
        _ => Err(RowFault::Form),
    }
}
