//! Answers the questions of wire texts and of lines.
use crate::{lines, wire};
use std::alloc::Global;
use test_support::RowFault;

/// The answer to a question of a wire text.
fn wire(alloc: Global, verb: &str, rest: &str) -> Result<Vec<u8>, RowFault> {
    match verb {
        "wire_notice" => wire::notice(alloc, rest),
        "wire_filter" => wire::filter(alloc, rest),
        "wire_advert" => wire::advert(alloc, rest),
        "wire_message" => wire::message(alloc, rest),
        "written" => wire::written(alloc, rest),
        "long_notice" => wire::long_notice(alloc, rest),
        "many" => wire::many(alloc, rest),
        "carried" => wire::copied(alloc, rest),
        _ => Err(RowFault::Form),
    }
}

/// The answer to a question of a text.
pub fn answer(alloc: Global, verb: &str, rest: &str) -> Result<Vec<u8>, RowFault> {
    match verb {
        "1" => lines::first_version(alloc, rest),
        "2" => lines::second_version(alloc, rest),
        "both" => lines::both(alloc, rest),
        "cut" => lines::cut(alloc, rest),
        "verb" => lines::verb(alloc, rest),
        "digits" => lines::digits(alloc, rest),
        "tokens" => lines::tokens(alloc, rest),
        "long_line" => lines::long_line(alloc, rest),
        "parts" => lines::parts(alloc, rest),
        _ => wire(alloc, verb, rest),
    }
}
