//! Prints where patterns occur in what is published.
ghost use Rattle.std.specs.Prelude.{◌≡◌, [], length};

use crate::watch_prefixes::EXAMPLE;
use base::NoMemory;
use filter_types::{Filter, Notice};
use net_model::{Command, Net};
use output_patterns::{Detector, Watch, read_patterns};
use std::alloc::Global;
use test_support::Failure;

/// A document with a client, up to what it publishes.
const DOCUMENT: &str = "siena 1\nsemantics subscription\nservers 1\nclient a 1\nscript a\n";

/// Numbers that are published one after another, and the conditions of a pattern's steps on them.
const ROWS: [(&[u32], &[&str]); 9] = [
    (&[1, 2, 1, 3, 2], &["= 1", "= 2"]),
    (&[2, 1, 3, 4, 5, 6], &["> 0", "> 1"]),
    (&[1, 1, 1, 1, 1], &["= 1", "= 1"]),
    (&[1, 1, 2, 2], &["= 1", "= 2"]),
    (&[2, 2, 2], &["= 1", "= 2"]),
    (&[1, 3, 3, 3], &["= 1", "= 2"]),
    (&[3, 1, 2, 3, 2, 1, 3, 2, 1], &["= 3", "= 2", "= 1"]),
    (
        &[1, 2, 3, 4, 5, 6, 7, 8, 9, 1, 2, 3, 4, 5, 6, 7, 8],
        &["> 0", "> 1", "> 2", "> 3", "> 4", "> 5", "> 6", "> 7"],
    ),
    (&[5, 1, 6, 2, 7, 3, 8], &["> 4", "< 4"]),
];

/// The input of a row.
fn input_of(alloc: Global, numbers: &[u32], conditions: &[&str]) -> Result<Vec<u8>, Failure> {
    let mut input = DOCUMENT.as_bytes().to_vec(alloc)?;
    for number in numbers {
        let line = format!(in alloc; "publish x int {number}\n")?;
        input.extend_from_slice(line.as_bytes())?;
    }
    input.extend_from_slice(b"patterns\npattern a up\n")?;
    for condition in conditions {
        let line = format!(in alloc; "step x int {condition}\n")?;
        input.extend_from_slice(line.as_bytes())?;
    }
    Ok(input)
}

/// What the clients of a net publish, in the order of their scripts.
fn published(alloc: Global, net: &Net) -> Result<Vec<&Notice>, NoMemory> {
    let mut notices = Vec::new(alloc);
    for client in &net.clients {
        for (_, command) in &client.script {
            if let Command::Publish(notice) = command {
                notices.push(notice)?;
            }
        }
    }
    Ok(notices)
}

/// Prints the places of each occurrence that a detector finds.
fn print_told(rt: &impl Print, notices: &[&Notice], mut detector: Detector) -> Result<(), Failure>
    requires { detector.fed ≡ [] }
{
    for notice in notices {
        if detector.feed(notice) {
            println!(rt; "  {:?}", detector.places())?;
        }
    }
    Ok(())
}

/// Prints where these steps occur.
fn print_steps(rt: &impl Print, notices: &[&Notice], steps: Vec<Filter>) -> Result<(), Failure> {
    println!(rt; "{} notices, {} steps", notices.len(), steps.len())?;
    if steps.len() < 2 || steps.len() > 8 {
        return Ok(());
    }
    print_told(rt, notices, Detector::new(steps)?)
}

/// Prints where the patterns of an input occur.
fn print_input(rt: &impl Print, alloc: Global, input: &[u8]) -> Result<(), Failure> {
    if input.len() > 4_194_304 {
        return Ok(());
    }
    match read_patterns(alloc, input) {
        Ok(Watch { net, patterns }) => {
            let notices = published(alloc, &net)?;
            for pattern in patterns {
                print_steps(rt, &notices, pattern.steps)?;
            }
            Ok(())
        }
        Err(_) => Ok(println!(rt; "not read")?),
    }
}

/// Prints where the pattern of each row occurs.
pub fn print_occurring(rt: &impl Print, alloc: Global) -> Result<(), Failure> {
    print_input(rt, alloc, EXAMPLE.as_bytes())?;
    for (numbers, conditions) in ROWS {
        print_input(rt, alloc, &input_of(alloc, numbers, conditions)?)?;
    }
    Ok(())
}
