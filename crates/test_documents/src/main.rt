//! Layer: test.
//! Job: prints what reading gives of many documents, with patterns and without, for comparison with what it must print.
//! Users: nobody; it is a program of its own.
//!
//! Of documents that are refused it prints the line and the fault, and of those that are read the nets and patterns;
//! also what catalogues of nets know, why clients get publications, and where patterns occur in what is published. Among the documents are every
//! prefix of a realistic one and of an input with patterns, and documents at the limits and one beyond. The program is
//! proved for bounds and termination alone.
//!
//! The command `crates/test_documents/out/test_documents measure < document` prints a document's outcome and the median
//! nanoseconds of seven readings.
#![tactic(auto)]

mod catalogued;
mod explained;
mod large;
mod many;
mod measure;
mod nets;
mod occurring;
mod outcome;
mod prefixes;
mod refused;
mod sound;
mod watch_large;
mod watch_prefixes;
mod watch_refused;
mod watched;

use std::alloc::Global;
use std::io::Read;
use std::rt::Env;
use test_support::Failure;

/// What the program is asked for.
#[derive(Clone, Copy, Debug, PartialEq, Eq)]
enum Order {
    /// To print what reading gives.
    Print,
    /// To measure the reading of standard input.
    Measure,
}

/// What the word after the program's name asks for; none asks to print.
fn asked(rt: &(impl Env + AllocGlobal)) -> Result<Order, Failure> {
    match std::env::args(rt)?.nth(1) {
        None => Ok(Order::Print),
        Some(word) => match word.as_str() {
            "measure" => Ok(Order::Measure),
            _ => Err(Failure::Usage),
        },
    }
}

/// Prints what reading gives of documents, and what is known of them.
fn print_documents(rt: &impl Print, alloc: Global) -> Result<(), Failure> {
    refused::print_refused(rt, alloc)?;
    nets::print_nets(rt, alloc)?;
    prefixes::print_prefixes(rt, alloc)?;
    large::print_large(rt, alloc)?;
    catalogued::print_catalogues(rt, alloc)?;
    many::print_many(rt, alloc)?;
    explained::print_explanations(rt, alloc)
}

/// Prints what reading gives of documents with patterns, and where these occur.
fn print_watches(rt: &impl Print, alloc: Global) -> Result<(), Failure> {
    watch_refused::print_refused(rt, alloc)?;
    watch_prefixes::print_prefixes(rt, alloc)?;
    watch_large::print_large(rt, alloc)?;
    occurring::print_occurring(rt, alloc)
}

fn main(rt: HostRuntime) -> Result<(), Failure> {
    match asked(&rt)? {
        Order::Print => {
            print_documents(&rt, rt.alloc())?;
            print_watches(&rt, rt.alloc())
        }
        Order::Measure => {
            let mut document = Vec::new(rt.alloc());
            rt.stdin().read_to_end(&mut document)?;
            measure::print_measure(&rt, rt.alloc(), &document)
        }
    }
}
