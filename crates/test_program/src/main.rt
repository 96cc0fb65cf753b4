//! Layer: test.
//! Job: runs rows of words and documents through the program over devices in memory, and prints of each whether the outcome is as wanted.
//! Users: nobody; it is a program of its own.
//!
//! The rows are run on one thread and with two workers for each server, free and held at gates.
//!
//! On one thread: words and documents with what must be printed, or the status and its text; failing devices at each
//! call; documents replayed step by step, with the stamp of each step and the texts of its messages, as an independent
//! program gives them. The document of seed 1 is compared by its MD5 digest and that of its flood; its sorted walk,
//! sorted replay, sorted walk of its hierarchy and flood are one text. Audits confirm what the program itself writes.
//! They never confirm the output of another document, an output with a byte changed at 500 places, or a claim cut at a
//! line. Explanations have a row for each of their lines, verdicts and reasons, and for each name that isn't there; what each
//! client of the generated document is told is what its flood says.
//!
//! The whole program is called with each word, for each number with which it ends, over readers and writers that fail,
//! and with arguments that can't be read.
//!
//! With threads: documents whose outcome doesn't move, two with their traces, one phase after another and with a change
//! of tree. Workers are held at a gate: two meet before their first turns; a table update overtakes a match ahead; a
//! worker for links receives a notification while the phase goes on; four workers take their first turns in each of the
//! 24 orders. Where the outcome may move, `audit` must confirm what each run wrote with its trace. Many starts and ends
//! of threads: 100 small runs, and runs in one thread up to eight, of two servers over 1,500 phases and of 64 over 100.
//!
//! Tried by hand, before the journals of cells could pass: ten runs of the built program, with 400 runs of each moving
//! document, 1,000 small runs and 123,000 phases, all as wanted. Threads were refused at each start in turn, by a limit
//! on the user's processes: on a document of four phases over 64 servers (the walk's bytes), and on those with 64
//! servers and at the limits (the flood's sorted bytes). 1,500 random documents with stable filters were compared with
//! `flood`.
#![tactic(auto)]

mod answers;
mod audits;
mod claims;
mod devices;
mod edges;
mod examples;
mod explained;
mod faults;
mod formats;
mod generated;
mod hierarchies;
mod hierarchy_audits;
mod large;
mod outlooks;
mod pages;
mod patterns;
mod replays;
mod row;
mod runs;
mod steps;
mod threads;
mod traffic;
mod tried;
mod usage;

use std::alloc::Global;
use test_support::Failure;
use tried::print_rows;

/// Runs the rows of runs and of replays.
fn print_runs(rt: &impl Print, alloc: Global) -> Result<(), Failure> {
    print_rows(rt, alloc, "", &runs::RUNS)?;
    print_rows(rt, alloc, "", &replays::REPLAYS)
}

/// Runs the rows of single steps, of floods and of checks.
fn print_steps(rt: &impl Print, alloc: Global) -> Result<(), Failure> {
    print_rows(rt, alloc, "", &steps::STEPS)?;
    print_rows(rt, alloc, "", &replays::FLOODS)?;
    print_rows(rt, alloc, "", &replays::CHECKS)
}

/// Runs the rows of hierarchies and of faults.
fn print_faults(rt: &impl Print, alloc: Global) -> Result<(), Failure> {
    print_rows(rt, alloc, "", &hierarchies::HIERARCHIES)?;
    print_rows(rt, alloc, "", &faults::FAULTS)
}

/// Runs the rows of patterns and of explanations.
fn print_questions(rt: &impl Print, alloc: Global) -> Result<(), Failure> {
    print_rows(rt, alloc, "", &patterns::PATTERNS)?;
    print_rows(rt, alloc, "", &explained::EXPLAINED)?;
    print_rows(rt, alloc, "", &explained::OUTLOOKS)
}

/// Runs the rows of audits.
fn print_audits(rt: &impl Print, alloc: Global) -> Result<(), Failure> {
    print_rows(rt, alloc, "", &audits::AUDITS)?;
    print_rows(
        rt,
        alloc,
        hierarchy_audits::DOCUMENT,
        &hierarchy_audits::HIERARCHY_AUDITS,
    )
}

/// Runs the rows of formats, of traffic and of wrong words.
fn print_words(rt: &impl Print, alloc: Global) -> Result<(), Failure> {
    print_rows(rt, alloc, "", &formats::FORMATS)?;
    print_rows(rt, alloc, "", &traffic::TRAFFIC)?;
    print_rows(rt, alloc, "", &usage::USAGE)
}

/// Runs all rows. A function has a few tables, and a table at most 30 rows: the checker's work grows faster than both.
fn print_tables(rt: &impl Print, alloc: Global) -> Result<(), Failure> {
    print_runs(rt, alloc)?;
    print_steps(rt, alloc)?;
    print_faults(rt, alloc)?;
    print_questions(rt, alloc)?;
    print_audits(rt, alloc)?;
    print_words(rt, alloc)
}

/// Tries what is more than a row.
fn print_others(rt: &impl Print, alloc: Global) -> Result<(), Failure> {
    audits::print_changed(rt, alloc)?;
    claims::print_whole(rt, alloc)?;
    claims::print_generated(rt, alloc)?;
    claims::print_made(rt, alloc)?;
    pages::print_pages(rt, alloc)?;
    devices::print_devices(rt, alloc)?;
    edges::print_edges(rt, alloc)?;
    large::print_large(rt, alloc)?;
    generated::print_generated(rt, alloc)
}

fn main(rt: HostRuntime) -> Result<(), Failure> {
    print_tables(&rt, rt.alloc())?;
    print_others(&rt, rt.alloc())?;
    threads::print_all(&rt, rt.alloc())
}
