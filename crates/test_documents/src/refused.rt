//! Prints what reading answers of documents that are refused, some of them beside one that is read.
use crate::outcome::print_outcomes;
use std::alloc::Global;
use test_support::Failure;

/// The first three lines.
const BEGINNINGS: [&str; 16] = [
    "",
    "\n\n# a\n",
    "siena",
    "siena 3\n",
    "siena 1 1\n",
    "Siena 1\n",
    "siena 1",
    "siena 1\nservers 1\n",
    "siena 1\nsemantics subscriptions\n",
    "siena 1\nsemantics subscription\nedge 1 2\n",
    "siena 1\nsemantics subscription\nservers\n",
    "siena 1\nsemantics subscription\nservers 12345678901\n",
    "siena 1\nsemantics subscription\nservers 9999999999\n",
    "siena 1\nsemantics subscription\nservers 65\n",
    "siena 1\nsemantics subscription\nservers 0\n",
    "siena 1\nsemantics subscription\n",
];

/// The edges of three servers.
const TREES: [&str; 10] = [
    "edge 1 2\nedge 2 3\nedge 3 1\n",
    "edge 1 2\nclient a 1\n",
    "edge 1 2\n",
    "edge 1 2\nbarrier\n",
    "edge 1 2\nedge 2 3\nbarrier\n",
    "edge 1 1\n",
    "edge 1 2\nedge 2 1\n",
    "edge 1 4\n",
    "edge 0 4 4\n",
    "edge 1 2\nedge 2 3\nclient a 1\nedge 1 3\n",
];

/// Trees by phase.
const TREES_BY_PHASE: [&str; 10] = [
    "siena 2\nsemantics subscription\nservers 3\nedge 1 2\nedge 2 3\nphase 1\nedge 1 2\nclient a 1\n",
    "siena 2\nsemantics subscription\nservers 3\nedge 1 2\nedge 2 3\nphase 1\nedge 1 2\nedge 1 2\n",
    "siena 1\nsemantics subscription\nservers 3\nedge 1 2\nedge 2 3\nphase 1\n",
    "siena 1\nsemantics subscription\nservers 3\nedge 1 2\nphase 1\n",
    "siena 2\nsemantics subscription\nservers 3\nedge 1 2\nphase x\n",
    "siena 2\nsemantics subscription\nservers 1\nphase x\n",
    "siena 2\nsemantics subscription\nservers 1\nphase 0\n",
    "siena 2\nsemantics subscription\nservers 1\nphase 4096\n",
    "siena 2\nsemantics subscription\nservers 1\nphase 4095\nphase 4095\n",
    "siena 2\nsemantics subscription\nservers 1\nclient a 1\nphase 1\n",
];

/// Clients, scripts and what follows them at one server.
const CLIENTS_AND_SCRIPTS: [&str; 23] = [
    "edge 1 1\n",
    "schedule\nclient a 1\n",
    "schedule\ntake 1 1\n",
    "client a 2\n",
    "client 1a 2\n",
    "client a 1\nclient a 1\n",
    "client a 1\nclient a 2\n",
    "client a 1\nscript b\n",
    "client a 1\nscript a\nscript a\n",
    "client a 1\nscript a b\n",
    "client a 1\nscript a\nbarrier 1\n",
    "client a 1\nscript a\nbarrier\"a\n",
    "client a 1\nscript a\nscript;x\n",
    "client a 1\nscript a\nschedule+\n",
    "client a 1\nscript a\nschedule <\n",
    "client a 1\nscript a\n< 1\n",
    "client a 1\nscript a\nclient b 1\n",
    "client a 1\nscript a\nsubscribe x int = 99999999999999999999\n",
    "client a 1\nscript a\nsubscribe s str contains \"\"\n",
    "client a 1\nscript a\npublish x int 1;\n",
    "client a 1\nscript a\npublish x int 1; x int 2\n",
    "client a 1\nscript a\nbarrier\npublish t str \"q\nr\"\n",
    "client a 1\nscript a\npublish t time 5\n",
];

/// Turns in a line of three servers.
const SCHEDULES: [&str; 11] = [
    "schedule\nclient a 1\n",
    "schedule\nschedule\n",
    "schedule 1\n",
    "schedule\ntake 1 1\n",
    "schedule\ntake 1 3\n",
    "schedule\ntake 1 4\n",
    "schedule\ntake 1\n",
    "schedule\nversion 4\n",
    "schedule\nversion\n",
    "schedule\ncommand 1a\n",
    "schedule\ncommand a\n",
];

/// The ends of lines.
const LINE_ENDS: [&str; 7] = [
    "siena 1\r\nsemantics subscription\r\nservers 1\r\n",
    "siena 1\nsemantics subscription\nservers 1",
    "siena 1\nsemantics subscription\nservers 1\r",
    "siena 1\r\r\n",
    "\r\n \t\n\t# siena 3\n siena\t1 \nsemantics subscription\nservers 1\n",
    "siena 1\nsemantics subscription\nservers 2\nclient a 1",
    "siena 1\nsemantics subscription\nservers 2\n\n",
];

/// Prints the outcome of each.
pub fn print_refused(rt: &impl Print, alloc: Global) -> Result<(), Failure> {
    print_outcomes(rt, alloc, "", &BEGINNINGS)?;
    print_outcomes(
        rt,
        alloc,
        "siena 1\nsemantics subscription\nservers 3\n",
        &TREES,
    )?;
    print_outcomes(rt, alloc, "", &TREES_BY_PHASE)?;
    print_outcomes(
        rt,
        alloc,
        "siena 1\nsemantics subscription\nservers 1\n",
        &CLIENTS_AND_SCRIPTS,
    )?;
    print_outcomes(
        rt,
        alloc,
        "siena 1\nsemantics subscription\nservers 3\nedge 1 2\nedge 2 3\n",
        &SCHEDULES,
    )?;
    print_outcomes(rt, alloc, "", &LINE_ENDS)?;
    Ok(())
}
