//! Layer: test.
//! Job: tries rows on names, texts, values, constraints, notifications, filters, advertisements, covering, overlap, and matching by number.
//! Users: nobody; it is a program of its own.
//!
//! There are also rows of wire texts that are written, read again or refused, of command lines with their commands and
//! faults, of filters under numbers: which of them a notification matches and where it goes, and of pools of filters and
//! advertisements. Standard input has the rows, each a question and the answer that is wanted.
//!
//! The rows try constraints of each kind and operator, patterns at either end of a text and within it, long ones and
//! many, and removals. Wire texts are tried with the ends of every range, and lines with their commands and faults in
//! documents of either version.
#![tactic(auto)]

mod compared;
mod held;
mod lines;
mod long;
mod made;
mod pooled;
mod refused;
mod spelled;
mod texts;
mod values;
mod wire;

use test_support::{RowFault, try_rows};
use values::Values;

fn main(rt: HostRuntime) -> Result<(), RowFault> {
    let mut values = Values::new(rt.alloc());
    try_rows(&rt, &mut values)
}
