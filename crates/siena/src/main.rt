//! Layer: program.
//! Job: `main`: hands the arguments and the three standard streams to the whole program, and ends with the number that it answers.
//! Users: nobody; it is the program.
//!
//! The program reads a document of servers, clients and what these do, and prints what each client receives, what
//! flooding owes it, why it gets a publication or doesn't, where patterns occur in what it receives, or how much the
//! document has.
#![tactic(auto)]

use program_threaded::program;
use std::process::ExitCode;

fn main(rt: HostRuntime) -> ExitCode {
    let (alloc, arguments) = (rt.alloc(), std::env::args(&rt));
    let ended = program(alloc, &rt, arguments, rt.stdin(), rt.stdout(), rt.stderr());
    ExitCode::from(ended.number)
}
