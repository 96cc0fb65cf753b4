//! Layer: document.
//! Job: command lines of a script: the lenient form of a client's commands, read whole or refused with its fault.
//! Users: the document layer, and the layers output, audit, program and test.
//!
//! `script_fault` is a function, so each fault comes exactly where it is due, out of memory aside. No line spells two
//! commands (`one_command`). `Line::cut` cuts off the first token of a line, so that a caller who decides by it cuts
//! the line once. `short_digits` and `long_digits` answer the number that few or many digits write (`number_of_digits`,
//! `in_64_bits`). The crate is above `filter_text`, whose `Command` it answers.
#![tactic(auto)]

mod command;
mod cutter;
mod distinct;
mod fault;
mod form;
mod law;
mod limits;
mod line;
mod number;
mod part;
mod same;
mod time;
mod token;
mod tokens;
mod verb;

pub use command::script_command;
pub use fault::ScriptFault;
pub use law::one_command;
pub use line::Line;
pub use number::{are_digits, long_digits, short_digits};
pub use same::is_same;
pub use token::Token;
pub use tokens::Tokens;
pub use verb::{Verb, verb_named};
