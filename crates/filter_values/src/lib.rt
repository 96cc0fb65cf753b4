//! Layer: filter.
//! Job: names, texts and values: what a notification carries, read exactly or refused.
//! Users: every layer above but law.
//!
//! A name and a text are refused with the first fault and its place; copies are equal. Only out of memory may replace a
//! good answer (`memory`). The definition of UTF-8 is the standard library's. The rows of `test_values` on UTF-8 come
//! from outside: overlong forms, surrogates, code points past the last, cut sequences. Use of the stack is neither
//! proved nor tested.
#![tactic(auto)]

pub mod law;
mod name;
mod short_bytes;
mod text;
mod value;

pub use base::NoMemory;
pub use name::{Name, NameFault, is_name};
pub use text::{Text, TextFault, is_open_byte, is_text};
pub use value::{Kind, Value};
