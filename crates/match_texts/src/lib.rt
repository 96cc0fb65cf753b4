//! Layer: match.
//! Job: an index of patterns of strs from which none is ever removed, and the keys of texts in their order.
//! Users: match_numbers and match_filters.
//!
//! A pattern is marked by where its pairs of neighbouring bytes are, so that a text is tested against the few patterns
//! whose marks it has. A text has the marks of each pattern that it matches; the proofs are `part-first`, `part-last`,
//! `prefix-mark` and `suffix-mark`. Texts are mostly compared by one number: two are ordered by the numbers of their
//! first eight bytes where these differ (`less-head`).
#![tactic(auto)]

mod bytes;
mod group;
mod key;
mod marked;
mod marks;
mod meet;
mod patterns;
mod texts;

pub use key::{SoughtText, TextKey};
pub use texts::{Texts, key_of};
