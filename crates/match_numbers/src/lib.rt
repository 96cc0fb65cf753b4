//! Layer: match.
//! Job: an index of the constraints on one name that compare a value with their operand.
//! Users: match_filters.
//!
//! Constraints are put into `Operands`, and a `Part` of these finds the ids all of whose constraints a value satisfies. Bools
//! and times are ordered as numbers: false before true, and a time less 2^63. Texts have operands of their own, in the order
//! of their bytes. Patterns of texts have none. Contracts see the pairs that were put, which aren't kept.
#![tactic(auto)]

mod key;
mod operands;
mod part;
mod told;

pub use operands::Operands;
pub use part::Part;
