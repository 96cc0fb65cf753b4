//! Layer: filter.
//! Job: constraints on the value of one attribute: satisfaction, covering, compatibility and canonical order.
//! Users: every layer above but law.
//!
//! Covering and compatibility are decided on normal forms. `covering_complete` holds for int, time and bool. For str it
//! holds in three cases, by normal forms: the covered constraint is `=` or empty; the covering one is `!=` or `any`; or
//! both are among `!=`, `prefix`, `suffix`, `contains` and `any`, and a covered pattern has at most 1,023 bytes.
//!
//! The tables of numbers are written once, over i128, which contains the values of both kinds. `int_range` and
//! `time_range` apply the laws of numbers to i64 and u64. The rows of `test_values` include both ends of i64 and of
//! u64, and the empty text.
#![tactic(auto)]

mod bytes;
mod constraint;
pub mod law;
mod normal;
mod numbers;
mod op;
mod order;

pub use bytes::{has_prefix, has_suffix};
pub use constraint::{BadConstraint, Constraint, has_op};
pub use normal::{IntSet, Normal, TimeSet};
pub use op::Op;
