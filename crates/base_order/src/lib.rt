//! Layer: base.
//! Job: which of some items in their canonical order covers which, by their numbers, as rows of bits.
//! Users: the layers net, server, sequential, thread, output and test.
//!
//! So the roots of a set of items are found by their numbers alone. An `Order` is made once from the items of a pool, and
//! is only read then; many may share it. Only making it takes memory. The number of an item is its place in the list of
//! the items, of which an order holds none.
//! `roots` finds the roots of a set of numbers afresh; `reroot` keeps known roots up to date where a few numbers were
//! removed and added, at a cost that depends on those and on what they cover. Roots are defined in `base`, here with
//! the covering of the items and the order of the numbers; `lemma_roots` says that these are the roots of the items.
//!
//! The rows of `test_documents` try one item of each kind and operator, and the root of 200 filters of which each
//! covers the next.
#![tactic(auto)]

mod build;
mod columns;
mod order;
mod put;

pub use columns::full_row;
pub use order::Order;
pub use put::{put_if, set_to};
