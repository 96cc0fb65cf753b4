//! Layer: base.
//! Job: distinct items, each kept once with the number of its holders, under keys and in their canonical order.
//! Users: base_order, and the layers net, server, sequential, output and test.
//!
//! A `Pool` is a finite map from keys to items and numbers of holders, in which distinct keys have distinct items. A key
//! keeps its item until its last holder is given back. The items lie in a slab; beside it stand the live keys, sorted by
//! the canonical order of their items, so that an item is found by a binary search. `Items` is a pool that won't change
//! any more, seen as the list of its items: an item's place is its number. `Pool::numbers` gives the numbers of items by
//! their keys, so that who keeps an item and remembers the key need not search for it again.
//!
//! `Pool::lemma_plain` says what each pool keeps. The rows of `test_values` try pools of filters and of advertisements
//! against a plain list.
#![tactic(auto)]

mod items;
mod pool;

pub use items::Items;
pub use pool::{Key, Pool};
