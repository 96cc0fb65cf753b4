//! Layer: base.
//! Job: the tree of servers: built exactly from the lists of edges that make a tree, with its paths and sides.
//! Users: the layers law, net, server, sequential, hierarchy, thread, document, output, audit, program and test.
//!
//! The faults of edges are found without memory, so a fault never gives way to out of memory. `Tree::build` answers out
//! of memory only where the edges are a tree (`no_memory`). By construction, building takes at most 64 times 64 table
//! entries for each edge.
//!
//! `servers`, `neighbours`, `next_hop` and `side` read tables and take no memory. `lemma_laws` gives the record
//! `TreeLaws` of every tree: 1 to 64 servers, rising neighbours, and `AreHops`, the laws that the theorems on runs
//! take. The law functions `sides` and `one_path` need `AreHops` alone.
#![tactic(auto)]

mod fault;
mod labels;
mod law;
mod row;
mod tables;
mod tree;

pub use fault::{EdgeFault, TreeFault};
pub use labels::Labels;
pub use law::{one_path, sides};
pub use tree::Tree;
