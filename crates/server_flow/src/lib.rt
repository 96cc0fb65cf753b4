//! Layer: server.
//! Job: what each server holds from each neighbour once a tree comes into force, from the clients' sets alone, by number.
//! Users: sequential_network and thread_cell.
//!
//! A set is a row of numbers. The links of the tree are gone through from the smaller side to the larger one, so what a
//! server sends over the next link is the roots of a union of rows that were found before. `trees_come` counts the
//! trees that have come into force by a phase (`trees_by`).
#![tactic(auto)]

mod answer;
mod gather;
mod home;
mod made;
mod order;
mod table;
mod trees;

pub use answer::flow;
pub use home::Home;
pub use trees::trees_come;
