//! Layer: hierarchy.
//! Job: which turns of a hierarchy are permitted after a journal, what they make, and what a whole run is promised to have done. Pure.
//! Users: hierarchy_network and program_sequential.
//!
//! The contracts of a network of a hierarchy cite these definitions. Beside them are the theorems of `law_hierarchy` at
//! the theory of the program's filters, and the walk.
#![tactic(auto)]

pub mod law;
