//! Layer: test.
//! Job: tests of what threads stand on: lanes, turn locks, forwarding tables with their viewers, and a cell without a stamp left.
//! Users: nobody; it has tests alone.
//!
//! Each is tried in one thread and in two. Tried by hand, of lanes and locks: each of the 48 allocations of the six
//! tests was refused in turn. A run then ends with out of memory or, at ten of the 15 of the lock between two threads,
//! with the entries missing that its writer gave up.
#![tactic(auto)]

#[cfg(test)]
mod lanes;
#[cfg(test)]
mod locks;
#[cfg(test)]
mod viewers;
#[cfg(test)]
mod worn;
