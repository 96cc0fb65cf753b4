//! Layer: test.
//! Job: tests of devices that fail in mid-stream, trees of servers, nets, entries and their merge, and of the laws at the real theory.
//! Users: nobody; it has tests alone.
//!
//! The laws of whole runs are called at the real theory, which shows that they can be called. A net of three servers
//! and two trees is built and proved sound, so soundness can be met. The journals of its rows are proved to meet the
//! condition of `merge`: stamps that come on one, two and three servers, journals with nothing between others, all
//! stamps equal but one, later servers first, no journal, and empty ones.
#![tactic(auto)]

#[cfg(test)]
mod copies;
#[cfg(test)]
mod devices;
#[cfg(test)]
mod edges;
#[cfg(test)]
mod inboxes;
#[cfg(test)]
mod laws;
#[cfg(test)]
mod merging;
#[cfg(test)]
mod nets;
#[cfg(test)]
mod networks;
#[cfg(test)]
mod trees;
