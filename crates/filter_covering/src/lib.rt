//! Layer: filter.
//! Job: covering of filters and of advertisements with its laws, and the two as items that cover one another.
//! Users: the layers net, server, sequential, thread, output and test.
//!
//! A filter covers another one where it matches whatever that one matches, as far as the table of constraints finds it.
//! Covering misses some pairs of which one matches all that the other does: several constraints on one name may do so
//! together. A signature is one word for each filter, by which most pairs that don't cover one another are passed over.
//! `Sub` and `Ad` implement the trait `Cover`; their signatures never deny a covering (`sub_never_misses`,
//! `ad_never_misses`).
#![tactic(auto)]

mod covering;
mod items;
mod law;
mod signature;

pub use covering::{advert_covers, filter_covers};
pub use items::{Ad, Sub};
pub use law::{advert_laws, filter_laws};
pub use signature::some_void;
