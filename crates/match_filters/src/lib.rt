//! Layer: match.
//! Job: which filters of a fixed list a notification matches, by counting what its attributes satisfy.
//! Users: match_routes, and the layers net, sequential, thread, output and test.
//!
//! The filters of a run are known before it begins, so none is ever withdrawn. The constraints of a filter on one name and
//! kind are one part of it; a pattern of strs is one by itself. A filter matches where as many of its parts are
//! satisfied as it has. The filters whose part an attribute satisfies are a row of bits, and the rows of a notification's
//! attributes are counted for sixty-four filters at a time. The counts are in a `Scratch` of the caller, so that threads
//! share one matcher. Counting as a way to match comes from Carzaniga and Wolf, 'Forwarding in a content-based network',
//! 2003.
//!
//! The crate also has the definitions that `match_routes` uses: `Use`, `ids_satisfied` and `IsRouteOf`.
#![tactic(auto)]

mod builder;
mod count;
mod goals;
mod index;
mod listed;
mod matcher;
mod parts;
mod rows;
mod scratch;
mod shelves;
mod texts;

pub use builder::MatcherBuilder;
pub use matcher::Matcher;
pub use scratch::Scratch;
