//! Layer: thread.
//! Job: the forwarding table of a server, updated by one thread while up to three viewers find routes by it.
//! Users: thread_cell, thread_workers, program_threaded and test_threads.
//!
//! One publisher adds pending changes of the pairs of a filter's number and an interface and installs them in one table
//! update. A viewer finds the route of matched numbers by the table that was installed when it looked. Two forwarding
//! tables hold the installed pairs in turn (`left_right`): viewers read the one, and a table update makes the pending
//! changes in the other and then exchanges the two. So an update costs as much as what was pending, once on each table,
//! and copies no table.
//!
//! By the rule of the crate, each table that a viewer reads is the fold of a beginning of the history of pending
//! changes. A table update installs all that is pending by just one step (`once`), so viewers see all of a batch at
//! once or none of it. No clause at a viewer's own calls says that what it matched by is a length that an update left.
//! `agree` also brings the viewer up to date (`seen`). `pairs_are_applied` and `same_pairs_same_routes` are the laws of
//! pairs and routes.
//!
//! `match_ahead`, `publish` and `end` may wait. After the end of its publisher a viewer must not match, or it would try
//! for ever; no clause keeps a caller from it.
#![tactic(auto)]

mod agreeing;
mod ahead;
mod applying;
mod front;
mod history;
pub mod law;
mod making;
mod matching;
mod publisher;
mod publishing;
mod rule;
mod seats;
mod version;
mod viewer;

pub use agreeing::agree;
pub use ahead::Ahead;
pub use making::versions;
pub use matching::match_ahead;
pub use publisher::Publisher;
pub use viewer::Viewer;
