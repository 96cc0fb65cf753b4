//! Layer: filter.
//! Job: notifications, filters and advertisements: what matches, what is allowed, and overlap.
//! Users: filter_covering, filter_text, and every layer above but law.
//!
//! The definitions of covering are here too; `filter_covering` decides it. The overlap of a filter with an
//! advertisement asks whether the table of compatible constraints leaves room for a notification that matches the one
//! and is allowed by the other. It takes no memory, and never says no where there is such a notification.
//!
//! `Notice::make` and `Constraints::make` sort in place and then share the list, for which they may need memory. The
//! calls `attributes` and `constraints` say what each value of their type is (`whole`, `listed`). `matches` and
//! `allows` go through the two lists side by side, each once, and take no memory. That copies share their list is
//! neither proved nor tested.
#![tactic(auto)]

mod canonical;
mod filter;
mod law;
mod matching;
mod notice;
mod overlap;

pub use filter::{Advert, Constraints, Filter, FilterFault};
pub use law::{canonical_laws, order_laws};
pub use matching::{allows, matches};
pub use notice::{Notice, NoticeFault};
pub use overlap::{overlap_law, overlaps};
