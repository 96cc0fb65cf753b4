//! Layer: match.
//! Job: what the indexes of constraints hold: pairs of a test and an id, and the lines and groups in which ids are kept.
//! Users: match_cells, match_numbers, match_texts and match_filters.
//!
//! Texts and patterns are kept in an index by their bytes and by their ends. For these there are definitions and lemmas
//! alone; `match_texts` finds the patterns that match a text. After running out of memory, a list of ids still begins
//! with what it began with (`begins`).
#![tactic(auto)]

mod append;
mod key;
mod law;
mod line;
mod places;
mod sides;

pub use append::append_ids;
pub use key::{LineKey, Sought};
pub use line::Line;
pub use places::below;
pub use sides::{EQUAL, Sides};
