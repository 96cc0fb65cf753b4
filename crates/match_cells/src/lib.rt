//! Layer: match.
//! Job: the filters that a value satisfies on one name and kind, by the cell of their operands that it falls in, and how many of some sets have each filter.
//! Users: match_numbers and match_filters.
//!
//! The operands cut the values into cells: those below the first, the first, those between it and the second, and so on. From a
//! cell to the next only the filters change that ask something of the operand there, so that what is satisfied in each cell is a
//! moment of a history. The set is kept whole at the history's beginning and behind each 32 changes. A word has a bit for each of
//! sixty-four filters. Adding words by full adders counts, for all of them at once, how many of the words have their bit.
#![tactic(auto)]

mod adders;
mod ask;
mod cells;
mod counts;
mod first;
mod goals;
mod history;
mod operands;
mod place;
mod row;
mod rows;
mod shift;
mod words;

pub use ask::{Ask, Side};
pub use cells::Cells;
pub use counts::Counts;
pub use goals::count_one;
pub use operands::put_ask;
pub use row::read_row;
pub use rows::counted;
