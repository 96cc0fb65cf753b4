//! The type of what came of one try with the cell in hand.
use net_model::Act;
use thread_cell::Turned;

/// What a worker did with the cell in hand.
#[derive(Drop)]
pub(crate) enum Tried {
    /// Nothing: it has no turn left to make.
    Done,
    /// Nothing yet: this turn comes next, and its publication, which has this number, is to be matched ahead.
    Ahead(Act, u32),
    /// It tried a turn.
    Turned(Turned),
}
