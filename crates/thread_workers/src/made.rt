//! Counts the turns that a worker made before it put the cell back.
use thread_cell::Turned;

/// How many turns a worker made before it put the cell back, and whether the first of them found its match ahead out of date.
#[derive(Drop)]
pub(crate) struct Made {
    pub(crate) turns: u32,
    pub(crate) stale: bool,
}

impl Made {
    /// None yet.
    pub(crate) fn none() -> Made {
        Made {
            turns: 0,
            stale: false,
        }
    }

    /// One more try.
    pub(crate) fn count(&mut self, turned: Turned) {
        match turned {
            Turned::Made => self.turns = self.turns.saturating_add(1),
            Turned::Stale => {
                self.turns = self.turns.saturating_add(1);
                self.stale = true;
            }
            Turned::Idle => {}
        }
    }
}
