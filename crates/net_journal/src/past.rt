//! The type of the entries of a journal that exist in proofs alone, but for the last one.
ghost use Rattle.std.specs.Prelude.{◌≡◌, ◌-◌, ◌++◌, ◌∷◌, [], Some, length, slice_get, IfSome, IfNone};
ghost use Rattle.net_journal.specs.Past.{entries_before};

use net_model::Entry;
use std::snapshot::Snapshot;

/// Entries of which the last one alone stands in memory: what was before it is a snapshot, which has no bytes.
#[derive(Drop)]
pub(crate) enum Past {
    /// There was none.
    Nothing,
    /// This one came after what was before it.
    Then(Snapshot<Past>, Entry),
}

impl Past {
    /// One more entry passes.
    pub(crate) fn push(&mut self, entry: Entry)
        ensures { entries_before self.new ≡ entries_before self.old ++ entry ∷ [] }
    {
        let before = Snapshot::of(&*self);
        *self = Past::Then(before, entry);
    }

    /// The last entry.
    pub(crate) fn last(&self) -> Option<&Entry>
        ensures some { IfSome result (λ last. slice_get (entries_before self.now) (length (entries_before self.now) - 1) ≡ Some last.now) }
        ensures none { IfNone result (entries_before self.now ≡ []) }
    {
        match self {
            Past::Nothing => None,
            Past::Then(_, entry) => Some(entry),
        }
    }
}
