//! The type of a journal, which keeps its entries or has them in proofs alone.
ghost use Rattle.std.specs.Prelude.{◌≡◌, true, false, [], IfOk, OnOk, OnErr};
ghost use Rattle.net_journal.specs.Journal.{journal_parts};

use crate::past::Past;
use base::NoMemory;
use net_model::Entry;
use std::alloc::Global;
use std::marker::Model;

/// Entries that are kept, or that passed and how many they were.
#[derive(Drop)]
enum Entries {
    Kept(Vec<Entry>),
    Passed(Past, u64),
}

/// What the servers of a run did, in the order of the turns; there may be room for one more entry.
#[derive(Drop)]
pub struct Journal {
    entries: Entries,
    has_room: bool,
}

impl Model for Journal {
    ghost use Rattle.net_journal.specs.Journal.{JournalParts, journal_parts, entries_of, is_kept, IsJournal};

    ghost Value = { JournalParts };

    ghost view = { λ j. journal_parts (entries_of j.entries) (is_kept j.entries) j.has_room };

    ghost invariant = { λ j. IsJournal j.entries j.has_room };
}

impl Journal {
    ghost use Rattle.std.specs.Prelude.{◌≡◌, ◌-◌, ◌^◌, ◌++◌, ◌∷◌, [], true, false, min, Some, length, slice_get, IfSome, IfNone, OnOk, OnErr};

    /// A journal of no entries, which keeps those that come or lets them pass.
    pub fn new(alloc: Global, kept: bool) -> Journal
        ensures { result ≡ journal_parts [] kept false }
    {
        let entries = if kept {
            Entries::Kept(Vec::new(alloc))
        } else {
            Entries::Passed(Past::Nothing, 0)
        };
        Journal {
            entries,
            has_room: false,
        }
    }

    /// The journal that keeps these entries.
    pub fn of(entries: Vec<Entry>) -> Journal
        ensures { result ≡ journal_parts entries.items true false }
    {
        Journal {
            entries: Entries::Kept(entries),
            has_room: false,
        }
    }

    /// Makes room for one more entry. Where entries pass there is always some.
    pub fn make_room(&mut self) -> Result<(), NoMemory>
        ensures ok { OnOk result (self.new ≡ record self.old { room = true }) }
        ensures err { OnErr result (self.new ≡ self.old) }
    {
        match &mut self.entries {
            Entries::Kept(entries) => entries.reserve(1)?,
            Entries::Passed(_, _) => {}
        }
        self.has_room = true;
        Ok(())
    }

    /// Puts an entry at the end, for which there is room. It takes no memory.
    pub fn push(&mut self, entry: Entry)
        requires { self.old.room ≡ true }
        ensures { self.new ≡ journal_parts (self.old.entries ++ entry ∷ []) self.old.kept false }
    {
        match &mut self.entries {
            Entries::Kept(entries) => entries.push_reserved(entry),
            Entries::Passed(past, count) => {
                past.push(entry);
                *count = count.saturating_add(1);
            }
        }
        self.has_room = false;
    }

    /// How many entries it has, or 2^64 - 1 where it has more.
    pub fn len(&self) -> u64
        ensures { result ≡ min (length self.now.entries) (2 ^ 64 - 1) }
    {
        match &self.entries {
            Entries::Kept(entries) => entries.len() as u64,
            Entries::Passed(_, count) => *count,
        }
    }

    /// The last entry.
    pub fn last(&self) -> Option<&Entry>
        ensures some { IfSome result (λ last. slice_get self.now.entries (length self.now.entries - 1) ≡ Some last.now) }
        ensures none { IfNone result (self.now.entries ≡ []) }
    {
        match &self.entries {
            Entries::Kept(entries) => entries.last(),
            Entries::Passed(past, _) => past.last(),
        }
    }

    /// The entries, where they are kept.
    pub fn entries(&self) -> &[Entry]
        requires { self.now.kept ≡ true }
        ensures { result.now ≡ self.now.entries }
    {
        match &self.entries {
            Entries::Kept(entries) => entries,
            Entries::Passed(_, _) => unreachable!(),
        }
    }

    /// The same, where nothing else is wanted any more.
    pub fn into_entries(self) -> Vec<Entry>
        requires { self.kept ≡ true }
        ensures { result.items ≡ self.entries }
    {
        match self.entries {
            Entries::Kept(entries) => entries,
            Entries::Passed(_, _) => unreachable!(),
        }
    }
}
