//! The type of the record of a run: one journal, or those of all servers as one.
ghost use Rattle.std.specs.Prelude.{◌≡◌, true, false, [], map, IfOk};
ghost use Rattle.std.specs.List.{All};
ghost use Rattle.net_journal.specs.Merging.{AreServerJournals, IsMergeOf};

use crate::Journal;
use crate::journals::merge;
use base::NoMemory;
use net_model::Entry;
use std::alloc::Global;
use std::marker::Model;

/// One journal, or those of several servers whose entries passed.
#[derive(Drop)]
enum Journals {
    One(Journal),
    Several(Vec<Journal>),
}

/// What the servers of a run did: the entries of one journal, or those of all servers' journals as one, by stamp and then
/// by server. They are kept, or they passed and exist in proofs alone.
#[derive(Drop)]
pub struct Record {
    journals: Journals,
}

impl Model for Record {
    ghost use Rattle.net_journal.specs.Record.{RecordParts, record_parts, entries_of, is_kept};

    ghost Value = { RecordParts };

    ghost view = { λ r. record_parts (entries_of r.journals) (is_kept r.journals) };
}

// The entries of journals that keep them.
fn all_entries(alloc: Global, journals: Vec<Journal>) -> Result<Vec<Vec<Entry>>, NoMemory>
    requires { All (λ journal. journal.kept ≡ true) journals.items }
    ensures { IfOk result (λ all. map (λ entries. entries.items) all.items ≡ map (λ journal. journal.entries) journals.items) }
{
    let mut all = Vec::with_capacity(alloc, journals.len())?;
    for journal in journals {
        all.push(journal.into_entries())?;
    }
    Ok(all)
}

impl Record {
    ghost use Rattle.net_journal.specs.Record.{record_parts};

    /// A record of no entries.
    pub fn empty(alloc: Global) -> Record
        ensures { result ≡ record_parts [] false }
    {
        Record::of(Journal::new(alloc, false))
    }

    /// What one journal has.
    pub fn of(journal: Journal) -> Record
        ensures { result ≡ record_parts journal.entries journal.kept }
    {
        Record {
            journals: Journals::One(journal),
        }
    }

    /// What the journals of servers 1, 2, .. have, as one list. They are merged in memory only where they are kept.
    pub fn merged(alloc: Global, journals: Vec<Journal>, kept: bool) -> Result<Record, NoMemory>
        requires servers { AreServerJournals (map (λ journal. journal.entries) journals.items) }
        requires kept { All (λ journal. journal.kept ≡ kept) journals.items }
        ensures merge { IfOk result (λ r. IsMergeOf (map (λ journal. journal.entries) journals.items) r.entries) }
        ensures kept { IfOk result (λ r. r.kept ≡ kept) }
    {
        if kept {
            let entries = merge(alloc, all_entries(alloc, journals)?)?;
            return Ok(Record::of(Journal::of(entries)));
        }
        Ok(Record {
            journals: Journals::Several(journals),
        })
    }

    /// The entries, where they are kept.
    pub fn entries(&self) -> &[Entry]
        requires { self.now.kept ≡ true }
        ensures { result.now ≡ self.now.entries }
    {
        match &self.journals {
            Journals::One(journal) => journal.entries(),
            Journals::Several(_) => unreachable!(),
        }
    }
}
