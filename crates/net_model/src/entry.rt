//! The type of an entry of a journal.
use crate::turn::Act;
use base::NoMemory;
use std::alloc::Global;
use std::marker::Model;

/// What one server did in one step.
#[derive(Debug, Drop)]
pub struct Entry {
    /// The stamp of the step, below 2^62.
    pub stamp: u64,
    /// The server, from 1.
    pub server: u32,
    /// What it did.
    pub act: Act,
    /// The neighbours that were sent a message, rising.
    pub outs: Vec<u32>,
}

impl Model for Entry {
    ghost use Rattle.net_model.specs.Parts.{EntryParts, entry_parts};

    ghost Value = { EntryParts };

    ghost view = { λ e. entry_parts e.stamp e.server e.act e.outs.items };
}

impl Entry {
    ghost use Rattle.std.specs.Prelude.{◌≡◌, IfOk};

    /// An equal entry.
    pub fn copy(&self, alloc: Global) -> Result<Entry, NoMemory>
        ensures { IfOk result (λ e. e ≡ self.now) }
    {
        let outs = self.outs.to_vec(alloc)?;
        Ok(Entry {
            stamp: self.stamp,
            server: self.server,
            act: self.act,
            outs,
        })
    }
}
