//! Merges the journals of all servers into one list of entries.
ghost use Rattle.std.specs.Prelude.{◌≡◌, ℕ, ◌==◌, length, map, filter, sum_by, IfOk};
ghost use Rattle.std.specs.List.{flat_map};
ghost use Rattle.net_journal.specs.Merging.{AreServerJournals, IsMergeOf, journal_at};

use base::NoMemory;
use net_model::Entry;
use std::alloc::Global;

// One after the other.
fn joined(alloc: Global, journals: Vec<Vec<Entry>>) -> Result<Vec<Entry>, NoMemory>
    ensures { IfOk result (λ entries. entries.items ≡ flat_map (λ journal. journal.items) journals.items) }
{
    let mut entries = Vec::new(alloc);
    for mut journal in journals {
        entries.append(&mut journal)?;
    }
    Ok(entries)
}

/// The journals of servers 1, 2, .. as one: all their entries, each once, by stamp and then by server.
pub fn merge(alloc: Global, journals: Vec<Vec<Entry>>) -> Result<Vec<Entry>, NoMemory>
    requires { AreServerJournals (map (λ journal. journal.items) journals.items) }
    ensures merge { IfOk result (λ merged. IsMergeOf (map (λ journal. journal.items) journals.items) merged.items) }
    ensures entries { IfOk result (λ merged. (server : ℕ)
        → filter (λ entry. entry.server == server) merged.items ≡ journal_at (map (λ journal. journal.items) journals.items) server) }
    ensures length { IfOk result (λ merged. length merged.items ≡ sum_by (λ journal. length journal.items) journals.items) }
{
    let mut merged = joined(alloc, journals)?;
    // The sort finds what rises already, and merges it. It keeps the order of what ties, so of equal stamps the lower
    // server stands first.
    merged.sort_by_key(|entry| entry.stamp)?;
    Ok(merged)
}
