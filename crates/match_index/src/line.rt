//! The type of a line: ids under keys, in the order of the keys.
use crate::key::{LineKey, Sought};
use crate::places::{below, rank, upto};
use crate::sides::Sides;
use base::NoMemory;
use std::alloc::Global;
use std::marker::Model;

/// Ids, each with its key: the keys rise, and under one key the ids do. The keys lie side by side, and so do the ids, so that
/// a search reads keys alone, and the ids of many keys are appended by one copy; a pair more or less moves the later ones.
#[derive(Drop)]
pub struct Line<K: LineKey> {
    keys: Vec<K>,
    ids: Vec<u32>,
}

impl<K: LineKey> Model for Line<K> {
    ghost use Rattle.std.specs.Prelude.{◌≡◌, List, ℕ, length, zip};
    ghost use Rattle.match_index.specs.Lines.{HaveSortedKeys};

    ghost Value = { List (K × ℕ) };

    ghost view = { λ line. zip line.keys.items line.ids.items };

    ghost invariant = { λ line. (length line.keys.items ≡ length line.ids.items) × HaveSortedKeys K.order (zip line.keys.items line.ids.items) };
}

impl<K: LineKey> Line<K> {
    ghost use Rattle.std.specs.Prelude.{◌≡◌, ◌++◌, ◌∷◌, [], OnOk, OnErr};
    ghost use Rattle.match_index.specs.Pairs.{Same, KeepsBeginning};
    ghost use Rattle.match_index.specs.Lines.{ids_with, on_side};

    /// No ids. It takes no memory.
    pub fn new(alloc: Global) -> Self
        ensures { result ≡ [] }
    {
        Line {
            keys: Vec::new(alloc),
            ids: Vec::new(alloc),
        }
    }

    /// Puts an id under a key.
    pub fn put(&mut self, key: K, id: u32) -> Result<(), NoMemory>
    where
        K: Drop,
        ensures added { OnOk result (Same self.new ((key, id) ∷ self.old)) }
        ensures err { OnErr result (self.new ≡ self.old) }
    {
        let i = rank(&self.keys, &self.ids, &key, id);
        self.keys.reserve(1)?;
        self.ids.reserve(1)?;
        if self.keys.insert(i, key).is_err() || self.ids.insert(i, id).is_err() {
            unreachable!();
        }
        Ok(())
    }

    /// Appends the ids of the keys on some sides of a key.
    pub fn meet<Q: Sought<K>>(
        &self,
        sides: Sides,
        key: Q,
        found: &mut Vec<u32>,
    ) -> Result<(), NoMemory>
        ensures ok { OnOk result (found.new.items ≡ found.old.items ++ ids_with (λ k. on_side sides (K.order k (Q.meant key))) self.now) }
        ensures begins { KeepsBeginning found.old.items found.new.items }
    {
        let least = below(&self.keys, key);
        let most = upto(&self.keys, least, key);
        append_some(found, sides.below, &self.ids[..least])?;
        append_some(found, sides.equal, &self.ids[least..most])?;
        append_some(found, sides.above, &self.ids[most..])
    }
}

ghost use Rattle.std.specs.Prelude.{◌≡◌, ◌++◌, [], cond, OnOk};
ghost use Rattle.match_index.specs.Pairs.{KeepsBeginning};

/// Appends ids by one copy, if they are asked for.
fn append_some(found: &mut Vec<u32>, asked: bool, ids: &[u32]) -> Result<(), NoMemory>
    ensures ok { OnOk result (found.new.items ≡ found.old.items ++ cond asked ids.now []) }
    ensures begins { KeepsBeginning found.old.items found.new.items }
{
    if asked {
        found.extend_from_slice(ids)?;
    }
    Ok(())
}
