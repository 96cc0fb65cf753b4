//! The type of the patterns of one operator, with their marks.
ghost use Rattle.std.specs.Prelude.{◌≡◌, ◌<◌, IfSome, length, slice_index_or};

use crate::group::Group;
use crate::marks::{Mark, mark_of};
use crate::meet::{meet_parts, meet_prefixes, meet_suffixes};
use base::NoMemory;
use std::alloc::Global;
use std::collections::BTreeMap;
use std::marker::Model;

/// The bytes of a pattern.
type Key = Vec<u8>;

/// Ids under the bytes of patterns, each pattern with its marks. The marks lie side by side, so that a text goes over them
/// alone.
#[derive(Drop)]
pub(crate) struct Marked {
    marks: Vec<Mark>,
    groups: Vec<Group>,
    /// Where the group of a pattern stands. It only saves a search: what it says is looked at before it is believed.
    places: BTreeMap<Key, usize>,
}

impl Model for Marked {
    ghost use Rattle.std.specs.Prelude.{◌≡◌, List, ℕ};
    ghost use Rattle.match_texts.specs.Groups.{marks_of, groups_pairs};

    ghost Value = { List (List ℕ × ℕ) };

    ghost view = { λ marked. groups_pairs marked.groups.items };

    ghost invariant = { λ marked. marked.marks.items ≡ marks_of marked.groups.items };
}

/// The place of the group of these bytes, where it is known.
fn place(places: &BTreeMap<Key, usize>, groups: &[Group], key: &[u8]) -> Option<usize>
    ensures { IfSome result (λ i. (i < length groups.now) × ((d : _) → (slice_index_or groups.now i d).key.items ≡ key.now)) }
{
    let Some(i) = places.get(key) else {
        return None;
    };
    let i = *i;
    if i < groups.len() && groups[i].is_of(key) {
        Some(i)
    } else {
        None
    }
}

impl Marked {
    ghost use Rattle.std.specs.Prelude.{◌≡◌, ◌++◌, ◌∷◌, [], OnOk};
    ghost use Rattle.filter_constraints.specs.Bytes.{has_prefix, has_suffix, has_part};
    ghost use Rattle.match_index.specs.Pairs.{Same};
    ghost use Rattle.match_index.specs.Lines.{ids_with};

    /// No patterns. It takes no memory.
    pub(crate) fn new(alloc: Global) -> Marked
        ensures { result ≡ [] }
    {
        Marked {
            marks: Vec::new(alloc),
            groups: Vec::new(alloc),
            places: BTreeMap::new(alloc),
        }
    }

    /// Puts an id under the bytes of a pattern.
    pub(crate) fn put(&mut self, alloc: Global, key: &[u8], id: u32) -> Result<(), NoMemory>
        ensures { OnOk result (Same self.new ((key.now, id) ∷ self.old)) }
    {
        match place(&self.places, &self.groups, key) {
            Some(i) => self.groups[i].add(id),
            None => {
                let group = Group::with(alloc, key, id)?;
                let name = Vec::from_slice(alloc, key)?;
                self.marks.reserve(1)?;
                self.places.insert(name, self.groups.len())?;
                self.groups.push(group)?;
                self.marks.push_reserved(mark_of(key));
                Ok(())
            }
        }
    }

    /// Appends the ids of the patterns that a text begins with.
    pub(crate) fn meet_prefixes(&self, x: &[u8], found: &mut Vec<u32>) -> Result<(), NoMemory>
        ensures { OnOk result (found.new.items ≡ found.old.items ++ ids_with (λ k. has_prefix x.now k) self.now) }
    {
        meet_prefixes(&self.marks, &self.groups, x, found)
    }

    /// Appends the ids of the patterns that a text ends with.
    pub(crate) fn meet_suffixes(&self, x: &[u8], found: &mut Vec<u32>) -> Result<(), NoMemory>
        ensures { OnOk result (found.new.items ≡ found.old.items ++ ids_with (λ k. has_suffix x.now k) self.now) }
    {
        meet_suffixes(&self.marks, &self.groups, x, found)
    }

    /// Appends the ids of the patterns that stand in a text.
    pub(crate) fn meet_parts(&self, x: &[u8], found: &mut Vec<u32>) -> Result<(), NoMemory>
        ensures { OnOk result (found.new.items ≡ found.old.items ++ ids_with (λ k. has_part x.now k) self.now) }
    {
        if self.marks.is_empty() {
            return Ok(());
        }
        meet_parts(&self.marks, &self.groups, x, found)
    }
}
