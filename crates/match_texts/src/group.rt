//! The type of the ids of one pattern.
use base::NoMemory;
use std::alloc::Global;

/// Ids under the bytes of a pattern.
#[derive(Drop)]
pub struct Group {
    pub(crate) key: Vec<u8>,
    pub(crate) ids: Vec<u32>,
}

impl Group {
    ghost use Rattle.std.specs.Prelude.{◌≡◌, ◌↔◌, ◌∷◌, [], IfOk, OnOk, IsTrue};
    ghost use Rattle.match_index.specs.Pairs.{Same};
    ghost use Rattle.match_texts.specs.Groups.{group_pairs};

    /// A group of one id.
    pub(crate) fn with(alloc: Global, key: &[u8], id: u32) -> Result<Group, NoMemory>
        ensures key { IfOk result (λ group. group.key.items ≡ key.now) }
        ensures one { IfOk result (λ group. group_pairs group ≡ (key.now, id) ∷ []) }
    {
        let key = Vec::from_slice(alloc, key)?;
        let mut ids = Vec::new(alloc);
        ids.push(id)?;
        Ok(Group { key, ids })
    }

    /// Whether it is the group of these bytes.
    pub(crate) fn is_of(&self, key: &[u8]) -> bool
        ensures { IsTrue result ↔ (self.now.key.items ≡ key.now) }
    {
        self.key.as_slice() == key
    }

    /// Adds an id.
    pub(crate) fn add(&mut self, id: u32) -> Result<(), NoMemory>
        ensures key { self.new.key ≡ self.old.key }
        ensures added { OnOk result (Same (group_pairs self.new) ((self.old.key.items, id) ∷ group_pairs self.old)) }
    {
        self.ids.push(id)?;
        Ok(())
    }
}
