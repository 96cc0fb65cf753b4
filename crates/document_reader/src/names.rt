//! A table of names with their places, found by hash.
ghost use Rattle.std.specs.Prelude.{◌≡◌, ◌∷◌, ◌++◌, [], None, OnOk, OnErr};
ghost use Rattle.document_reader.specs.Drafts.{name_place};

use base::NoMemory;
use indexmap::IndexSet;
use std::alloc::Global;
use std::marker::Model;

/// Names that differ, each found by its hash; contracts see the list in the order of their giving.
#[derive(Drop)]
pub struct Names {
    names: IndexSet<Vec<u8>>,
}

impl Model for Names {
    ghost use Rattle.std.specs.Prelude.{List, ℕ, map};

    ghost Value = { List (List ℕ) };

    ghost view = { λ n. map (λ k. k.items) n.names.keys };
}

impl Names {
    /// No name.
    pub fn new(alloc: Global) -> Names
        ensures { result ≡ [] }
    {
        Names {
            names: IndexSet::new(alloc),
        }
    }

    /// The place of a name, from 0.
    pub fn place(&self, name: &[u8]) -> Option<usize>
        ensures { result ≡ name_place self.now name.now }
    {
        self.names.get_index_of(name)
    }

    /// One name more, which is not there.
    pub fn add(&mut self, alloc: Global, name: &[u8]) -> Result<(), NoMemory>
        requires { name_place self.old name.now ≡ None }
        ensures ok { OnOk result (self.new ≡ self.old ++ name.now ∷ []) }
        ensures err { OnErr result (self.new ≡ self.old) }
    {
        let Ok(key) = name.to_vec(alloc) else {
            return Err(NoMemory);
        };
        let Ok(_added) = self.names.insert(key) else {
            return Err(NoMemory);
        };
        Ok(())
    }
}
