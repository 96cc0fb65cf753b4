//! Lists that contracts see whole: of filters, of advertisements, of bytes.
use base::NoMemory;
use filter_types::{Advert, Filter};
use std::alloc::Global;
use std::marker::Model;

/// A list; contracts see it.
#[derive(Drop)]
pub struct Lists<L> {
    lists: Vec<L>,
}

/// A list of filters; contracts see the list.
pub type Filters = Lists<Filter>;

/// A list of advertisements; contracts see the list.
pub type Adverts = Lists<Advert>;

/// Bytes of a text; contracts see the list.
pub type Bytes = Lists<u8>;

impl<L> Model for Lists<L> {
    ghost use Rattle.std.specs.Prelude.{List};

    ghost Value = { List L };

    ghost view = { λ l. l.lists.items };
}

impl<L> Lists<L> {
    ghost use Rattle.std.specs.Prelude.{◌≡◌, []};

    /// No member. It takes no memory.
    pub fn none(alloc: Global) -> Self
        ensures { result ≡ [] }
    {
        Lists {
            lists: Vec::new(alloc),
        }
    }

    /// The list of these.
    pub fn of(lists: Vec<L>) -> Self
        ensures { result ≡ lists.items }
    {
        Lists { lists }
    }

    /// The members of the list.
    pub fn as_slice(&self) -> &[L]
        ensures { result.now ≡ self.now }
    {
        &self.lists
    }

    /// The members of the list, given away.
    pub fn into_vec(self) -> Vec<L>
        ensures { result.items ≡ self }
    {
        self.lists
    }
}

impl<L: Drop> Lists<L> {
    ghost use Rattle.std.specs.Prelude.{◌≡◌, ◌∷◌, ◌++◌, [], OnOk};

    /// One member more, at the end.
    pub fn push(&mut self, member: L) -> Result<(), NoMemory>
        ensures { OnOk result (self.new ≡ self.old ++ member ∷ []) }
    {
        self.lists.push(member)?;
        Ok(())
    }
}
