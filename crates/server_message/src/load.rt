//! The type of what a message carries, by numbers.
ghost use Rattle.std.specs.Prelude.{◌≡◌, ◌<◌, ◌↔◌, ℕ, List, length, IsTrue};
ghost use Rattle.base.specs.Sets.{Has};
ghost use Rattle.server_message.specs.Message.{IsLoad};
ghost use Rattle.server_message.specs.Parts.{IsChange};

use crate::set_change::SetChange;
use filter_text::Semantics;
use net_tables::Tables;

/// What a message carries, by the numbers of its run.
#[derive(Drop)]
pub enum Load {
    /// The publication with a number.
    Publication(u32),
    /// A change of the filters that the sender sends on the link.
    Filters(SetChange),
    /// A change of the advertisements that the sender sends on the link.
    Adverts(SetChange),
}

impl Load {
    /// Whether it is of the run of these tables: its numbers are those of the net. Who takes a load from another thread asks
    /// this, since numbers don't show whose they are.
    pub fn is_of(&self, tables: &Tables<'_>) -> bool
        ensures { IsTrue result ↔ IsLoad tables.now self.now }
    {
        tables.catalogue().lemma_sound();
        match self {
            Load::Publication(number) => {
                (*number as usize) < tables.catalogue().publications().len()
            }
            Load::Filters(change) => change.is_below(tables.catalogue().filters().len() as u32),
            Load::Adverts(change) => {
                tables.semantics() == Semantics::Advertisement
                    && change.is_below(tables.catalogue().adverts().len() as u32)
            }
        }
    }
}
