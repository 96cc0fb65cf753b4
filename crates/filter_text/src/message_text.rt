//! What one server sends to another over a link.
use crate::id::Id;
use crate::lists::{Adverts, Filters};
use filter_types::Notice;

/// A message: a notice with the id of its publication, or a change of the filters or of the advertisements that the
/// receiver holds from the sender, which takes out `out` and then adds `add`.
#[derive(Drop)]
pub enum MessageText {
    /// A notice with the id of its publication.
    Notice { id: Id, notice: Notice },
    /// A change of filters.
    Subs { out: Filters, add: Filters },
    /// A change of advertisements.
    Advs { out: Adverts, add: Adverts },
}
