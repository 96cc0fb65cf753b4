//! The type of what is held from one interface of a server.
ghost use Rattle.std.specs.Prelude.{◌≡◌, length};
ghost use Rattle.base_order.specs.Order.{picked};
ghost use Rattle.net_tables.specs.Known.{known_filters, known_adverts};
ghost use Rattle.server_control.specs.Held.{net_held};

use base_bits::Row;
use net_tables::Tables;
use std::marker::Model;

/// An interface with the filters and the advertisements that are held from it, by their numbers.
///
/// Contracts see the net whose run it is in, and what the numbers represent there.
#[derive(Drop)]
pub struct HeldLink<'a> {
    tables: &'a Tables<'a>,
    link: u32,
    filters: Row,
    adverts: Row,
}

impl<'a> Model for HeldLink<'a> {
    ghost use Rattle.server_control.specs.Held.{NetHeld, net_held, AreWide};

    ghost Value = { NetHeld };

    ghost view = { λ h. net_held h.tables.now h.link h.filters.members h.adverts.members };

    ghost invariant = { λ h. AreWide h.tables.now h.filters h.adverts };
}

impl<'a> HeldLink<'a> {
    /// From an interface the filters and the advertisements with these numbers are held. It takes no memory.
    pub fn of(tables: &'a Tables<'a>, link: u32, filters: Row, adverts: Row) -> HeldLink<'a>
        requires filters { filters.width ≡ length (known_filters tables.now.clients) }
        requires adverts { adverts.width ≡ length (known_adverts tables.now.clients) }
        ensures { result ≡ net_held tables.now link filters.members adverts.members }
    {
        HeldLink {
            tables,
            link,
            filters,
            adverts,
        }
    }

    /// The interface.
    pub fn link(&self) -> u32
        ensures { result ≡ self.now.held.link }
    {
        self.link
    }

    /// The numbers of the filters.
    pub fn filters(&self) -> &Row
        ensures represents { picked (known_filters self.now.net.clients) result.now.members ≡ self.now.held.filters }
        ensures width { result.now.width ≡ length (known_filters self.now.net.clients) }
    {
        &self.filters
    }

    /// The numbers of the advertisements.
    pub fn adverts(&self) -> &Row
        ensures represents { picked (known_adverts self.now.net.clients) result.now.members ≡ self.now.held.adverts }
        ensures width { result.now.width ≡ length (known_adverts self.now.net.clients) }
    {
        &self.adverts
    }
}
