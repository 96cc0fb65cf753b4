//! The type of the union of what all clients of a server have.
ghost use Rattle.std.specs.Prelude.{◌≡◌, ◌⊎◌, ◌↔◌, [], length, List, IfOk};
ghost use Rattle.base.specs.Sets.{Has};
ghost use Rattle.filter_constraints.specs.Constraint.{ConstraintParts};
ghost use Rattle.base_order.specs.Order.{picked};
ghost use Rattle.net_tables.specs.Known.{known_filters, known_adverts};

use base::NoMemory;
use base_bits::Row;
use net_tables::Tables;
use server_control::HeldLink;
use std::alloc::Global;
use std::marker::Model;

/// What all clients of a server have together, by its numbers.
///
/// Contracts see the net whose run it is in, and what the numbers represent there.
#[derive(Drop)]
pub struct Home<'a> {
    tables: &'a Tables<'a>,
    filters: Row,
    adverts: Row,
}

impl<'a> Model for Home<'a> {
    ghost use Rattle.server_control.specs.Held.{AreWide};
    ghost use Rattle.server_flow.specs.Homes.{NetHome, net_home};

    ghost Value = { NetHome };

    ghost view = { λ h. net_home h.tables.now h.filters.members h.adverts.members };

    ghost invariant = { λ h. AreWide h.tables.now h.filters h.adverts };
}

impl<'a> Home<'a> {
    /// Nothing. All memory is taken here.
    pub fn new(alloc: Global, tables: &'a Tables<'a>) -> Result<Home<'a>, NoMemory>
        ensures net { IfOk result (λ home. home.net ≡ tables.now) }
        ensures filters { IfOk result (λ home. home.home.filters ≡ []) }
        ensures adverts { IfOk result (λ home. home.home.adverts ≡ []) }
    {
        let filters = Row::new(alloc, tables.filters().count())?;
        let adverts = Row::new(alloc, tables.adverts().count())?;
        Ok(Home {
            tables,
            filters,
            adverts,
        })
    }

    /// What is held from a client is part of it too. It takes no memory.
    pub fn put(&mut self, held: &HeldLink<'a>)
        requires { held.now.net ≡ self.old.net }
        ensures net { self.new.net ≡ self.old.net }
        ensures filters { (x : List ConstraintParts) → Has x self.new.home.filters ↔ (Has x self.old.home.filters ⊎ Has x held.now.held.filters) }
        ensures adverts { (x : List ConstraintParts) → Has x self.new.home.adverts ↔ (Has x self.old.home.adverts ⊎ Has x held.now.held.adverts) }
    {
        self.filters.insert_all(held.filters());
        self.adverts.insert_all(held.adverts());
    }

    /// The numbers of the filters.
    pub fn filters(&self) -> &Row
        ensures represents { picked (known_filters self.now.net.clients) result.now.members ≡ self.now.home.filters }
        ensures width { result.now.width ≡ length (known_filters self.now.net.clients) }
    {
        &self.filters
    }

    /// The numbers of the advertisements.
    pub fn adverts(&self) -> &Row
        ensures represents { picked (known_adverts self.now.net.clients) result.now.members ≡ self.now.home.adverts }
        ensures width { result.now.width ≡ length (known_adverts self.now.net.clients) }
    {
        &self.adverts
    }
}
