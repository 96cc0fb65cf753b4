//! The type of a route: the interfaces to which a notification goes.
use std::alloc::Global;
use std::marker::Model;

/// The rising list of the interfaces that a notice goes to.
#[derive(Drop)]
pub struct Route {
    interfaces: Vec<u32>,
}

impl Model for Route {
    ghost use Rattle.std.specs.Prelude.{List, ℕ};

    ghost Value = { List ℕ };

    ghost view = { λ route. route.interfaces.items };
}

impl Route {
    ghost use Rattle.std.specs.Prelude.{◌≡◌, []};

    /// The route to no interface.
    pub fn nowhere(alloc: Global) -> Route
        ensures { result ≡ [] }
    {
        Route {
            interfaces: Vec::new(alloc),
        }
    }

    /// The interfaces, rising.
    pub fn interfaces(&self) -> &[u32]
        ensures { result.now ≡ self.now }
    {
        &self.interfaces
    }

    /// The route to these interfaces.
    pub(crate) fn to(interfaces: Vec<u32>) -> Route
        ensures { result ≡ interfaces.items }
    {
        Route { interfaces }
    }
}
