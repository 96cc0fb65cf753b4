//! Where what a server sends on goes, by the pairs that it installed.
ghost use Rattle.std.specs.Prelude.{◌≡◌, ◌<◌, length, IfOk};
ghost use Rattle.net_tables.specs.Known.{known_filters, known_publications};
ghost use Rattle.net_tables.specs.Found.{publication_at};
ghost use Rattle.server_message.specs.Message.{IsLoad, represented};
ghost use Rattle.server_core.specs.Core.{CoreParts, installed_from};
ghost use Rattle.server_core.specs.Routed.{IsRoute, RoutesMessage};
ghost use Rattle.sequential_network.specs.Kept.{IsPlace};

use base::NoMemory;
use match_routes::{Forwarding, Route};
use net_tables::Tables;
use server_message::Load;
use std::alloc::Global;

/// Where the publication with a number goes by what a server installed.
pub fn routed(
    alloc: Global,
    tables: &Tables<'_>,
    forwarding: &Forwarding,
    number: u32,
) -> Result<Route, NoMemory>
    requires number { number < length (known_publications 1 tables.now.clients) }
    requires wide { forwarding.now.width ≡ length (known_filters tables.now.clients) }
    ensures { (core : CoreParts) → core.net ≡ tables.now → IsPlace core forwarding.now
        → IfOk result (IsRoute (publication_at tables.now number).notice (installed_from core)) }
{
    forwarding.route(alloc, &tables.matched(number))
}

/// Where a step routes what a message carries; nowhere where that is a change.
pub fn route(
    alloc: Global,
    tables: &Tables<'_>,
    forwarding: &Forwarding,
    load: &Load,
) -> Result<Route, NoMemory>
    requires load { IsLoad tables.now load.now }
    requires wide { forwarding.now.width ≡ length (known_filters tables.now.clients) }
    ensures { (core : CoreParts) → core.net ≡ tables.now → IsPlace core forwarding.now
        → IfOk result (λ r. RoutesMessage core (represented tables.now load.now) r) }
{
    match load {
        Load::Publication(number) => routed(alloc, tables, forwarding, *number),
        _ => Ok(Route::nowhere(alloc)),
    }
}
