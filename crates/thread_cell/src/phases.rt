//! Finds what is left of the phases of a net at a server.
ghost use Rattle.std.specs.Prelude.{◌≡◌, ◌↔◌, IsTrue};
ghost use Rattle.base.specs.Sets.{Has};
ghost use Rattle.net_model.specs.Nets.{clients_of};
ghost use Rattle.net_model.specs.Sound.{IsSound};
ghost use Rattle.server_core.specs.Clients.{client_numbers};
ghost use Rattle.thread_cell.specs.Kept.{IsSomeServer};
ghost use Rattle.thread_cell.specs.Cell.{HasNoneBelow, IsPast};

use net_model::Net;
use server_core::Core;

/// Whether the next command of a client that lives here is of this phase or a later one, or there is none.
fn is_past(core: &Core<'_>, client: u32, phase: u32) -> bool
    requires lives { Has client (client_numbers core.now.clients) }
    requires stands { IsSomeServer core.now }
    ensures { IsTrue result ↔ IsPast phase client core.now.clients }
{
    match core.session(client).next() {
        Some((own, _)) => own >= phase,
        None => true,
    }
}

/// Whether no client of a server has a command of a phase below this one left.
pub(crate) fn is_through(core: &Core<'_>, net: &Net, server: u32, phase: u32) -> bool
    requires stands { IsSomeServer core.now }
    requires sound { IsSound net.now }
    requires clients { clients_of net.now server ≡ client_numbers core.now.clients }
    ensures { IsTrue result ↔ HasNoneBelow phase core.now.clients }
{
    for place in 0..net.clients.len() {
        if net.clients[place].home == server && !is_past(core, place as u32 + 1, phase) {
            return false;
        }
    }
    true
}
