//! Finds the phase of the next command, of a cell or of several.
ghost use Rattle.std.specs.Prelude.{◌≡◌, ℕ, ◌⊎◌, IfSome, IfNone};
ghost use Rattle.base.specs.Sets.{Has};
ghost use Rattle.net_model.specs.Nets.{clients_of};
ghost use Rattle.net_model.specs.Sound.{IsSound};
ghost use Rattle.server_core.specs.Clients.{client_numbers};
ghost use Rattle.thread_cell.specs.Kept.{IsSomeServer};
ghost use Rattle.thread_cell.specs.Turns.{HasCommand};
ghost use Rattle.thread_cell.specs.Entered.{AreThrough};
ghost use Rattle.thread_cell.specs.Coming.{IsNoLater, IsFrom, AreFrom, IsOfSome, HaveCommand};

use crate::cell::Cell;
use net_model::Net;
use server_core::Core;

/// The earlier of two phases, where there are some.
fn earlier(one: Option<u32>, other: Option<u32>) -> Option<u32>
    ensures one { IsNoLater result one }
    ensures other { IsNoLater result other }
    ensures either { (result ≡ one) ⊎ (result ≡ other) }
{
    match (one, other) {
        (Some(a), Some(b)) if a <= b => Some(a),
        (Some(a), None) => Some(a),
        _ => other,
    }
}

/// The phase of the next command of a client that lives here.
fn next_at(core: &Core<'_>, client: u32) -> Option<u32>
    requires lives { Has client (client_numbers core.now.clients) }
    requires stands { IsSomeServer core.now }
    ensures from { IsFrom result client core.now.clients }
    ensures own { IfSome result (λ phase. HasCommand core.now client phase) }
{
    match core.session(client).next() {
        Some((own, _)) => Some(own),
        None => None,
    }
}

/// The least phase of the next commands of a server's clients.
pub(crate) fn next_of(core: &Core<'_>, net: &Net, server: u32) -> Option<u32>
    requires stands { IsSomeServer core.now }
    requires sound { IsSound net.now }
    requires clients { clients_of net.now server ≡ client_numbers core.now.clients }
    ensures from { AreFrom result core.now.clients }
    ensures own { IsOfSome result core.now }
{
    let mut least = None;
    for place in 0..net.clients.len() {
        if net.clients[place].home == server {
            least = earlier(least, next_at(core, place as u32 + 1));
        }
    }
    least
}

/// The least phase of the next commands of all clients of some cells; `None` where no command is left.
pub fn next_phase(cells: &[Cell<'_>]) -> Option<u32>
    ensures none { IfNone result ((phase : ℕ) → AreThrough phase cells.now) }
    ensures some { IfSome result (λ phase. AreThrough phase cells.now) }
    ensures command { IfSome result (HaveCommand cells.now) }
{
    let mut least = None;
    for cell in cells {
        least = earlier(least, cell.next_phase());
    }
    least
}
