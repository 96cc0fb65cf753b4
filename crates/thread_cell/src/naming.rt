//! Whether who is named by what is asked is there.
ghost use Rattle.std.specs.Prelude.{◌≡◌, ◌≤◌, ◌↔◌, length, IsTrue};
ghost use Rattle.base.specs.Sets.{Has};
ghost use Rattle.base_tree.specs.Tree.{IsServer, links_of};
ghost use Rattle.net_model.specs.Nets.{clients_of, topology_at};
ghost use Rattle.net_model.specs.Sound.{IsSound};

use net_model::Net;

/// Whether a client lives at a server.
pub(crate) fn lives_at(net: &Net, client: u32, server: u32) -> bool
    ensures { IsTrue result ↔ Has client (clients_of net.now server) }
{
    if client == 0 {
        return false;
    }
    let place = client as usize - 1;
    if place >= net.clients.len() {
        return false;
    }
    net.clients[place].home == server
}

/// Whether a number is in a list.
pub(crate) fn is_among(number: u32, list: &[u32]) -> bool
    ensures { IsTrue result ↔ Has number list.now }
{
    list.contains(&number)
}

/// Whether two servers are neighbours in the tree of a phase.
pub(crate) fn are_neighbours(net: &Net, phase: u32, server: u32, other: u32) -> bool
    requires sound { IsSound net.now }
    requires server { IsServer (topology_at net.now phase) server }
    ensures { IsTrue result ↔ Has other (links_of (topology_at net.now phase) server) }
{
    is_among(other, net.tree(phase).neighbours(server))
}
