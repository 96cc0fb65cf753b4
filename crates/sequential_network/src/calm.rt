//! Whether the servers of a network, whatever their kind, have something pending or on a link.
ghost use Rattle.std.specs.Prelude.{◌≡◌, ◌≤◌, ◌<◌, ◌↔◌, ℕ, [], length, IsTrue};
ghost use Rattle.sequential_network.specs.Links.{messages_at};
ghost use Rattle.sequential_network.specs.Seen.{calm_at, AreCalmCores};

use crate::server::Server;
use crate::servers::Servers;

impl<'a, P: Server<'a>> Servers<'a, P> {
    /// Whether a number is that of a server.
    pub fn has_server(&self, server: u32) -> bool
        ensures { IsTrue result ↔ ((1 ≤ server) × (server ≤ length self.now.places.items)) }
    {
        server != 0 && server as usize <= self.places.len()
    }

    /// Whether all links are empty and nothing is pending.
    pub fn is_quiet(&self) -> bool
        ensures { IsTrue result ↔ (((a b : ℕ) → messages_at self.now.links a b ≡ []) × AreCalmCores P.stepping self.now.places.items) }
    {
        self.links.are_empty() && are_calm(&self.places)
    }
}

/// Whether no server has anything pending.
fn are_calm<'a, P: Server<'a>>(places: &[P]) -> bool
    ensures { IsTrue result ↔ AreCalmCores P.stepping places.now }
{
    for i in 0..places.len() {
        if !is_calm_at(places, i) {
            return false;
        }
    }
    true
}

/// Whether the server at a place has nothing pending.
fn is_calm_at<'a, P: Server<'a>>(places: &[P], i: usize) -> bool
    requires { i < length places.now }
    ensures { result ≡ calm_at P.stepping places.now i }
{
    places[i].is_calm()
}
