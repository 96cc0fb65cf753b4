//! What the clients of a network of whatever kind received, handed on where nothing else is wanted any more.
ghost use Rattle.std.specs.Prelude.{◌≡◌, ℕ, ◌-◌, ◌≤◌, List, length, set, slice_get, Some, IfOk};
ghost use Rattle.base.specs.Sets.{Has};
ghost use Rattle.filter_text.specs.Deliveries.{Delivery as DeliveryParts};
ghost use Rattle.net_model.specs.Nets.{home_of, of_clients};
ghost use Rattle.net_model.specs.Sound.{IsSound};
ghost use Rattle.net_tables.specs.Found.{known_deliveries};
ghost use Rattle.server_spec.specs.Session.{SessionParts};
ghost use Rattle.server_core.specs.Clients.{client_numbers};
ghost use Rattle.server_core.specs.Core.{without_inbox};
ghost use Rattle.sequential_network.specs.Inboxes.{HaveInboxes};

use crate::making::home;
use crate::server::Server;
use crate::servers::Servers;
use base::NoMemory;
use net_inbox::{Deliveries, Inbox};
use net_model::Net;

/// Hands on what a client received, whose inbox at its home is empty then.
fn take_inbox<'a, P: Server<'a>>(
    net: &Net,
    deliveries: Deliveries,
    places: &mut Vec<P>,
    client: u32,
) -> Inbox
    requires client { (1 ≤ client) × (client ≤ length net.now.clients) }
    requires home { (1 ≤ home_of net.now client) × (home_of net.now client ≤ length places.old.items) }
    requires lives { (core : P) → slice_get places.old.items (home_of net.now client - 1) ≡ Some core
        → Has client (client_numbers (P.stepping.core core).clients) }
    requires deliveries { (core : P) → slice_get places.old.items (home_of net.now client - 1) ≡ Some core
        → deliveries ≡ known_deliveries (P.stepping.core core).net.clients }
    ensures inbox { (core : P) (s : SessionParts) → slice_get places.old.items (home_of net.now client - 1) ≡ Some core
        → Has s (P.stepping.core core).clients → s.client ≡ client → result ≡ s.inbox }
    ensures places { (core : P) → slice_get places.old.items (home_of net.now client - 1) ≡ Some core
        → (next : P) × (P.stepping.core next ≡ without_inbox client (P.stepping.core core))
        × (places.new.items ≡ set places.old.items (home_of net.now client - 1) next) }
{
    let home = home(net, client);
    Inbox::of(deliveries, places[home as usize - 1].take_inbox(client))
}

/// Hands on what each client received, whose inboxes are empty then. All share the deliveries of the run.
pub(crate) fn take_inboxes<'a, P: Server<'a>>(
    net: &Net,
    deliveries: &Deliveries,
    servers: &mut Servers<'a, P>,
) -> Result<Vec<Inbox>, NoMemory>
    requires sound { IsSound net.now }
    requires deliveries { deliveries.now ≡ known_deliveries net.now.clients }
    requires inboxes { (delivered : ℕ → List DeliveryParts) × HaveInboxes P.stepping net.now delivered 0 servers.old.places.items }
    ensures received { IfOk result (λ lists. (delivered : ℕ → List DeliveryParts) → HaveInboxes P.stepping net.now delivered 0 servers.old.places.items
        → lists.items ≡ of_clients net.now delivered) }
    ensures journal { servers.new.journal ≡ servers.old.journal }
{
    let mut lists = Vec::with_capacity(servers.alloc, net.clients.len())?;
    for place in 0..net.clients.len() as u32 {
        let deliveries = deliveries.share()?;
        lists.push(take_inbox(net, deliveries, &mut servers.places, place + 1))?;
    }
    Ok(lists)
}
