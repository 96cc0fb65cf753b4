//! What clients received, handed on by the cores of servers of which nothing else is wanted any more.
ghost use Rattle.std.specs.Prelude.{◌≡◌, ℕ, ◌-◌, ◌≤◌, List, length, set, slice_get, Some, IfOk};
ghost use Rattle.base.specs.Sets.{Has};
ghost use Rattle.filter_text.specs.Deliveries.{Delivery as DeliveryParts};
ghost use Rattle.net_model.specs.Nets.{home_of, of_clients};
ghost use Rattle.net_model.specs.Sound.{IsSound};
ghost use Rattle.net_tables.specs.Found.{known_deliveries};
ghost use Rattle.server_spec.specs.Session.{SessionParts};
ghost use Rattle.server_core.specs.Clients.{client_numbers};
ghost use Rattle.server_core.specs.Core.{CoreParts, without_inbox};
ghost use Rattle.sequential_network.specs.Inboxes.{HaveInboxes};
ghost use Rattle.sequential_network.specs.Stepping.{peers};

use base::NoMemory;
use net_inbox::{Deliveries, Inbox};
use net_model::Net;
use server_core::Core;
use std::alloc::Global;

/// The server of a client.
pub(crate) fn home(net: &Net, client: u32) -> u32
    requires { (1 ≤ client) × (client ≤ length net.now.clients) }
    ensures { result ≡ home_of net.now client }
{
    net.clients[client as usize - 1].home
}

/// The deliveries of the run, as the server of a client knows them, for one more owner.
fn shared(net: &Net, cores: &[Core<'_>], client: u32) -> Result<Deliveries, NoMemory>
    requires client { (1 ≤ client) × (client ≤ length net.now.clients) }
    requires home { (1 ≤ home_of net.now client) × (home_of net.now client ≤ length cores.now) }
    ensures { (core : CoreParts) → slice_get cores.now (home_of net.now client - 1) ≡ Some core
        → IfOk result (λ deliveries. deliveries ≡ known_deliveries core.net.clients) }
{
    let home = home(net, client);
    cores[home as usize - 1].tables().deliveries().share()
}

/// Hands on what a client received, whose inbox at its home is empty then.
fn take_inbox(net: &Net, deliveries: Deliveries, cores: &mut [Core<'_>], client: u32) -> Inbox
    requires client { (1 ≤ client) × (client ≤ length net.now.clients) }
    requires home { (1 ≤ home_of net.now client) × (home_of net.now client ≤ length cores.old) }
    requires lives { (core : CoreParts) → slice_get cores.old (home_of net.now client - 1) ≡ Some core → Has client (client_numbers core.clients) }
    requires deliveries { (core : CoreParts) → slice_get cores.old (home_of net.now client - 1) ≡ Some core → deliveries ≡ known_deliveries core.net.clients }
    ensures inbox { (core : CoreParts) (s : SessionParts) → slice_get cores.old (home_of net.now client - 1) ≡ Some core
        → Has s core.clients → s.client ≡ client → result ≡ s.inbox }
    ensures cores { (core : CoreParts) → slice_get cores.old (home_of net.now client - 1) ≡ Some core
        → (next : CoreParts) × (next ≡ without_inbox client core) × (cores.new ≡ set cores.old (home_of net.now client - 1) next) }
{
    let home = home(net, client);
    Inbox::of(deliveries, cores[home as usize - 1].take_inbox(client))
}

/// Hands on what each client received, whose inboxes are empty then.
pub(crate) fn take_inboxes(
    alloc: Global,
    net: &Net,
    cores: &mut [Core<'_>],
) -> Result<Vec<Inbox>, NoMemory>
    requires sound { IsSound net.now }
    requires inboxes { (delivered : ℕ → List DeliveryParts) × HaveInboxes peers net.now delivered 0 cores.old }
    ensures { IfOk result (λ lists. (delivered : ℕ → List DeliveryParts) → HaveInboxes peers net.now delivered 0 cores.old
        → lists.items ≡ of_clients net.now delivered) }
{
    let mut lists = Vec::with_capacity(alloc, net.clients.len())?;
    for place in 0..net.clients.len() as u32 {
        let deliveries = shared(net, cores, place + 1)?;
        lists.push(take_inbox(net, deliveries, cores, place + 1))?;
    }
    Ok(lists)
}
