//! A publication that goes on by its route, and is delivered.
ghost use Rattle.std.specs.Prelude.{◌≡◌, ◌≤◌, ◌<◌, ℕ, ◌==◌, ◌&&◌, not, map, length, IfOk, OnOk, OnErr};
ghost use Rattle.std.specs.List.Sorted.{IsStrictlyIncreasing};
ghost use Rattle.law_routing.specs.Server.{is_among, is_link};
ghost use Rattle.net_inbox.specs.Inbox.{delivery_at};
ghost use Rattle.net_tables.specs.Known.{known_publications};
ghost use Rattle.net_tables.specs.Found.{known_deliveries, publication_at};
ghost use Rattle.server_spec.specs.Inbox.{IsDelivery};
ghost use Rattle.server_message.specs.Message.{represented};
ghost use Rattle.server_core.specs.Clients.{bare, clients_parts, HaveRoom, StayPlanned};
ghost use Rattle.server_core.specs.Acting.{IsSpread, sent_on, links_on, clients_on, delivered};

use crate::clients::Clients;
use base::NoMemory;
use law_routing::{client_of, is_link};
use net_tables::Tables;
use server_message::{Load, Message, Sending};
use std::alloc::Global;

/// Sends the publication with a number on and delivers it, by its route.
pub fn spread<'a>(
    alloc: Global,
    tables: &'a Tables<'a>,
    links: &[u32],
    clients: &mut Clients<'a>,
    from: u32,
    number: u32,
    route: &[u32],
) -> Result<Vec<Sending<'a>>, NoMemory>
    requires rising { IsStrictlyIncreasing route.now }
    requires net { clients.old.net ≡ tables.now }
    requires known { number < length (known_publications 1 tables.now.clients) }
    ensures spread { IfOk result (λ sent. IsSpread tables.now from (publication_at tables.now number).id.publisher
        (publication_at tables.now number).id.ordinal (publication_at tables.now number).notice route.now links.now
        clients.old.sessions clients.new.sessions sent.items) }
    ensures net { clients.new.net ≡ clients.old.net }
    ensures planned { StayPlanned clients.old.sessions clients.new.sessions }
    ensures err { OnErr result (map bare clients.new.sessions ≡ map bare clients.old.sessions) }
{
    let sent = sendings(alloc, tables, links, from, number, route)?;
    make_room(clients, route)?;
    tables.lemma_delivered(number);
    deliver(clients, number, route);
    Ok(sent)
}

/// The publication with a number on its way to the links of a route but one.
fn sendings<'a>(
    alloc: Global,
    tables: &'a Tables<'a>,
    links: &[u32],
    from: u32,
    number: u32,
    route: &[u32],
) -> Result<Vec<Sending<'a>>, NoMemory>
    requires { number < length (known_publications 1 tables.now.clients) }
    ensures { IfOk result (λ sent. sent.items ≡ sent_on tables.now (represented tables.now (Load.Publication number)) (links_on links.now from route.now)) }
{
    let mut sent = Vec::new(alloc);
    for link in route {
        if goes_on(links, from, *link) {
            let message = Message::of(tables, Load::Publication(number));
            sent.push(Sending { to: *link, message })?;
        }
    }
    Ok(sent)
}

/// Whether a message goes on to an interface: it is one of the links, and not the one that the message came from.
fn goes_on(links: &[u32], from: u32, interface: u32) -> bool
    ensures { result ≡ is_link interface && (not (interface == from) && is_among interface links.now) }
{
    is_link(interface) && interface != from && links.contains(&interface)
}

/// Makes room for one more delivery to each client of a route.
fn make_room<'a>(clients: &mut Clients<'a>, route: &[u32]) -> Result<(), NoMemory>
    ensures room { OnOk result (HaveRoom (clients_on route.now) clients.new.sessions) }
    ensures net { clients.new.net ≡ clients.old.net }
    ensures planned { StayPlanned clients.old.sessions clients.new.sessions }
    ensures bare { map bare clients.new.sessions ≡ map bare clients.old.sessions }
{
    for interface in route {
        if is_link(*interface) {
            continue;
        }
        clients.make_room(client_of(*interface))?;
    }
    Ok(())
}

/// Delivers the publication with a number to each client of a route, all of which have room for it. It takes no memory.
fn deliver<'a>(clients: &mut Clients<'a>, number: u32, route: &[u32])
    requires rising { IsStrictlyIncreasing route.now }
    requires room { HaveRoom (clients_on route.now) clients.old.sessions }
    requires text { IsDelivery (delivery_at (known_deliveries clients.old.net.clients) number) }
    ensures { clients.new ≡ clients_parts clients.old.net (delivered (clients_on route.now)
        (delivery_at (known_deliveries clients.old.net.clients) number) clients.old.sessions) }
{
    for interface in route {
        if is_link(*interface) {
            continue;
        }
        clients.deliver(client_of(*interface), number);
    }
}
