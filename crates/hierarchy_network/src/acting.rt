//! What a message does at a server of a hierarchy.
ghost use Rattle.std.specs.Prelude.{◌≡◌, ◌<◌, length, map, IfOk, OnErr};
ghost use Rattle.std.specs.List.Sorted.{IsStrictlyIncreasing};
ghost use Rattle.base.specs.Sets.{Has};
ghost use Rattle.net_tables.specs.Known.{known_publications};
ghost use Rattle.net_tables.specs.Found.{publication_at};
ghost use Rattle.server_message.specs.Message.{IsLoad, represented};
ghost use Rattle.server_core.specs.Clients.{bare, StayPlanned};
ghost use Rattle.server_core.specs.Acting.{IsRouted, sent_on};
ghost use Rattle.server_core.specs.Next.{CanGo};
ghost use Rattle.hierarchy_network.specs.Acting.{sent_up, goes, links_from, IsSpreadUp, HasActedUp, HasGoneUp};

use base::NoMemory;
use net_tables::Tables;
use server_core::{Clients, Ledger, Outgoing, act_on, spread};
use server_message::{Load, Message, Sending};
use server_session::Planned;
use std::alloc::Global;

/// Drops what is for other neighbours than the master. It takes no memory.
fn keep_up<'a>(sent: &mut Vec<Sending<'a>>, master: u32)
    ensures { sent.new.items ≡ sent_up master sent.old.items }
{
    sent.retain(|one| one.to == master);
}

/// Whether a notice from an interface goes on to a link.
fn goes_on(master: u32, from: u32, route: &[u32], link: u32) -> bool
    ensures { result ≡ goes master from route.now link }
{
    link != from && (link == master || route.contains(&link))
}

/// The publication with a number on its way to the master and to the links of a route, but not back.
fn onward<'a>(
    alloc: Global,
    tables: &'a Tables<'a>,
    links: &[u32],
    master: u32,
    from: u32,
    number: u32,
    route: &[u32],
) -> Result<Vec<Sending<'a>>, NoMemory>
    requires { number < length (known_publications 1 tables.now.clients) }
    ensures { IfOk result (λ sent. sent.items
        ≡ sent_on tables.now (represented tables.now (Load.Publication number)) (links_from master from route.now links.now)) }
{
    let mut sent = Vec::new(alloc);
    for link in links {
        if goes_on(master, from, route, *link) {
            let message = Message::of(tables, Load::Publication(number));
            sent.push(Sending { to: *link, message })?;
        }
    }
    Ok(sent)
}

/// Sends a publication on, to the master and by its route, and delivers it by its route.
fn spread_up<'a>(
    alloc: Global,
    ledger: &Ledger<'a>,
    master: u32,
    clients: &mut Clients<'a>,
    from: u32,
    outgoing: Outgoing<'_>,
) -> Result<Vec<Sending<'a>>, NoMemory>
    requires rising { IsStrictlyIncreasing outgoing.route.now }
    requires net { clients.old.net ≡ ledger.now.net }
    requires known { outgoing.number < length (known_publications 1 ledger.now.net.clients) }
    ensures spread { IfOk result (λ sent. IsSpreadUp ledger.now.net master from (publication_at ledger.now.net outgoing.entry.number).id.publisher
        (publication_at ledger.now.net outgoing.entry.number).id.ordinal (publication_at ledger.now.net outgoing.entry.number).notice outgoing.entry.route.now
        ledger.now.control.links clients.old.sessions clients.new.sessions sent.items) }
    ensures net { clients.new.net ≡ clients.old.net }
    ensures planned { StayPlanned clients.old.sessions clients.new.sessions }
    ensures err { OnErr result (map bare clients.new.sessions ≡ map bare clients.old.sessions) }
{
    let Outgoing { number, route } = outgoing;
    let tables = ledger.tables();
    let sent = onward(alloc, tables, ledger.links(), master, from, number, route)?;
    spread(alloc, tables, &[], clients, from, number, route)?;
    Ok(sent)
}

/// What a message does that came from an interface with this load. A publication goes to the master, and by its route. The
/// answer is the messages that become due, by link.
pub(crate) fn act<'a>(
    alloc: Global,
    ledger: &mut Ledger<'a>,
    master: u32,
    clients: &mut Clients<'a>,
    from: u32,
    load: &Load,
    route: &[u32],
) -> Result<Vec<Sending<'a>>, NoMemory>
    requires from { Has from ledger.old.interfaces }
    requires load { IsLoad ledger.old.net load.now }
    requires net { clients.old.net ≡ ledger.old.net }
    requires routed { IsRouted (represented ledger.old.net load.now) route.now }
    ensures acted { IfOk result (λ sent. HasActedUp master from (represented ledger.old.net load.now) route.now ledger.old ledger.new
        clients.old.sessions clients.new.sessions sent.items) }
    ensures interfaces { ledger.new.interfaces ≡ ledger.old.interfaces }
    ensures net { clients.new.net ≡ clients.old.net }
    ensures planned { StayPlanned clients.old.sessions clients.new.sessions }
    ensures ledger { OnErr result (ledger.new ≡ ledger.old) }
    ensures clients { OnErr result (map bare clients.new.sessions ≡ map bare clients.old.sessions) }
{
    match load {
        Load::Filters(change) => {
            let mut sent = ledger.set_filters(from, change.withdrawn(), change.added())?;
            keep_up(&mut sent, master);
            Ok(sent)
        }
        Load::Adverts(_) => Ok(Vec::new(alloc)),
        Load::Publication(number) => {
            let number = *number;
            spread_up(
                alloc,
                ledger,
                master,
                clients,
                from,
                Outgoing { number, route },
            )
        }
    }
}

/// What the next command of a client does: a publication goes out, or the planned change is made, whose message goes to the
/// master.
pub(crate) fn act_next<'a>(
    alloc: Global,
    ledger: &mut Ledger<'a>,
    clients: &mut Clients<'a>,
    master: u32,
    from: u32,
    outgoing: Option<Outgoing<'_>>,
    plan: &Planned,
) -> Result<Vec<Sending<'a>>, NoMemory>
    requires from { Has from ledger.old.interfaces }
    requires net { clients.old.net ≡ ledger.old.net }
    requires can { CanGo ledger.old.net plan.now outgoing }
    ensures gone { IfOk result (λ sent. HasGoneUp master from plan.now outgoing.entry ledger.old ledger.new
        clients.old.sessions clients.new.sessions sent.items) }
    ensures interfaces { ledger.new.interfaces ≡ ledger.old.interfaces }
    ensures net { clients.new.net ≡ clients.old.net }
    ensures planned { StayPlanned clients.old.sessions clients.new.sessions }
    ensures err { OnErr result ((ledger.new ≡ ledger.old) × (map bare clients.new.sessions ≡ map bare clients.old.sessions)) }
{
    let Some(outgoing) = outgoing else {
        let mut sent = act_on(alloc, ledger, from, plan)?;
        keep_up(&mut sent, master);
        return Ok(sent);
    };
    spread_up(alloc, ledger, master, clients, from, outgoing)
}
