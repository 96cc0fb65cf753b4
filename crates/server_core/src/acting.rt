//! What a message, or a client's planned change, does at a server: the one body of its step.
ghost use Rattle.std.specs.Prelude.{◌≡◌, true, map, IfOk, OnErr};
ghost use Rattle.base.specs.Sets.{Has};
ghost use Rattle.server_message.specs.Message.{IsLoad, represented};
ghost use Rattle.server_core.specs.Clients.{bare, StayPlanned};
ghost use Rattle.server_core.specs.Acting.{IsRouted, HasActed, HasChanged, IsChangeIn};
ghost use Rattle.server_core.specs.Next.{CanGo, HasGone};

use crate::clients::Clients;
use crate::ledger::Ledger;
use crate::moving::{added, withdrawn};
use crate::spreading::spread;
use base::NoMemory;
use filter_text::Semantics;
use server_message::{Load, Sending};
use server_session::Planned;
use std::alloc::Global;

/// A publication that a client's next command sends out.
#[derive(Clone, Copy)]
pub struct Outgoing<'r> {
    /// Its number.
    pub number: u32,
    /// The interfaces that it goes to, rising.
    pub route: &'r [u32],
}

/// What a message does that came from an interface with this load. A publication goes by its route. The answer is the messages that become due, by link.
pub(crate) fn act<'a>(
    alloc: Global,
    ledger: &mut Ledger<'a>,
    clients: &mut Clients<'a>,
    from: u32,
    load: &Load,
    route: &[u32],
) -> Result<Vec<Sending<'a>>, NoMemory>
    requires from { Has from ledger.old.interfaces }
    requires semantics { ledger.old.control.semantics ≡ ledger.old.net.semantics }
    requires load { IsLoad ledger.old.net load.now }
    requires net { clients.old.net ≡ ledger.old.net }
    requires routed { IsRouted (represented ledger.old.net load.now) route.now }
    ensures acted { IfOk result (λ sent. HasActed from (represented ledger.old.net load.now) route.now ledger.old ledger.new
        clients.old.sessions clients.new.sessions sent.items) }
    ensures interfaces { ledger.new.interfaces ≡ ledger.old.interfaces }
    ensures net { clients.new.net ≡ clients.old.net }
    ensures planned { StayPlanned clients.old.sessions clients.new.sessions }
    ensures ledger { OnErr result (ledger.new ≡ ledger.old) }
    ensures clients { OnErr result (map bare clients.new.sessions ≡ map bare clients.old.sessions) }
{
    match load {
        Load::Filters(change) => ledger.set_filters(from, change.withdrawn(), change.added()),
        Load::Adverts(change) => ledger.set_adverts(from, change.withdrawn(), change.added()),
        Load::Publication(number) => {
            let tables = ledger.tables();
            spread(alloc, tables, ledger.links(), clients, from, *number, route)
        }
    }
}

/// What a planned change of a client does, which is no publish that is accepted.
pub fn act_on<'a>(
    alloc: Global,
    ledger: &mut Ledger<'a>,
    from: u32,
    plan: &Planned,
) -> Result<Vec<Sending<'a>>, NoMemory>
    requires from { Has from ledger.old.interfaces }
    requires change { IsChangeIn ledger.old.net plan.now }
    ensures changed { IfOk result (λ sent. HasChanged from plan.now ledger.old ledger.new sent.items) }
    ensures interfaces { ledger.new.interfaces ≡ ledger.old.interfaces }
    ensures err { OnErr result (ledger.new ≡ ledger.old) }
{
    match (plan, ledger.semantics()) {
        (Planned::Filters(moved), _) => ledger.set_filters(from, withdrawn(moved), added(moved)),
        (Planned::Adverts(moved), Semantics::Advertisement) => {
            ledger.set_adverts(from, withdrawn(moved), added(moved))
        }
        (Planned::Publish { .. }, _) => unreachable!(),
        _ => Ok(Vec::new(alloc)),
    }
}

/// What the next command of a client does: a publication goes out, or the planned change is made.
pub(crate) fn act_next<'a>(
    alloc: Global,
    ledger: &mut Ledger<'a>,
    clients: &mut Clients<'a>,
    from: u32,
    outgoing: Option<Outgoing<'_>>,
    plan: &Planned,
) -> Result<Vec<Sending<'a>>, NoMemory>
    requires from { Has from ledger.old.interfaces }
    requires net { clients.old.net ≡ ledger.old.net }
    requires can { CanGo ledger.old.net plan.now outgoing }
    ensures gone { IfOk result (λ sent. HasGone from plan.now outgoing.entry ledger.old ledger.new clients.old.sessions clients.new.sessions sent.items) }
    ensures interfaces { ledger.new.interfaces ≡ ledger.old.interfaces }
    ensures net { clients.new.net ≡ clients.old.net }
    ensures planned { StayPlanned clients.old.sessions clients.new.sessions }
    ensures err { OnErr result ((ledger.new ≡ ledger.old) × (map bare clients.new.sessions ≡ map bare clients.old.sessions)) }
{
    let Some(Outgoing { number, route }) = outgoing else {
        return act_on(alloc, ledger, from, plan);
    };
    let tables = ledger.tables();
    spread(alloc, tables, ledger.links(), clients, from, number, route)
}
