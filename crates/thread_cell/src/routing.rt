//! Makes the steps of a core, routed by what its publisher has installed.
ghost use Rattle.std.specs.Prelude.{◌≡◌, [], ◌<◌, ◌^◌, ℕ, List, length, max, Some, IfOk, OnErr, IfSome, IsErrOf};
ghost use Rattle.base.specs.Sets.{Has};
ghost use Rattle.law_machine.specs.Machine.{Does, Receives};
ghost use Rattle.law_routing.specs.Step.{NextCommand};
ghost use Rattle.net_tables.specs.Known.{known_publications};
ghost use Rattle.net_tables.specs.Found.{publication_at};
ghost use Rattle.law_routing.specs.Server.{Subs};
ghost use Rattle.net_model.specs.Parts.{NetParts};
ghost use Rattle.server_message.specs.Message.{IsLoad, represented};
ghost use Rattle.server_spec.specs.Session.{SessionParts};
ghost use Rattle.server_core.specs.Clients.{client_numbers};
ghost use Rattle.server_core.specs.Core.{installed_from};
ghost use Rattle.server_core.specs.Routed.{IsRoute, RoutesNext, RoutesMessage};
ghost use Rattle.server_core.specs.Step.{MakesStep, last_stamp};
ghost use Rattle.thread_cell.specs.Kept.{IsSomeServer};
ghost use Rattle.thread_cell.specs.Cell.{IsInstalledBy};
ghost use Rattle.thread_cell.specs.Looking.{IsPublicationIn};
ghost use Rattle.thread_cell.specs.Heard.{heard};

use base::NoMemory;
use base_bits::Row;
use match_routes::Route;
use net_tables::Tables;
use server_core::{Core, Step, StepFault};
use server_message::{Load, SetChange};
use std::alloc::Global;
use thread_versions::Publisher;

/// The number of the publication that is carried, if it is one of the run of these tables.
pub(crate) fn publication_in(tables: &Tables<'_>, load: &Load) -> Option<u32>
    ensures { IsPublicationIn tables.now load.now result }
{
    tables.catalogue().lemma_sound();
    match load {
        Load::Publication(number) if (*number as usize) < tables.catalogue().publications().len() =>
            { Some(*number) }
        _ => None,
    }
}

/// Where the publication with a number goes by what is installed.
fn routed(
    alloc: Global,
    core: &Core<'_>,
    publisher: &Publisher,
    number: u32,
) -> Result<Route, NoMemory>
    requires known { number < length (known_publications 1 core.now.net.clients) }
    requires installed { IsInstalledBy publisher.now core.now }
    ensures { IfOk result (IsRoute (publication_at core.now.net number).notice (installed_from core.now)) }
{
    publisher.route(alloc, &core.tables().matched(number))
}

/// Where a step routes what a message carries; nowhere where that is a change.
fn route(
    alloc: Global,
    core: &Core<'_>,
    publisher: &Publisher,
    load: &Load,
) -> Result<Route, NoMemory>
    requires load { IsLoad core.now.net load.now }
    requires installed { IsInstalledBy publisher.now core.now }
    ensures { IfOk result (λ r. RoutesMessage core.now (represented core.now.net load.now) r) }
{
    match load {
        Load::Publication(number) => routed(alloc, core, publisher, *number),
        _ => Ok(Route::nowhere(alloc)),
    }
}

/// Executes the next command of a client that lives here and has one left, by the route that is known, if one is.
pub(crate) fn take_command<'a>(
    alloc: Global,
    core: &mut Core<'a>,
    publisher: &Publisher,
    client: u32,
    known: Option<&Route>,
) -> Result<Step<'a>, StepFault>
    requires lives { Has client (client_numbers core.old.clients) }
    requires left { (s : SessionParts) → Has s core.old.clients → s.client ≡ client → s.taken < length s.script }
    requires stands { IsSomeServer core.old }
    requires installed { IsInstalledBy publisher.now core.old }
    requires known { IfSome known (λ r. RoutesNext core.old client r.now) }
    ensures step { IfOk result (λ s. MakesStep (Does (NextCommand client)) 0 core.old core.new s.stamp s.sent.items) }
    ensures worn { (s : ℕ) → IsErrOf result (StepFault.StampsExhausted s) → (core.old.clock ≡ last_stamp) × (s ≡ last_stamp) }
    ensures low { IfOk result (λ s. s.stamp < 2 ^ 62) }
    ensures installed { IsInstalledBy publisher.now core.new }
    ensures err { OnErr result (core.new ≡ core.old) }
{
    let _clock = core.clock();
    let Some(number) = core.next_publication(client) else {
        return core.take_command(client);
    };
    if let Some(route) = known {
        return core.take_publish(client, number, route.interfaces());
    }
    let route = routed(alloc, core, publisher, number)?;
    core.take_publish(client, number, route.interfaces())
}

/// Receives what a neighbour of the same run sent with its stamp, by the route that is known, if one is.
fn receive_load<'a>(
    alloc: Global,
    core: &mut Core<'a>,
    publisher: &Publisher,
    from: u32,
    stamp: u64,
    load: &Load,
    known: Option<&Route>,
) -> Result<Step<'a>, StepFault>
    requires from { Has from core.old.control.links }
    requires stamp { stamp < 2 ^ 62 }
    requires load { IsLoad core.old.net load.now }
    requires stands { IsSomeServer core.old }
    requires installed { IsInstalledBy publisher.now core.old }
    requires known { IfSome known (λ r. RoutesMessage core.old (represented core.old.net load.now) r.now) }
    ensures step { IfOk result (λ s. MakesStep (Receives from (represented core.old.net load.now)) stamp core.old core.new s.stamp s.sent.items) }
    ensures worn { (s : ℕ) → IsErrOf result (StepFault.StampsExhausted s) → (max core.old.clock stamp ≡ last_stamp) × (s ≡ last_stamp) }
    ensures low { IfOk result (λ s. s.stamp < 2 ^ 62) }
    ensures installed { IsInstalledBy publisher.now core.new }
    ensures err { OnErr result (core.new ≡ core.old) }
{
    let _clock = core.clock();
    if let Some(route) = known {
        return core.receive_load(from, stamp, load, route.interfaces());
    }
    let route = route(alloc, core, publisher, load)?;
    core.receive_load(from, stamp, load, route.interfaces())
}

/// A change of no filters.
fn nothing(alloc: Global) -> Result<Load, NoMemory>
    ensures load { IfOk result (λ load. (net : NetParts) → IsLoad net load) }
    ensures none { IfOk result (λ load. (net : NetParts) → represented net load ≡ Subs [] []) }
{
    let none = Row::new(alloc, 0)?;
    Ok(Load::Filters(SetChange::of(alloc, &none, &none)?))
}

/// Receives what came from a neighbour with its stamp, by the route that is known, if one is. A load of another run, which no
/// cell puts, is received as a change of no filters.
pub(crate) fn receive_heard<'a>(
    alloc: Global,
    core: &mut Core<'a>,
    publisher: &Publisher,
    from: u32,
    stamp: u64,
    load: &Load,
    known: Option<&Route>,
) -> Result<Step<'a>, StepFault>
    requires from { Has from core.old.control.links }
    requires stamp { stamp < 2 ^ 62 }
    requires stands { IsSomeServer core.old }
    requires installed { IsInstalledBy publisher.now core.old }
    requires known { IfSome known (λ r. RoutesMessage core.old (heard core.old.net load.now) r.now) }
    ensures step { IfOk result (λ s. MakesStep (Receives from (heard core.old.net load.now)) stamp core.old core.new s.stamp s.sent.items) }
    ensures worn { (s : ℕ) → IsErrOf result (StepFault.StampsExhausted s) → (max core.old.clock stamp ≡ last_stamp) × (s ≡ last_stamp) }
    ensures low { IfOk result (λ s. s.stamp < 2 ^ 62) }
    ensures installed { IsInstalledBy publisher.now core.new }
    ensures err { OnErr result (core.new ≡ core.old) }
{
    if load.is_of(core.tables()) {
        return receive_load(alloc, core, publisher, from, stamp, load, known);
    }
    let nothing = nothing(alloc)?;
    receive_load(alloc, core, publisher, from, stamp, &nothing, None)
}
