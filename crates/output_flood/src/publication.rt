//! Collects the accepted publications, each with its phase.
ghost use Rattle.std.specs.Prelude.{◌≡◌, ◌≤◌, ◌++◌, [], OnOk, IfOk};
ghost use Rattle.law_routing.specs.Clients.{some_pass};
ghost use Rattle.net_model.specs.Real.{real};
ghost use Rattle.output_flood.specs.Held.{Script};
ghost use Rattle.output_flood.specs.Lasting.{AreClientAdverts};
ghost use Rattle.output_flood.specs.Publications.{is_free, publication_of, accepted_from, refusals_from, publishes_in};

use crate::phase::PhaseAdverts;
use crate::{adverts, phase};
use base::NoMemory;
use filter_text::Id;
use filter_types::{Advert, Notice, allows};
use net_model::{Command, Semantics};
use std::alloc::Global;

/// An accepted publication with its phase and its notice, and whether it may be owed: one advertisement that allows it is
/// in its publisher's list at every moment of the phase, where there must be one.
#[derive(Drop)]
pub(crate) struct Publication {
    pub id: Id,
    pub phase: u32,
    pub notice: Notice,
    pub advertised: bool,
}

// Whether the advertisement allows the notice.
fn is_allowed_by(notice: &Notice, advert: &Advert) -> bool
    ensures { result ≡ real.allows advert.now notice.now }
{
    let _ = notice.attributes();
    allows(advert, notice)
}

// Whether one of these allows the notice.
fn is_allowed(adverts: &[Advert], notice: &Notice) -> bool
    ensures { result ≡ some_pass (λ a. real.allows a notice.now) adverts.now }
{
    for advert in adverts {
        if is_allowed_by(notice, advert) {
            return true;
        }
    }
    false
}

// Whether one of these allows the notice, where one must.
fn is_free(semantics: Semantics, adverts: &[Advert], notice: &Notice) -> bool
    ensures { result ≡ is_free semantics adverts.now notice.now }
{
    match semantics {
        Semantics::Subscription => true,
        Semantics::Advertisement => is_allowed(adverts, notice),
    }
}

// A publication of a client, whose advertisements of the phase are at hand.
fn published(
    alloc: Global,
    semantics: Semantics,
    lists: &PhaseAdverts,
    id: Id,
    notice: &Notice,
) -> Result<Publication, NoMemory>
    ensures { (script : Script) → AreClientAdverts script lists.now
        → IfOk result (λ p. p ≡ publication_of semantics id.publisher script id.ordinal lists.now.phase notice.now) }
{
    let advertised = is_free(semantics, &lists.every, notice);
    Ok(Publication {
        id,
        phase: lists.phase,
        notice: notice.copy(alloc)?,
        advertised,
    })
}

/// Puts the accepted publications of a client at the end. The caller knows that it has at most 100,000 publishes.
pub(crate) fn push_accepted(
    alloc: Global,
    accepted: &mut Vec<Publication>,
    semantics: Semantics,
    client: u32,
    script: &[(u32, Command)],
) -> Result<(), NoMemory>
    requires { publishes_in script.now ≤ 100000 }
    ensures { OnOk result (accepted.new.items ≡ accepted.old.items ++ accepted_from semantics client script.now [] 0 script.now) }
{
    let mut own = Vec::new(alloc);
    let mut lists = phase::adverts(alloc, script, 0)?;
    let mut ordinal = 0;
    for (of_command, command) in script {
        if let Command::Publish(notice) = command {
            ordinal += 1;
            if is_free(semantics, &own, notice) {
                let id = Id {
                    publisher: client,
                    ordinal,
                };
                lists = phase::renewed_adverts(alloc, lists, script, *of_command)?;
                accepted.push(published(alloc, semantics, &lists, id, notice)?)?;
            }
        }
        adverts::step(alloc, &mut own, command)?;
    }
    Ok(())
}

/// The ordinals of the refused publishes of a client, of whom the caller knows that it has at most 100,000 publishes.
pub(crate) fn refusals(
    alloc: Global,
    semantics: Semantics,
    script: &[(u32, Command)],
) -> Result<Vec<u32>, NoMemory>
    requires { publishes_in script.now ≤ 100000 }
    ensures { IfOk result (λ refused. refused.items ≡ refusals_from semantics [] 0 script.now) }
{
    let mut own = Vec::new(alloc);
    let mut refused = Vec::new(alloc);
    let mut ordinal = 0;
    for (_, command) in script {
        if let Command::Publish(notice) = command {
            ordinal += 1;
            if !is_free(semantics, &own, notice) {
                refused.push(ordinal)?;
            }
        }
        adverts::step(alloc, &mut own, command)?;
    }
    Ok(refused)
}
