//! Explains what a client gets of a publication.
ghost use Rattle.std.specs.Prelude.{◌≡◌, ◌≤◌, ◌↔◌, ℕ, [], Some, None, length, take, true, false, IfOk, OnErr, IsErrOf, MatchResult};
ghost use Rattle.base_tree.specs.Tree.{IsPath, links_of};
ghost use Rattle.net_model.specs.Sound.{IsAmong, IsSound};
ghost use Rattle.net_tables.specs.Known.{known_filters, known_adverts};
ghost use Rattle.net_model.specs.Nets.{client_at, home_of, topology_at, with_adverts, first_tree};
ghost use Rattle.output_flood.specs.Held.{before, within};
ghost use Rattle.output_explain.specs.Facts.{filter_facts, advert_facts};
ghost use Rattle.output_explain.specs.Asked.{IsNobody, IsSomebody, HasNoPublish, IsFaultOf, commands_of, fault_of, found_from, number_of};
ghost use Rattle.output_explain.specs.Explained.{IsAnswer, IsExplained, IsGathered};

use crate::facts::{AdvertFact, FilterFact, advert_facts, filter_facts};
use crate::fault::ExplainFault;
use crate::find::{Found, number_of, publish_of};
use crate::phase::cut_at;
use crate::verdict::{Verdict, verdict_by};
use base::NoMemory;
use base_pool::Items;
use filter_covering::{Ad, Sub};
use filter_text::{Command, Id};
use filter_types::Notice;
use net_model::{Client, Net, Semantics};
use net_tables::Catalogue;
use std::alloc::Global;

/// Why a client gets a publication, may get it or never gets it.
#[derive(Drop)]
pub struct Explanation {
    /// The number of the client, from 1.
    pub client: u32,
    /// The publication.
    pub id: Id,
    /// Its phase.
    pub phase: u32,
    /// Its notification.
    pub notice: Notice,
    /// The servers from the publisher's to the client's.
    pub path: Vec<u32>,
    /// The client's filters that are in force at some moment of the phase, in canonical order.
    pub filters: Vec<FilterFact>,
    /// Under advertisement semantics the publisher's advertisements that are in force at some moment of the phase.
    pub adverts: Vec<AdvertFact>,
    /// What the client gets.
    pub verdict: Verdict,
}

// The client of a number.
pub(crate) fn client_of(net: &Net, number: u32) -> &Client
    requires { IsAmong (length net.now.clients) number }
    ensures { client_at net.now.clients number ≡ Some result.now }
{
    &net.clients[number as usize - 1]
}

// The servers from one to another in the tree of a phase.
fn path_of(alloc: Global, net: &Net, phase: u32, from: u32, to: u32) -> Result<Vec<u32>, NoMemory>
    requires sound { IsSound net.now }
    requires from { IsAmong (first_tree net.now.trees).count from }
    requires to { IsAmong (first_tree net.now.trees).count to }
    ensures { IfOk result (λ path. IsPath (links_of (topology_at net.now phase)) from to path.items) }
{
    net.tree(phase).path(alloc, from, to)
}

// The facts of a client's filters.
fn filters_of(
    alloc: Global,
    known: &Items<Sub>,
    script: &[(u32, Command)],
    found: &Found,
) -> Result<Vec<FilterFact>, NoMemory>
    ensures { IfOk result (λ facts. facts.items
        ≡ filter_facts found.now.notice (before found.now.phase script.now) (within found.now.phase script.now) known.now) }
{
    let cut = cut_at(script, found.phase);
    filter_facts(alloc, &found.notice, cut.before, cut.within, known)
}

// The facts of a publisher's advertisements.
fn adverts_of(
    alloc: Global,
    semantics: Semantics,
    known: &Items<Ad>,
    script: &[(u32, Command)],
    found: &Found,
) -> Result<Vec<AdvertFact>, NoMemory>
    requires { found.now.index ≤ length script.now }
    ensures some { with_adverts semantics ≡ true → IfOk result (λ facts. facts.items
        ≡ advert_facts found.now.notice (take found.now.index script.now) (before found.now.phase script.now) (within found.now.phase script.now) known.now) }
    ensures none { with_adverts semantics ≡ false → IfOk result (λ facts. facts.items ≡ []) }
{
    match semantics {
        Semantics::Subscription => Ok(Vec::new(alloc)),
        Semantics::Advertisement => {
            let cut = cut_at(script, found.phase);
            let ahead = &script[..found.index];
            advert_facts(alloc, &found.notice, ahead, cut.before, cut.within, known)
        }
    }
}

// All filters and all advertisements that a net names.
#[derive(Clone, Copy)]
struct Known<'a> {
    filters: &'a Items<Sub>,
    adverts: &'a Items<Ad>,
}

// Gathers what tells of a publish that was found.
fn gathered(
    alloc: Global,
    net: &Net,
    known: Known<'_>,
    client: u32,
    id: Id,
    found: Found,
) -> Result<Explanation, NoMemory>
    requires sound { IsSound net.now }
    requires filters { known.filters.now ≡ known_filters net.now.clients }
    requires adverts { known.adverts.now ≡ known_adverts net.now.clients }
    requires client { IsAmong (length net.now.clients) client }
    requires publisher { IsAmong (length net.now.clients) id.publisher }
    requires index { found.index ≤ length (commands_of net.now id.publisher) }
    ensures { IfOk result (IsGathered net.now client id found) }
{
    let receiver = client_of(net, client);
    let publisher = client_of(net, id.publisher);
    let path = path_of(alloc, net, found.phase, publisher.home, receiver.home)?;
    let filters = filters_of(alloc, known.filters, &receiver.script, &found)?;
    let adverts = adverts_of(
        alloc,
        net.semantics,
        known.adverts,
        &publisher.script,
        &found,
    )?;
    let verdict = verdict_by(net.semantics, &filters, &adverts);
    let _ = found.notice.attributes();
    Ok(Explanation {
        client,
        id,
        phase: found.phase,
        notice: found.notice,
        path,
        filters,
        adverts,
        verdict,
    })
}

// Explains a publish that is there.
#[tactic(auto, using(crate::proofs::Explained::found_low))]
fn explained(
    alloc: Global,
    net: &Net,
    known: Known<'_>,
    client: u32,
    id: Id,
    found: Found,
) -> Result<Explanation, NoMemory>
    requires sound { IsSound net.now }
    requires filters { known.filters.now ≡ known_filters net.now.clients }
    requires adverts { known.adverts.now ≡ known_adverts net.now.clients }
    requires client { IsAmong (length net.now.clients) client }
    requires publisher { IsAmong (length net.now.clients) id.publisher }
    requires found { found_from id.ordinal 0 0 (commands_of net.now id.publisher) ≡ Some found }
    ensures { IfOk result (λ e. IsExplained net.now client id e) }
{
    gathered(alloc, net, known, client, id, found)
}

// The publish of this number of a client.
fn found_of(
    alloc: Global,
    net: &Net,
    publisher: u32,
    ordinal: u32,
) -> Result<Option<Found>, NoMemory>
    requires { IsAmong (length net.now.clients) publisher }
    ensures found { IfOk result (λ found. found ≡ found_from ordinal 0 0 (commands_of net.now publisher)) }
    ensures memory { OnErr result (found_from ordinal 0 0 (commands_of net.now publisher) ≡ None → ⊥) }
{
    publish_of(alloc, &client_of(net, publisher).script, ordinal)
}

// Explains a publish that is there, by what its net names.
fn explained_of(
    alloc: Global,
    net: &Net,
    client: u32,
    id: Id,
    found: Found,
) -> Result<Explanation, NoMemory>
    requires sound { IsSound net.now }
    requires client { IsAmong (length net.now.clients) client }
    requires publisher { IsAmong (length net.now.clients) id.publisher }
    requires found { found_from id.ordinal 0 0 (commands_of net.now id.publisher) ≡ Some found }
    ensures { IfOk result (IsExplained net.now client id) }
{
    let catalogue = Catalogue::of(alloc, net)?;
    let known = Known {
        filters: catalogue.filters(),
        adverts: catalogue.adverts(),
    };
    explained(alloc, net, known, client, id, found)
}

// The answer to a question, or its fault, by the numbers of its names.
fn answered(
    alloc: Global,
    net: &Net,
    client: &[u8],
    publisher: &[u8],
    ordinal: u32,
) -> Result<Explanation, ExplainFault>
    requires { IsSound net.now }
    ensures fault { MatchResult result (λ _. fault_of net.now client.now publisher.now ordinal ≡ None)
        (λ fault. IsFaultOf fault (fault_of net.now client.now publisher.now ordinal)) }
    ensures explained { (c p : ℕ) → number_of client.now net.now.clients ≡ Some c → number_of publisher.now net.now.clients ≡ Some p
        → IfOk result (IsExplained net.now c (record { publisher = p; ordinal = ordinal })) }
{
    let Some(client) = number_of(&net.clients, client) else {
        return Err(ExplainFault::NoClient);
    };
    let Some(publisher) = number_of(&net.clients, publisher) else {
        return Err(ExplainFault::NoPublisher);
    };
    let Some(found) = found_of(alloc, net, publisher, ordinal)? else {
        return Err(ExplainFault::NoPublication);
    };
    let id = Id { publisher, ordinal };
    Ok(explained_of(alloc, net, client, id, found)?)
}

/// Why the client of a name gets the publication of this number by the client of another name, may get it or never gets it.
pub fn explain(
    alloc: Global,
    net: &Net,
    client: &[u8],
    publisher: &[u8],
    ordinal: u32,
) -> Result<Explanation, ExplainFault>
    requires { IsSound net.now }
    ensures answer { IfOk result (IsAnswer net.now client.now publisher.now ordinal) }
    ensures no_client { IsErrOf result ExplainFault.NoClient ↔ IsNobody net.now client.now }
    ensures no_publisher { IsErrOf result ExplainFault.NoPublisher ↔ (IsSomebody net.now client.now × IsNobody net.now publisher.now) }
    ensures no_publication { IsErrOf result ExplainFault.NoPublication
        ↔ (IsSomebody net.now client.now × IsSomebody net.now publisher.now × HasNoPublish net.now publisher.now ordinal) }
    ensures memory { IsErrOf result ExplainFault.NoMemory
        → IsSomebody net.now client.now × IsSomebody net.now publisher.now × (HasNoPublish net.now publisher.now ordinal → ⊥) }
{
    answered(alloc, net, client, publisher, ordinal)
}
