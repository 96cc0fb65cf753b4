//! Lists what comes to a client of all publications: what it is owed, what may come, and what is near.
ghost use Rattle.std.specs.Prelude.{◌≡◌, ◌≤◌, ◌++◌, ◌-◌, length, slice_get, Some, OnOk, IfOk, IfSome};
ghost use Rattle.base.specs.Sets.{IsRising};
ghost use Rattle.base.specs.Numbers.{sum_over};
ghost use Rattle.net_model.specs.Real.{real};
ghost use Rattle.net_model.specs.Sound.{IsAmong, IsSound, publishes};
ghost use Rattle.output_flood.specs.Flooding.{row_before};
ghost use Rattle.output_flood.specs.Held.{subscribed};
ghost use Rattle.output_flood.specs.Publications.{is_met, publishes_in};
ghost use Rattle.output_explain.specs.Asked.{commands_of, number_of};
ghost use Rattle.output_explain.specs.Prospects.{AreProspects, IsOutlook};
ghost use Rattle.output_explain.specs.Sought.{chance_by, chance_of, id_cmp, prospect_by, prospects_from, prospects_of, told_of};

use crate::answer::client_of;
use crate::find::number_of;
use base::NoMemory;
use filter_text::{Command, Id};
use filter_types::{Filter, Notice, matches};
use net_model::{Client, Net};
use output_flood::{Owed, OwedRow, must_may};
use std::alloc::Global;
use std::cmp::Ordering;

/// What chance a client has of a publication.
#[derive(Clone, Copy, Debug, PartialEq, Eq)]
pub enum Chance {
    /// It is owed: the client gets it exactly once, in every run to its end.
    Owed,
    /// It may come: it is allowed and not owed, so the client gets it once or not at all.
    May,
    /// It is near: the client never gets it, though a filter that matches it is in the client's list at some time.
    Near,
}

/// A publication, and what chance a client has of it.
#[derive(Drop)]
pub struct Prospect {
    /// The publication, which may be refused.
    pub id: Id,
    /// Its notification.
    pub notice: Notice,
    /// The client's chance.
    pub chance: Chance,
}

// The order of two ids.
fn id_cmp(a: Id, b: Id) -> Ordering
    ensures { result ≡ id_cmp a b }
{
    match a.publisher.cmp(&b.publisher) {
        Ordering::Less => Ordering::Less,
        Ordering::Equal => a.ordinal.cmp(&b.ordinal),
        Ordering::Greater => Ordering::Greater,
    }
}

// What flooding tells a client of a publication: whether it is owed, or nothing where it isn't allowed.
fn told_of(rows: &[OwedRow], id: Id) -> Option<bool>
    requires { IsRising row_before rows.now }
    ensures { result ≡ told_of rows.now id }
{
    match rows.binary_search_by(|row| id_cmp(row.id, id)) {
        Ok(place) => Some(rows[place].must),
        Err(_) => None,
    }
}

// Whether the notification matches the filter.
fn is_matched_by(notice: &Notice, filter: &Filter) -> bool
    ensures { result ≡ real.matches notice.now filter.now }
{
    let _ = notice.attributes();
    matches(filter, notice)
}

// Whether one of the filters matches.
fn is_met(filters: &[Filter], notice: &Notice) -> bool
    ensures { result ≡ is_met filters.now notice.now }
{
    for filter in filters {
        if is_matched_by(notice, filter) {
            return true;
        }
    }
    false
}

// What is known of a client: the rows that flooding gives it, and the filters that it ever has.
#[derive(Clone, Copy)]
struct Seeker<'a> {
    rows: &'a [OwedRow],
    filters: &'a [Filter],
}

// The chance of a publication.
fn chance_of(seeker: Seeker<'_>, id: Id, notice: &Notice) -> Option<Chance>
    requires { IsRising row_before seeker.rows.now }
    ensures { result ≡ chance_of seeker.entry.rows.now seeker.entry.filters.now id notice.now }
{
    match told_of(seeker.rows, id) {
        Some(true) => Some(Chance::Owed),
        Some(false) => Some(Chance::May),
        None if is_met(seeker.filters, notice) => Some(Chance::Near),
        None => None,
    }
}

// Puts a publication at the end, where the client has a chance of it.
fn push_prospect(
    alloc: Global,
    prospects: &mut Vec<Prospect>,
    id: Id,
    notice: &Notice,
    chance: Option<Chance>,
) -> Result<(), NoMemory>
    ensures { OnOk result (prospects.new.items ≡ prospects.old.items ++ prospect_by id notice.now chance) }
{
    let Some(chance) = chance else {
        return Ok(());
    };
    let notice = notice.copy(alloc)?;
    prospects.push(Prospect { id, notice, chance })?;
    Ok(())
}

// Puts those of a publisher's publications at the end of which the client has a chance.
fn push_script(
    alloc: Global,
    prospects: &mut Vec<Prospect>,
    seeker: Seeker<'_>,
    publisher: u32,
    script: &[(u32, Command)],
) -> Result<(), NoMemory>
    requires few { publishes_in script.now ≤ 100000 }
    requires rising { IsRising row_before seeker.rows.now }
    ensures { OnOk result (prospects.new.items
        ≡ prospects.old.items ++ prospects_from (chance_of seeker.entry.rows.now seeker.entry.filters.now) publisher 0 script.now) }
{
    let mut ordinal = 0;
    for (_, command) in script {
        if let Command::Publish(notice) = command {
            ordinal += 1;
            let id = Id { publisher, ordinal };
            push_prospect(alloc, prospects, id, notice, chance_of(seeker, id, notice))?;
        }
    }
    Ok(())
}

// Those of all clients' publications of which the client has a chance.
fn listed(alloc: Global, clients: &[Client], seeker: Seeker<'_>) -> Result<Vec<Prospect>, NoMemory>
    requires clients { length clients.now ≤ 1024 }
    requires few { sum_over publishes clients.now ≤ 100000 }
    requires rising { IsRising row_before seeker.rows.now }
    ensures { IfOk result (λ list. list.items ≡ prospects_of (chance_of seeker.entry.rows.now seeker.entry.filters.now) 0 clients.now) }
{
    let mut prospects = Vec::new(alloc);
    for (place, client) in clients.iter().enumerate() {
        push_script(
            alloc,
            &mut prospects,
            seeker,
            place as u32 + 1,
            &client.script,
        )?;
    }
    Ok(prospects)
}

// The filters to which a script subscribes.
fn subscribed(alloc: Global, script: &[(u32, Command)]) -> Result<Vec<Filter>, NoMemory>
    ensures { IfOk result (λ filters. filters.items ≡ subscribed script.now) }
{
    let mut filters = Vec::new(alloc);
    for (_, command) in script {
        if let Command::Subscribe(filter) = command {
            filters.push(filter.copy(alloc)?)?;
        }
    }
    Ok(filters)
}

// The filters to which the client of a number subscribes.
fn filters_of(alloc: Global, net: &Net, client: u32) -> Result<Vec<Filter>, NoMemory>
    requires { IsAmong (length net.now.clients) client }
    ensures { IfOk result (λ filters. filters.items ≡ subscribed (commands_of net.now client)) }
{
    subscribed(alloc, &client_of(net, client).script)
}

// The rows of the client of a number.
fn rows_of(owed: &Owed, client: u32) -> &[OwedRow]
    requires { IsAmong (length owed.now.rows.items) client }
    ensures { slice_get owed.now.rows.items (client - 1) ≡ Some result.now }
{
    owed.rows[client as usize - 1].as_slice()
}

// Those of all publications of a net of which the client has a chance.
fn listed_of(alloc: Global, net: &Net, seeker: Seeker<'_>) -> Result<Vec<Prospect>, NoMemory>
    requires sound { IsSound net.now }
    requires rising { IsRising row_before seeker.rows.now }
    ensures { IfOk result (λ list. list.items ≡ prospects_of (chance_of seeker.entry.rows.now seeker.entry.filters.now) 0 net.now.clients) }
{
    listed(alloc, &net.clients, seeker)
}

// What comes to the client of a number.
fn prospects_of(alloc: Global, net: &Net, client: u32) -> Result<Vec<Prospect>, NoMemory>
    requires sound { IsSound net.now }
    requires client { IsAmong (length net.now.clients) client }
    ensures { IfOk result (λ list. AreProspects net.now client list.items) }
{
    let owed = must_may(alloc, net)?;
    let filters = filters_of(alloc, net, client)?;
    let seeker = Seeker {
        rows: rows_of(&owed, client),
        filters: &filters,
    };
    listed_of(alloc, net, seeker)
}

// The number of the client of a name.
fn number_in(net: &Net, name: &[u8]) -> Option<u32>
    requires { IsSound net.now }
    ensures value { result ≡ number_of name.now net.now.clients }
    ensures among { IfSome result (IsAmong (length net.now.clients)) }
{
    number_of(&net.clients, name)
}

/// What comes to the client of a name, of all publications of a net; nothing where no client has the name.
pub fn prospects(alloc: Global, net: &Net, name: &[u8]) -> Result<Option<Vec<Prospect>>, NoMemory>
    requires { IsSound net.now }
    ensures { IfOk result (IsOutlook net.now name.now) }
{
    let Some(client) = number_in(net, name) else {
        return Ok(None);
    };
    Ok(Some(prospects_of(alloc, net, client)?))
}
