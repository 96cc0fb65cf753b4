//! Numbers the commands of all scripts.
ghost use Rattle.std.specs.Prelude.{◌≡◌, ◌≢◌, ◌<◌, ◌≤◌, ◌+◌, ◌^◌, ◌∷◌, ◌++◌, ℕ, suc, List, [], length, IfOk, OnOk};
ghost use Rattle.std.specs.List.{flat_map};
ghost use Rattle.net_tables.specs.Known.{PublicationParts, publication, publishes_after, published_by, script_publications, known_publications};
ghost use Rattle.filter_constraints.specs.Constraint.{ConstraintParts};
ghost use Rattle.net_tables.specs.Known.{filters_in, adverts_in, script_filters, script_adverts};
ghost use Rattle.net_tables.specs.Numbered.{RepresentsCommand, AreNumbered, AllNumbered};
ghost use Rattle.net_tables.specs.Numbering.{AreNumbers, catalogue_of};

use crate::numbered::NumberedCommand;
use crate::publication::Publication;
use base::NoMemory;
use filter_text::Lists;
use filter_types::Notice;
use net_model::{Client, Command, Id};
use std::alloc::Global;

/// The numbers that the commands to come name, in the order of the commands.
#[derive(Drop)]
pub(crate) struct Numbers<'a> {
    /// Of filters.
    pub filters: &'a [u32],
    /// Of advertisements.
    pub adverts: &'a [u32],
}

impl Numbers<'_> {
    // The number of the next filter.
    fn next_filter(&mut self) -> u32
        requires { self.old.filters.now ≢ [] }
        ensures filters { self.old.filters.now ≡ result ∷ self.new.filters.now }
        ensures adverts { self.new.adverts.now ≡ self.old.adverts.now }
    {
        match self.filters.split_first() {
            Some((first, rest)) => {
                self.filters = rest;
                *first
            }
            None => unreachable!(),
        }
    }

    // The number of the next advertisement.
    fn next_advert(&mut self) -> u32
        requires { self.old.adverts.now ≢ [] }
        ensures adverts { self.old.adverts.now ≡ result ∷ self.new.adverts.now }
        ensures filters { self.new.filters.now ≡ self.old.filters.now }
    {
        match self.adverts.split_first() {
            Some((first, rest)) => {
                self.adverts = rest;
                *first
            }
            None => unreachable!(),
        }
    }
}

// Puts a publication at the end; its number.
fn publish(
    alloc: Global,
    publications: &mut Vec<Publication>,
    id: Id,
    phase: u32,
    notice: &Notice,
) -> Result<u32, NoMemory>
    requires { length publications.old.items < 2 ^ 32 }
    ensures number { IfOk result (λ i. i ≡ length publications.old.items) }
    ensures publications { OnOk result (publications.new.items
        ≡ publications.old.items ++ publication id.publisher id.ordinal phase notice.now ∷ []) }
{
    let number = publications.len() as u32;
    let notice = notice.copy(alloc)?;
    publications.push(Publication { id, phase, notice })?;
    Ok(number)
}

// A command of a client, with so many publishes before it, by numbers. What it publishes is put at the end.
fn number(
    alloc: Global,
    numbers: &mut Numbers<'_>,
    publications: &mut Vec<Publication>,
    id: Id,
    phase: u32,
    command: &Command,
) -> Result<NumberedCommand, NoMemory>
    requires numbers { (filters : List (List ConstraintParts)) × (adverts : List (List ConstraintParts))
        × AreNumbers filters adverts numbers.old.filters.now numbers.old.adverts.now (filters_in command.now) (adverts_in command.now) }
    requires few { length publications.old.items < 2 ^ 32 }
    ensures publications { (count : ℕ) → id.ordinal ≡ suc count → OnOk result (publications.new.items
        ≡ publications.old.items ++ published_by id.publisher count phase command.now) }
    ensures represents { (filters adverts : List (List ConstraintParts)) (count : ℕ) (later : List PublicationParts) → id.ordinal ≡ suc count
        → AreNumbers filters adverts numbers.old.filters.now numbers.old.adverts.now (filters_in command.now) (adverts_in command.now)
        → IfOk result (λ n.
        RepresentsCommand (catalogue_of filters adverts (publications.new.items ++ later)) id.publisher count phase n command.now) }
    ensures left { (filters adverts more_filters more_adverts : List (List ConstraintParts))
        → AreNumbers filters adverts numbers.old.filters.now numbers.old.adverts.now (filters_in command.now ++ more_filters)
        (adverts_in command.now ++ more_adverts)
        → OnOk result (AreNumbers filters adverts numbers.new.filters.now numbers.new.adverts.now more_filters more_adverts) }
{
    Ok(match command {
        Command::Subscribe(_) => NumberedCommand::Subscribe(numbers.next_filter()),
        Command::Unsubscribe(_) => NumberedCommand::Unsubscribe(numbers.next_filter()),
        Command::Advertise(_) => NumberedCommand::Advertise(numbers.next_advert()),
        Command::Unadvertise(_) => NumberedCommand::Unadvertise(numbers.next_advert()),
        Command::Publish(n) => NumberedCommand::Publish(publish(
            alloc,
            publications,
            id,
            phase,
            n,
        )?),
    })
}

// How many publishes are behind after a command.
fn publishes_after(count: u32, command: &Command) -> u32
    requires { count ≤ 100000 }
    ensures { result ≡ publishes_after count command.now }
{
    match command {
        Command::Publish(_) => count + 1,
        _ => count,
    }
}

// A client's script by numbers. What it publishes is put at the end.
fn number_script(
    alloc: Global,
    numbers: &mut Numbers<'_>,
    publications: &mut Vec<Publication>,
    publisher: u32,
    script: &[(u32, Command)],
) -> Result<Lists<(u32, NumberedCommand)>, NoMemory>
    requires numbers { (filters : List (List ConstraintParts)) × (adverts : List (List ConstraintParts))
        × AreNumbers filters adverts numbers.old.filters.now numbers.old.adverts.now (script_filters script.now) (script_adverts script.now) }
    requires few { length (publications.old.items ++ script_publications publisher 0 script.now) ≤ 100000 }
    ensures publications { OnOk result (publications.new.items ≡ publications.old.items ++ script_publications publisher 0 script.now) }
    ensures represents { (filters adverts : List (List ConstraintParts)) (later : List PublicationParts)
        → AreNumbers filters adverts numbers.old.filters.now numbers.old.adverts.now (script_filters script.now) (script_adverts script.now)
        → IfOk result (λ steps. AreNumbered (catalogue_of filters adverts (publications.new.items ++ later)) publisher 0 steps script.now) }
    ensures left { (filters adverts more_filters more_adverts : List (List ConstraintParts))
        → AreNumbers filters adverts numbers.old.filters.now numbers.old.adverts.now (script_filters script.now ++ more_filters)
        (script_adverts script.now ++ more_adverts)
        → OnOk result (AreNumbers filters adverts numbers.new.filters.now numbers.new.adverts.now more_filters more_adverts) }
{
    let mut steps = Vec::with_capacity(alloc, script.len())?;
    let mut count = 0;
    for (phase, command) in script {
        let id = Id {
            publisher,
            ordinal: count + 1,
        };
        let numbered = number(alloc, numbers, publications, id, *phase, command)?;
        steps.push((*phase, numbered))?;
        count = publishes_after(count, command);
    }
    Ok(Lists::of(steps))
}

/// The scripts of all clients by numbers, and what they publish.
pub(crate) fn number_all(
    alloc: Global,
    numbers: &mut Numbers<'_>,
    publications: &mut Vec<Publication>,
    clients: &[Client],
) -> Result<Vec<Lists<(u32, NumberedCommand)>>, NoMemory>
    requires numbers { (filters : List (List ConstraintParts)) × (adverts : List (List ConstraintParts))
        × AreNumbers filters adverts numbers.old.filters.now numbers.old.adverts.now
        (flat_map (λ client. script_filters client.script) clients.now) (flat_map (λ client. script_adverts client.script) clients.now) }
    requires none { publications.old.items ≡ [] }
    requires few { length clients.now ≤ 1024 }
    requires few_publications { length (known_publications 1 clients.now) ≤ 100000 }
    ensures publications { OnOk result (publications.new.items ≡ known_publications 1 clients.now) }
    ensures represents { (filters adverts : List (List ConstraintParts)) → AreNumbers filters adverts numbers.old.filters.now numbers.old.adverts.now
        (flat_map (λ client. script_filters client.script) clients.now) (flat_map (λ client. script_adverts client.script) clients.now)
        → IfOk result (λ scripts. AllNumbered (catalogue_of filters adverts publications.new.items) 1 scripts.items clients.now) }
{
    let mut scripts = Vec::with_capacity(alloc, clients.len())?;
    for (i, client) in clients.iter().enumerate() {
        let publisher = i as u32 + 1;
        let script = number_script(alloc, numbers, publications, publisher, &client.script)?;
        scripts.push(script)?;
    }
    Ok(scripts)
}
