//! Keeps the filters and advertisements that scripts name, each distinct one once, and numbers them by command.
ghost use Rattle.std.specs.Prelude.{◌≡◌, ◌^◌, ◌≤◌, ◌∷◌, [], ◌++◌, List, length, IfOk, OnOk};
ghost use Rattle.std.specs.List.{flat_map};
ghost use Rattle.filter_text.specs.Messages.{Lists};
ghost use Rattle.filter_types.specs.Before.{list_before};
ghost use Rattle.net_tables.specs.Known.{filters_in, adverts_in, script_filters, script_adverts, known_filters, known_adverts};
ghost use Rattle.net_tables.specs.Numbering.{AreNumbersOf, AreCounted, AreKept};

use base::{Cover, NoMemory};
use base_pool::{Items, Key, Pool};
use filter_covering::{Ad, Sub};
use net_model::{Client, Command};
use std::alloc::Global;

/// The items that scripts name, each once, and the number of each that a command names, in the order of the commands.
#[derive(Drop)]
pub(crate) struct Named<T: Cover> {
    /// The items by their numbers.
    pub items: Items<T>,
    /// The numbers that commands name.
    pub numbers: Vec<u32>,
}

/// The items that the commands so far name, with a holder for each command, and the key of each, in their order.
#[derive(Drop)]
struct Kept<T: Cover> {
    pool: Pool<T>,
    keys: Vec<Key>,
    ghost counted: { AreCounted (length keys.items) pool.slots },
}

// Keeps an item once more. It has no more holders than there are keys in memory, so nothing but memory is lacking.
fn keep<T: Cover + Drop>(kept: &mut Kept<T>, item: T) -> Result<(), NoMemory>
    ensures { (named : List T) → AreKept T.order kept.old.pool kept.old.keys.items named
        → OnOk result (AreKept T.order kept.new.pool kept.new.keys.items (named ++ item ∷ [])) }
{
    kept.keys.reserve(1)?;
    kept.pool.reserve(1)?;
    let Ok(key) = kept.pool.keep(item) else {
        unreachable!()
    };
    kept.keys.push_reserved(key);
    Ok(())
}

// Numbers what was kept.
fn numbered<T: Cover + Drop>(alloc: Global, kept: Kept<T>) -> Result<Named<T>, NoMemory>
    requires kept { (named : List T) × AreKept T.order kept.pool kept.keys.items named }
    requires few { length kept.pool.items ≤ 2 ^ 32 }
    ensures items { IfOk result (λ named. named.items ≡ kept.pool.items) }
    ensures numbers { (named : List T) → AreKept T.order kept.pool kept.keys.items named
        → IfOk result (λ r. AreNumbersOf kept.pool.items r.numbers.items named) }
{
    let Kept { pool, keys } = kept;
    let numbers = pool.numbers(alloc, &keys)?;
    let items = Items::of(pool);
    Ok(Named { items, numbers })
}

// Keeps the filter of a command, where it has one.
#[tactic(auto, using(crate::proofs::Kept::none_kept))]
fn keep_filter(alloc: Global, kept: &mut Kept<Sub>, command: &Command) -> Result<(), NoMemory>
    ensures { (named : Lists) → AreKept list_before kept.old.pool kept.old.keys.items named
        → OnOk result (AreKept list_before kept.new.pool kept.new.keys.items (named ++ filters_in command.now)) }
{
    match command {
        Command::Subscribe(filter) => keep(kept, Sub(filter.copy(alloc)?)),
        Command::Unsubscribe(filter) => keep(kept, Sub(filter.copy(alloc)?)),
        _ => Ok(()),
    }
}

// Keeps the filters of a script.
fn keep_filters(
    alloc: Global,
    kept: &mut Kept<Sub>,
    script: &[(u32, Command)],
) -> Result<(), NoMemory>
    ensures { (named : Lists) → AreKept list_before kept.old.pool kept.old.keys.items named
        → OnOk result (AreKept list_before kept.new.pool kept.new.keys.items (named ++ script_filters script.now)) }
{
    for (_, command) in script {
        keep_filter(alloc, kept, command)?;
    }
    Ok(())
}

/// The filters of all scripts, with a holder in the pool for each command that names one.
pub(crate) fn filters(alloc: Global, clients: &[Client]) -> Result<Named<Sub>, NoMemory>
    requires { length (known_filters clients.now) ≤ 2 ^ 32 }
    ensures items { IfOk result (λ named. named.items ≡ known_filters clients.now) }
    ensures numbers { IfOk result (λ named. AreNumbersOf (known_filters clients.now) named.numbers.items
        (flat_map (λ client. script_filters client.script) clients.now)) }
{
    let mut kept = Kept {
        pool: Pool::new(alloc),
        keys: Vec::new(alloc),
    };
    for client in clients {
        keep_filters(alloc, &mut kept, &client.script)?;
    }
    numbered(alloc, kept)
}

// Keeps the advertisement of a command, where it has one.
#[tactic(auto, using(crate::proofs::Kept::none_kept))]
fn keep_advert(alloc: Global, kept: &mut Kept<Ad>, command: &Command) -> Result<(), NoMemory>
    ensures { (named : Lists) → AreKept list_before kept.old.pool kept.old.keys.items named
        → OnOk result (AreKept list_before kept.new.pool kept.new.keys.items (named ++ adverts_in command.now)) }
{
    match command {
        Command::Advertise(advert) => keep(kept, Ad(advert.copy(alloc)?)),
        Command::Unadvertise(advert) => keep(kept, Ad(advert.copy(alloc)?)),
        _ => Ok(()),
    }
}

// Keeps the advertisements of a script.
fn keep_adverts(
    alloc: Global,
    kept: &mut Kept<Ad>,
    script: &[(u32, Command)],
) -> Result<(), NoMemory>
    ensures { (named : Lists) → AreKept list_before kept.old.pool kept.old.keys.items named
        → OnOk result (AreKept list_before kept.new.pool kept.new.keys.items (named ++ script_adverts script.now)) }
{
    for (_, command) in script {
        keep_advert(alloc, kept, command)?;
    }
    Ok(())
}

/// The advertisements of all scripts, with a holder in the pool for each command that names one.
pub(crate) fn adverts(alloc: Global, clients: &[Client]) -> Result<Named<Ad>, NoMemory>
    requires { length (known_adverts clients.now) ≤ 2 ^ 32 }
    ensures items { IfOk result (λ named. named.items ≡ known_adverts clients.now) }
    ensures numbers { IfOk result (λ named. AreNumbersOf (known_adverts clients.now) named.numbers.items
        (flat_map (λ client. script_adverts client.script) clients.now)) }
{
    let mut kept = Kept {
        pool: Pool::new(alloc),
        keys: Vec::new(alloc),
    };
    for client in clients {
        keep_adverts(alloc, &mut kept, &client.script)?;
    }
    numbered(alloc, kept)
}
