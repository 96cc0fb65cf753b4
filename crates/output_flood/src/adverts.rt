//! Follows a client's advertisements through its script.
ghost use Rattle.std.specs.Prelude.{◌≡◌, [], filter, not, IfOk, OnOk};
ghost use Rattle.filter_types.specs.Cover.{advert_covers};
ghost use Rattle.output_flood.specs.Held.{advert_step, held_adverts, unadvertises, unadvertised};

use base::NoMemory;
use filter_covering::advert_covers;
use filter_text::Command;
use filter_types::Advert;
use std::alloc::Global;

// Takes away all that it covers.
fn withdraw(adverts: &mut Vec<Advert>, advert: &Advert)
    ensures { adverts.new.items ≡ filter (λ x. not (advert_covers advert.now x)) adverts.old.items }
{
    adverts.retain(|kept| !advert_covers(advert, kept));
}

/// One command.
pub(crate) fn step(
    alloc: Global,
    adverts: &mut Vec<Advert>,
    command: &Command,
) -> Result<(), NoMemory>
    ensures { OnOk result (adverts.new.items ≡ advert_step adverts.old.items command.now) }
{
    match command {
        Command::Advertise(advert) => {
            adverts.push(advert.copy(alloc)?)?;
            Ok(())
        }
        Command::Unadvertise(advert) => {
            withdraw(adverts, advert);
            Ok(())
        }
        _ => Ok(()),
    }
}

/// The advertisements after these commands.
pub(crate) fn held(alloc: Global, script: &[(u32, Command)]) -> Result<Vec<Advert>, NoMemory>
    ensures { IfOk result (λ adverts. adverts.items ≡ held_adverts [] script.now) }
{
    let mut adverts = Vec::new(alloc);
    for (_, command) in script {
        step(alloc, &mut adverts, command)?;
    }
    Ok(adverts)
}

// Whether the command takes the advertisement away.
fn withdraws(command: &Command, advert: &Advert) -> bool
    ensures { result ≡ unadvertises command.now advert.now }
{
    match command {
        Command::Unadvertise(other) => advert_covers(other, advert),
        _ => false,
    }
}

// Whether one of these commands takes the advertisement away.
fn is_withdrawn(advert: &Advert, script: &[(u32, Command)]) -> bool
    ensures { result ≡ unadvertised advert.now script.now }
{
    for (_, command) in script {
        if withdraws(command, advert) {
            return true;
        }
    }
    false
}

/// Those of the advertisements that no command takes away.
pub(crate) fn lasting(
    alloc: Global,
    adverts: &[Advert],
    script: &[(u32, Command)],
) -> Result<Vec<Advert>, NoMemory>
    ensures { IfOk result (λ kept. kept.items ≡ filter (λ a. not (unadvertised a script.now)) adverts.now) }
{
    let mut kept = Vec::new(alloc);
    for advert in adverts {
        if !is_withdrawn(advert, script) {
            kept.push(advert.copy(alloc)?)?;
        }
    }
    Ok(kept)
}
