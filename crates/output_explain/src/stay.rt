//! Finds when a filter or an advertisement of a client is in force within a phase.
ghost use Rattle.std.specs.Prelude.{◌≡◌, ◌+◌, ◌<◌, ◌≤◌, ◌^◌, false, length, IfSome};
ghost use Rattle.output_explain.specs.Stays.{is_throughout, is_there, moment_of, same_effect, stay_of};

use filter_covering::{Ad, Sub, advert_covers, filter_covers};
use filter_text::Command;

/// When a filter or an advertisement is in force within a phase, for the first time there. Commands of the client are
/// numbered from 1 through all phases.
#[derive(Clone, Copy, Debug, PartialEq, Eq)]
pub struct Stay {
    /// The command with which it comes; none where it is in force when the phase begins.
    pub since: Option<usize>,
    /// The command with which it goes; none where it stays to the end of the phase.
    pub until: Option<usize>,
}

/// What a command does to a filter or an advertisement in its client's list.
#[derive(Clone, Copy, Debug, PartialEq, Eq)]
pub(crate) enum Effect {
    /// It puts it in.
    Adds,
    /// It takes it out.
    Withdraws,
    /// It leaves it there or not, as it was.
    Leaves,
}

/// What stands in a client's list. The contract names what a command does to it.
pub(crate) trait Listing {
    ghost use Rattle.std.specs.Prelude.{◌≡◌};
    ghost use Rattle.filter_text.specs.declared.command.Command.{Command};
    ghost use Rattle.output_explain.specs.declared.stay.Effect.{Effect};

    ghost effect: { Self → Command → Effect };

    /// What a command does to it.
    fn effect_of(&self, command: &Command) -> Effect
        ensures { result ≡ effect self.now command.now };
}

impl Listing for Sub {
    ghost use Rattle.output_explain.specs.Stays.{filter_effect};

    ghost effect = { filter_effect };

    fn effect_of(&self, command: &Command) -> Effect {
        match command {
            Command::Subscribe(filter) if self.0 == *filter => Effect::Adds,
            Command::Unsubscribe(filter) if filter_covers(filter, &self.0) => Effect::Withdraws,
            _ => Effect::Leaves,
        }
    }
}

impl Listing for Ad {
    ghost use Rattle.output_explain.specs.Stays.{advert_effect};

    ghost effect = { advert_effect };

    fn effect_of(&self, command: &Command) -> Effect {
        match command {
            Command::Advertise(advert) if self.0 == *advert => Effect::Adds,
            Command::Unadvertise(advert) if advert_covers(advert, &self.0) => Effect::Withdraws,
            _ => Effect::Leaves,
        }
    }
}

impl Effect {
    ghost use Rattle.std.specs.Prelude.{◌≡◌};
    ghost use Rattle.output_explain.specs.Stays.{same_effect, there_after};

    // Whether it is the other one.
    fn is(self, other: Effect) -> bool
        ensures { result ≡ same_effect self other }
    {
        match (self, other) {
            (Effect::Adds, Effect::Adds) => true,
            (Effect::Withdraws, Effect::Withdraws) => true,
            (Effect::Leaves, Effect::Leaves) => true,
            _ => false,
        }
    }

    // Whether what was there or not is there after it.
    fn after(self, there: bool) -> bool
        ensures { result ≡ there_after there self }
    {
        match self {
            Effect::Adds => true,
            Effect::Withdraws => false,
            Effect::Leaves => there,
        }
    }
}

impl Stay {
    ghost use Rattle.std.specs.Prelude.{◌≡◌};
    ghost use Rattle.output_explain.specs.Stays.{is_throughout};

    /// Whether it is in force all through the phase.
    pub fn is_throughout(self) -> bool
        ensures { result ≡ is_throughout self }
    {
        match (self.since, self.until) {
            (None, None) => true,
            _ => false,
        }
    }
}

/// Whether it is in the client's list after these commands.
pub(crate) fn is_there<L: Listing>(item: &L, commands: &[(u32, Command)]) -> bool
    ensures { result ≡ is_there (L.effect item.now) false commands.now }
{
    let mut there = false;
    for (_, command) in commands {
        there = item.effect_of(command).after(there);
    }
    there
}

// Of commands behind so many others the first with an effect: how many are taken with it.
fn moment_of<L: Listing>(
    item: &L,
    wanted: Effect,
    count: usize,
    commands: &[(u32, Command)],
) -> Option<usize>
    requires { count + length commands.now < 2 ^ 64 }
    ensures value { result ≡ moment_of (L.effect item.now) wanted count commands.now }
    ensures within { IfSome result (λ moment. (count < moment) × (moment ≤ count + length commands.now)) }
{
    let mut taken = count;
    for (_, command) in commands {
        taken += 1;
        if item.effect_of(command).is(wanted) {
            return Some(taken);
        }
    }
    None
}

/// When it is in force within a phase, by the commands before the phase and those of the phase; none where it never is.
pub(crate) fn stay_of<L: Listing>(
    item: &L,
    before: &[(u32, Command)],
    within: &[(u32, Command)],
) -> Option<Stay>
    requires { length before.now + length within.now < 2 ^ 64 }
    ensures { result ≡ stay_of (L.effect item.now) before.now within.now }
{
    let count = before.len();
    if is_there(item, before) {
        let until = moment_of(item, Effect::Withdraws, count, within);
        return Some(Stay { since: None, until });
    }
    let Some(moment) = moment_of(item, Effect::Adds, count, within) else {
        return None;
    };
    let until = moment_of(item, Effect::Withdraws, moment, &within[moment - count..]);
    Some(Stay {
        since: Some(moment),
        until,
    })
}
