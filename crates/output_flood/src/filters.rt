//! A client's filters by their numbers, phase by phase.
ghost use Rattle.std.specs.Prelude.{◌≡◌, ◌<◌, ◌≤◌, ◌-◌, ◌+◌, nat_lt, length, [], ◌∷◌, cond, filter, not, take, drop, IfOk};
ghost use Rattle.filter_types.specs.Cover.{filter_covers};
ghost use Rattle.base.specs.Sets.{put_in, minus};
ghost use Rattle.base_order.specs.Order.{covers_at};
ghost use Rattle.output_flood.specs.Numbers.{Steps, IsNumber, AreNumbers, uncovered, number_step, numbers_held, lasting_step, numbers_lasting};
ghost use Rattle.output_flood.specs.Numbers.{adding_step, numbers_added, every_number, ever_number, IsAt, IsSized};

use crate::phase::{below, within};
use base::{Cover, NoMemory};
use base_bits::Row;
use base_pool::Items;
use filter_covering::Sub;
use net_tables::NumberedCommand;
use std::alloc::Global;

/// The filters of a client by their numbers, as its script is gone through.
#[derive(Drop)]
pub(crate) struct ClientFilters {
    /// How many of its commands are behind.
    pub done: usize,
    /// Those that it has then.
    pub now: Row,
    /// Those that it has at every moment of a phase.
    pub every: Row,
    /// Those that it has at some moment of the phase.
    pub ever: Row,
}

// Takes a number out where it holds.
fn take_if(row: &mut Row, i: u32, holds: bool)
    requires { i < row.old.width }
    ensures width { row.new.width ≡ row.old.width }
    ensures members { row.new.members ≡ cond holds (minus nat_lt row.old.members (i ∷ [])) row.old.members }
{
    if holds {
        row.remove(i);
    }
}

// Whether the filter of a number covers that of another one.
fn covers(filters: &Items<Sub>, i: u32, k: u32) -> bool
    requires one { i < length filters.now }
    requires other { k < length filters.now }
    ensures { result ≡ covers_at filter_covers filters.now i k }
{
    let one = filters.at(i as usize);
    let other = filters.at(k as usize);
    one.covers(other)
}

// Takes all out that a filter covers.
fn withdraw(filters: &Items<Sub>, row: &mut Row, by: u32)
    requires by { by < length filters.now }
    requires width { row.old.width ≡ length filters.now }
    ensures width { row.new.width ≡ row.old.width }
    ensures members { row.new.members ≡ uncovered filters.now by row.old.members }
{
    row.lemma_sorted();
    let mut at = 0;
    while let Some(k) = row.first_from(at) {
        let covered = covers(filters, by, k);
        take_if(row, k, covered);
        at = k + 1;
    }
    row.lemma_sorted();
}

// Puts in what a command adds.
fn add(row: &mut Row, command: NumberedCommand)
    requires { IsNumber row.old.width command }
    ensures width { row.new.width ≡ row.old.width }
    ensures members { row.new.members ≡ adding_step row.old.members command }
{
    if let NumberedCommand::Subscribe(i) = command {
        row.insert(i);
    }
}

// Takes out what a command takes away.
fn take_away(filters: &Items<Sub>, row: &mut Row, command: NumberedCommand)
    requires number { IsNumber (length filters.now) command }
    requires width { row.old.width ≡ length filters.now }
    ensures width { row.new.width ≡ row.old.width }
    ensures members { row.new.members ≡ lasting_step filters.now row.old.members command }
{
    if let NumberedCommand::Unsubscribe(i) = command {
        withdraw(filters, row, i);
    }
}

// One command.
fn step(filters: &Items<Sub>, row: &mut Row, command: NumberedCommand)
    requires number { IsNumber (length filters.now) command }
    requires width { row.old.width ≡ length filters.now }
    ensures width { row.new.width ≡ row.old.width }
    ensures members { row.new.members ≡ number_step filters.now row.old.members command }
{
    add(row, command);
    take_away(filters, row, command);
}

// All commands.
fn go_through(filters: &Items<Sub>, row: &mut Row, steps: &[(u32, NumberedCommand)])
    requires numbers { AreNumbers (length filters.now) steps.now }
    requires width { row.old.width ≡ length filters.now }
    ensures width { row.new.width ≡ row.old.width }
    ensures members { row.new.members ≡ numbers_held filters.now row.old.members steps.now }
{
    for (_, command) in steps {
        step(filters, row, *command);
    }
}

// The commands of a phase: what they take away is not there at every moment of it, and what they add is there at some.
fn go_through_phase(
    filters: &Items<Sub>,
    every: &mut Row,
    ever: &mut Row,
    steps: &[(u32, NumberedCommand)],
)
    requires numbers { AreNumbers (length filters.now) steps.now }
    requires every_width { every.old.width ≡ length filters.now }
    requires ever_width { ever.old.width ≡ length filters.now }
    ensures every_width { every.new.width ≡ every.old.width }
    ensures ever_width { ever.new.width ≡ ever.old.width }
    ensures every { every.new.members ≡ numbers_lasting filters.now every.old.members steps.now }
    ensures ever { ever.new.members ≡ numbers_added ever.old.members steps.now }
{
    for (_, command) in steps {
        take_away(filters, every, *command);
        add(ever, *command);
    }
}

impl ClientFilters {
    ghost use Rattle.std.specs.Prelude.{◌≡◌, ◌≤◌, [], length, IfOk};
    ghost use Rattle.output_flood.specs.Numbers.{AreNumbers, every_number, ever_number, IsAt, IsSized};

    /// No filters, before the first command.
    pub(crate) fn none(alloc: Global, count: u32) -> Result<ClientFilters, NoMemory>
        ensures sized { IfOk result (IsSized count) }
        ensures done { IfOk result (λ client. client.done ≡ 0) }
        ensures now { IfOk result (λ client. client.now.members ≡ []) }
        ensures every { IfOk result (λ client. client.every.members ≡ []) }
        ensures ever { IfOk result (λ client. client.ever.members ≡ []) }
    {
        Ok(ClientFilters {
            done: 0,
            now: Row::new(alloc, count)?,
            every: Row::new(alloc, count)?,
            ever: Row::new(alloc, count)?,
        })
    }

    // Starts anew where a place of the script is behind.
    fn step_back(&mut self, filters: &Items<Sub>, steps: &[(u32, NumberedCommand)], to: usize)
        requires sized { IsSized (length filters.now) self.old }
        requires at { IsAt filters.now steps.now self.old }
        ensures sized { IsSized (length filters.now) self.new }
        ensures at { IsAt filters.now steps.now self.new }
        ensures before { self.new.done ≤ to }
    {
        let _ = filters;
        let _ = steps;
        if to < self.done {
            self.now.clear();
            self.done = 0;
        }
    }

    // Goes on to a place of the script.
    fn go_on(&mut self, filters: &Items<Sub>, steps: &[(u32, NumberedCommand)], to: usize)
        requires numbers { AreNumbers (length filters.now) steps.now }
        requires sized { IsSized (length filters.now) self.old }
        requires at { IsAt filters.now steps.now self.old }
        requires within { to ≤ length steps.now }
        ensures sized { IsSized (length filters.now) self.new }
        ensures at { IsAt filters.now steps.now self.new }
        ensures done { self.new.done ≡ to }
    {
        self.step_back(filters, steps, to);
        go_through(filters, &mut self.now, &steps[self.done..to]);
        self.done = to;
    }

    /// Goes on to a phase of the script.
    pub(crate) fn enter(
        &mut self,
        filters: &Items<Sub>,
        steps: &[(u32, NumberedCommand)],
        phase: u32,
    )
        requires numbers { AreNumbers (length filters.now) steps.now }
        requires sized { IsSized (length filters.now) self.old }
        requires at { IsAt filters.now steps.now self.old }
        ensures sized { IsSized (length filters.now) self.new }
        ensures at { IsAt filters.now steps.now self.new }
        ensures every { self.new.every.members ≡ every_number filters.now phase steps.now }
        ensures ever { self.new.ever.members ≡ ever_number filters.now phase steps.now }
    {
        self.go_on(filters, steps, below(steps, u64::from(phase)));
        let within = within(steps, phase);
        self.every.copy_from(&self.now);
        self.ever.copy_from(&self.now);
        go_through_phase(filters, &mut self.every, &mut self.ever, within);
    }
}
