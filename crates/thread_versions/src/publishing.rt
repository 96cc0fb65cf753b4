//! Adds pending changes, and installs them in one table update.
ghost use Rattle.std.specs.Prelude.{◌≡◌, ◌↔◌, ◌+◌, ◌++◌, ◌∷◌, [], cond, false, drop, length, IfOk, OnOk, OnErr, MatchResult};
ghost use Rattle.left_right.specs.Sides.{view};
ghost use Rattle.match_routes.specs.Installed.{pair_in, IsKnown, IsOfSame};
ghost use Rattle.match_routes.specs.Routes.{IsRouteBy};
ghost use Rattle.thread_versions.specs.Pairs.{pairs_after};
ghost use Rattle.thread_versions.specs.Chain.{IsFolded, IsHanded, IsNamedBy, IsShownAfter, MayShow};
ghost use Rattle.thread_versions.specs.Ends.{HasRoom, pending, installed, forwarding_of, shows, IsSamePublisher};

use crate::front::Front;
use crate::publisher::Publisher;
use crate::rule::{Shows, VersionWriter};
use crate::version::Step;
use base::NoMemory;
use base_bits::Set;
use core::mem::{replace, replace_with};
use match_routes::{Route, TableChange};
use std::alloc::Global;
use std::sync::Wait;

impl Publisher {
    /// How many changes are installed.
    pub fn count(&self) -> u128
        ensures { result ≡ length (installed self.now) }
    {
        self.shown.count
    }

    /// The route of matched numbers by what is installed.
    pub fn route(&self, alloc: Global, matched: &Set<'_>) -> Result<Route, NoMemory>
        requires { matched.now.width ≡ (forwarding_of self.now).width }
        ensures { IfOk result (IsRouteBy matched.now.members (pairs_after (installed self.now))) }
    {
        self.writer.published().forwarding.route(alloc, matched)
    }

    /// Makes a change pending, whose number is below the width and whose interface is one of the server's. It fails only where it
    /// needs more memory.
    pub fn stage(&mut self, change: TableChange) -> Result<(), NoMemory>
        requires { IsKnown (forwarding_of self.old) (pair_in change) }
        ensures same { IsSamePublisher self.old self.new }
        ensures installed { installed self.new ≡ installed self.old }
        ensures none { shows self.new ≡ shows self.old }
        ensures pending { MatchResult result (λ _. pending self.new ≡ pending self.old ++ change ∷ []) (λ _. pending self.new ≡ pending self.old) }
        ensures memory { OnErr result (HasRoom self.old → ⊥) }
    {
        self.waiting.reserve(1)?;
        self.waiting.push_reserved(change);
        self.history.push(&change);
        Ok(())
    }

    /// Publishes all pending changes at once, by just one show, or none where it finds no memory. `false` exactly where nothing is pending.
    /// It may wait for a viewer that is inside a match, and waits for ever where all changes that were ever pending are 2^128 or more.
    pub fn publish<R: Wait>(&mut self, rt: &R) -> Result<bool, NoMemory>
        ensures same { IsSamePublisher self.old self.new }
        ensures pending { pending self.new ≡ pending self.old }
        ensures some { IfOk result (λ b. (b ≡ false) ↔ (pending self.old ≡ installed self.old)) }
        ensures installed { MatchResult result (λ _. installed self.new ≡ pending self.old) (λ _. installed self.new ≡ installed self.old) }
        ensures once { MatchResult result (λ some. shows self.new ≡ shows self.old + cond some 1 0) (λ _. shows self.new ≡ shows self.old) }
    {
        if self.waiting.is_empty() {
            return Ok(false);
        }
        let front = self.pending_front(rt);
        hand_over(self.alloc, &mut self.writer, &mut self.waiting, &front)?;
        show(rt, &mut self.writer);
        self.shown = front;
        Ok(true)
    }

    /// All changes that were ever pending, with their number. It waits for ever where that is 2^128 or more.
    fn pending_front<R: Wait>(&self, rt: &R) -> Front
        ensures { result.seen ≡ self.now.history }
    {
        let waiting = self.waiting.len() as u128;
        for _ in rt.forever() {
            if let Some(count) = self.shown.count.checked_add(waiting) {
                return Front {
                    count,
                    seen: self.history.past(),
                };
            }
        }
        unreachable!()
    }

    /// Ends the publisher. It may wait for a viewer that is inside a match.
    pub fn end<R: Wait>(self, rt: &R) {
        let Publisher {
            alloc: _,
            writer,
            history: _history,
            waiting: _waiting,
            shown: _shown,
        } = self;
        drop(writer.take(rt));
    }
}

/// Hands the waiting changes over to the writer, with the history up to the last of them.
fn hand_over(
    alloc: Global,
    writer: &mut VersionWriter,
    waiting: &mut Vec<TableChange>,
    front: &Front,
) -> Result<(), NoMemory>
    requires none { drop writer.old.behind writer.old.log.items ≡ [] }
    ensures desk { writer.new.desk ≡ writer.old.desk }
    ensures handed { OnOk result (IsHanded waiting.old.items front.now.seen (drop writer.new.behind writer.new.log.items)) }
    ensures none { OnOk result (waiting.new.items ≡ []) }
    ensures same { OnErr result ((drop writer.new.behind writer.new.log.items ≡ []) × (waiting.new.items ≡ waiting.old.items)) }
{
    let step = Step {
        changes: replace(waiting, Vec::new(alloc)),
        front: front.again(),
    };
    if let Err(step) = writer.append(step) {
        *waiting = step.changes;
        return Err(NoMemory);
    }
    Ok(())
}

/// Publishes what the writer was handed. It takes no memory.
fn show<R: Wait>(rt: &R, writer: &mut VersionWriter)
    requires folded { IsFolded writer.old.desk.shown.value }
    requires may { MayShow writer.old.desk.shown.value (drop writer.old.behind writer.old.log.items) }
    ensures shown { IsShownAfter writer.old.desk.shown.value (drop writer.old.behind writer.old.log.items) writer.new.desk.shown.value }
    ensures once { (view writer.new.desk.place).shows ≡ (view writer.old.desk.place).shows + 1 }
    ensures left { drop writer.new.behind writer.new.log.items ≡ [] }
{
    replace_with(writer, rt, |writer, rt| (publish_now(rt, writer), ()));
}

/// The writer, which has published what it was handed. It takes no memory.
pub(crate) fn publish_now<R: Wait>(rt: &R, writer: VersionWriter) -> VersionWriter
    requires folded { IsFolded writer.desk.shown.value }
    requires may { MayShow writer.desk.shown.value (drop writer.behind writer.log.items) }
    ensures shown { IsShownAfter writer.desk.shown.value (drop writer.behind writer.log.items) result.desk.shown.value }
    ensures book { IsNamedBy result.desk.shown.value.front.seen.book result.desk.shown.value.forwarding.width (view result.desk.place) }
    ensures once { (view result.desk.place).shows ≡ (view writer.desk.place).shows + 1 }
    ensures left { drop result.behind result.log.items ≡ [] }
{
    match writer.publish_as::<Shows, R>(rt) {
        (writer, Ok(())) => writer,
        (_, Err(_)) => unreachable!(),
    }
}
