//! Makes room for a turn, and then puts what its step sends, which takes no memory.
ghost use Rattle.std.specs.Prelude.{◌≡◌, ◌<◌, ◌≤◌, ◌^◌, [], ◌∷◌, ◌++◌, true, length, map, IfOk, OnOk, vec_capacity};
ghost use Rattle.thread_lane.specs.Lane.{put_list, spare};
ghost use Rattle.base.specs.Numbers.{IsDistinct};
ghost use Rattle.net_model.specs.Parts.{NetParts};
ghost use Rattle.net_model.specs.Parts.{entry_parts};
ghost use Rattle.filter_text.specs.MessageText.{Each};
ghost use Rattle.thread_cell.specs.Links.{Both, IsRoomed};
ghost use Rattle.thread_cell.specs.LaneMessages.{IsGiven, AreInOrder, AreOfNet};

use crate::link::{Link, hand_all, room_all};
use base::NoMemory;
use net_journal::Journal;
use net_model::{Act, Entry};
use server_core::Step;
use server_message::Sending;
use std::alloc::Global;

/// Makes room for a message on each lane, for an entry of the journal, and for the receivers of a step.
pub(crate) fn make_room(
    alloc: Global,
    links: &mut Vec<Link>,
    journal: &mut Journal,
) -> Result<Vec<u32>, NoMemory>
    ensures roomed { Both IsRoomed links.old.items links.new.items }
    ensures journal { journal.new.entries ≡ journal.old.entries }
    ensures kept { journal.new.kept ≡ journal.old.kept }
    ensures spare { OnOk result (Each (λ link. 0 < spare link.enter) links.new.items) }
    ensures entry { OnOk result (journal.new.room ≡ true) }
    ensures outs { IfOk result (λ outs. (outs.items ≡ []) × (length links.old.items ≤ vec_capacity outs)) }
{
    room_all(links)?;
    journal.make_room()?;
    Ok(Vec::with_capacity(alloc, links.len())?)
}

/// Writes down the receivers.
fn receivers(mut outs: Vec<u32>, sent: &[Sending<'_>]) -> Vec<u32>
    requires empty { outs.items ≡ [] }
    requires room { length sent.now ≤ vec_capacity outs }
    ensures { result.items ≡ map (λ s. s.to) sent.now }
{
    for s in sent {
        outs.push_reserved(s.to);
    }
    outs
}

/// Puts what a step sends on its lanes, and enters it in the journal. There is room for both, so it takes no memory.
pub(crate) fn enter(
    links: &mut Vec<Link>,
    journal: &mut Journal,
    server: u32,
    act: Act,
    step: Step<'_>,
    outs: Vec<u32>,
)
    requires spare { Each (λ link. 0 < spare link.enter) links.old.items }
    requires few { Each (λ link. length (put_list link.enter) < 2 ^ 63) links.old.items }
    requires low { step.stamp < 2 ^ 62 }
    requires net { (net : NetParts) × AreOfNet net step.sent.items }
    requires distinct { IsDistinct (map (λ link. link.neighbour) links.old.items) }
    requires order { AreInOrder (map (λ s. s.to) step.sent.items) (map (λ link. link.neighbour) links.old.items) }
    requires entry { journal.old.room ≡ true }
    requires outs { (outs.items ≡ []) × (length links.old.items ≤ vec_capacity outs) }
    ensures given { (net : NetParts) → AreOfNet net step.entry.sent.items
        → Both (IsGiven net step.entry.stamp step.entry.sent.items) links.old.items links.new.items }
    ensures entry { journal.new.entries ≡ journal.old.entries ++ entry_parts step.entry.stamp server act (map (λ s. s.to) step.entry.sent.items) ∷ [] }
    ensures kept { journal.new.kept ≡ journal.old.kept }
{
    let Step { stamp, sent } = step;
    let outs = receivers(outs, &sent);
    hand_all(links, sent, stamp);
    journal.push(Entry {
        stamp,
        server,
        act,
        outs,
    });
}
