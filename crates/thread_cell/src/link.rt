//! The type of the two lanes between a server and one neighbour, and what is done on all of them.
ghost use Rattle.std.specs.Prelude.{◌≡◌, ◌<◌, ◌≤◌, ◌^◌, [], ℕ, OnOk, IfSome, IfNone, length, map};
ghost use Rattle.thread_lane.specs.Lane.{put_list, spare};
ghost use Rattle.base.specs.Numbers.{IsDistinct};
ghost use Rattle.server_message.specs.declared.stamped.StampedLoad.{StampedLoad as ItemParts};
ghost use Rattle.net_model.specs.Parts.{NetParts};
ghost use Rattle.filter_text.specs.MessageText.{Each};
ghost use Rattle.thread_cell.specs.Links.{Both, At, IsNeighbour, IsOneLane, IsUnmoved, IsSettledLane, IsRoomed};
ghost use Rattle.thread_cell.specs.LaneReceiving.{IsNextAt};
ghost use Rattle.thread_cell.specs.LaneMessages.{IsGiven, AreInOrder, AreOfNet};

use base::NoMemory;
use server_message::{Sending, StampedLoad};
use thread_lane::{LaneIn, LaneOut, settle};

/// The lanes to and from a neighbour.
#[derive(Drop)]
pub struct Link {
    pub(crate) neighbour: u32,
    pub(crate) enter: LaneIn<StampedLoad>,
    pub(crate) leave: LaneOut<StampedLoad>,
}

impl Link {
    ghost use Rattle.std.specs.Prelude.{◌≡◌, ◌<◌, ◌^◌, length, OnOk};
    ghost use Rattle.thread_lane.specs.Lane.{put_list, spare};
    ghost use Rattle.net_model.specs.Parts.{NetParts};
    ghost use Rattle.thread_cell.specs.Links.{IsRoomed};
    ghost use Rattle.thread_cell.specs.LaneMessages.{AreOfNet, IsPut, first_for, rest_for};

    /// Makes room for one item.
    fn room(&mut self) -> Result<(), NoMemory>
        ensures roomed { IsRoomed self.old self.new }
        ensures room { OnOk result (0 < spare self.new.enter) }
    {
        self.enter.room(1)
    }

    /// Puts the first of what is sent, if it is for this neighbour.
    fn put_first(&mut self, sent: &mut Vec<Sending<'_>>, stamp: u64)
        requires room { 0 < spare self.old.enter }
        requires few { length (put_list self.old.enter) < 2 ^ 63 }
        requires low { stamp < 2 ^ 62 }
        ensures put { (net : NetParts) → AreOfNet net sent.old.items → IsPut net stamp (first_for self.old.neighbour sent.old.items) self.old self.new }
        ensures rest { sent.new.items ≡ rest_for self.old.neighbour sent.old.items }
    {
        if sent.is_empty() || sent[0].to != self.neighbour {
            return;
        }
        let Sending { to: _, message } = sent.remove(0);
        self.enter.put(StampedLoad::of(stamp, message.into_load()));
    }
}

/// Makes room for one item on each lane.
pub(crate) fn room_all(links: &mut [Link]) -> Result<(), NoMemory>
    ensures roomed { Both IsRoomed links.old links.new }
    ensures room { OnOk result (Each (λ link. 0 < spare link.enter) links.new) }
{
    for link in links.iter_mut() {
        link.room()?;
    }
    Ok(())
}

/// Puts what is sent on its lanes, and flushes all.
pub(crate) fn hand_all(links: &mut [Link], mut sent: Vec<Sending<'_>>, stamp: u64)
    requires room { Each (λ link. 0 < spare link.enter) links.old }
    requires few { Each (λ link. length (put_list link.enter) < 2 ^ 63) links.old }
    requires low { stamp < 2 ^ 62 }
    requires distinct { IsDistinct (map (λ link. link.neighbour) links.old) }
    requires order { AreInOrder (map (λ s. s.to) sent.items) (map (λ link. link.neighbour) links.old) }
    requires net { (net : NetParts) × AreOfNet net sent.items }
    ensures { (net : NetParts) → AreOfNet net sent.entry.items → Both (IsGiven net stamp sent.entry.items) links.old links.new }
{
    for link in links.iter_mut() {
        link.put_first(&mut sent, stamp);
        link.enter.flush();
    }
}

/// Brings all that was put on a lane, and not taken, to its taking end. The giver's lane at a place and the taker's are one.
pub(crate) fn settle_links(
    giver: &mut Vec<Link>,
    to: usize,
    taker: &mut Vec<Link>,
    from: usize,
) -> Result<(), NoMemory>
    requires to { to < length giver.old.items }
    requires from { from < length taker.old.items }
    requires lane { At IsOneLane to giver.old.items from taker.old.items }
    ensures giver { Both IsUnmoved giver.old.items giver.new.items }
    ensures taker { Both IsUnmoved taker.old.items taker.new.items }
    ensures settled { OnOk result (At IsSettledLane to giver.new.items from taker.new.items) }
    ensures next { (item : ItemParts) → IsNextAt from item taker.old.items → IsNextAt from item taker.new.items }
{
    settle(&mut giver[to].enter, &mut taker[from].leave)
}

/// The place of a neighbour.
pub(crate) fn place_in(links: &[Link], neighbour: u32) -> Option<usize>
    ensures some { IfSome result (λ place. IsNeighbour place neighbour links.now) }
    ensures none { IfNone result ((place : ℕ) → IsNeighbour place neighbour links.now → ⊥) }
{
    for place in 0..links.len() {
        if links[place].neighbour == neighbour {
            return Some(place);
        }
    }
    None
}
