//! Looks at the lanes of one server, and takes what comes next.
ghost use Rattle.std.specs.Prelude.{◌<◌, length, map};
ghost use Rattle.base.specs.Numbers.{IsDistinct};
ghost use Rattle.server_message.specs.declared.stamped.StampedLoad.{StampedLoad as ItemParts};
ghost use Rattle.thread_cell.specs.Links.{Both, IsUnmoved};
ghost use Rattle.thread_cell.specs.LaneReceiving.{IsInSight, IsLookedAt, IsNextAt, ReceivesAt};

use crate::link::Link;
use server_message::StampedLoad;
use std::sync::Wait;

impl Link {
    ghost use Rattle.std.specs.Prelude.{◌≡◌, ◌<◌, length};
    ghost use Rattle.server_message.specs.declared.stamped.StampedLoad.{StampedLoad as ItemParts};
    ghost use Rattle.thread_lane.specs.Lane.{coming_list};
    ghost use Rattle.thread_cell.specs.Links.{IsUnmoved};
    ghost use Rattle.thread_cell.specs.LaneReceiving.{ComesNext, IsLooked, IsItemReceived};

    /// Whether there is a next item, which stays where it is.
    fn look<R: Wait>(&mut self, rt: &R) -> bool
        ensures unmoved { IsUnmoved self.old self.new × (self.new.enter ≡ self.old.enter) }
        ensures looked { IsLooked self.old self.new result }
    {
        self.leave.look(rt).is_some()
    }

    /// Takes the next item, which is in sight.
    fn take_next<R: Wait>(&mut self, rt: &R)
        requires seen { 0 < length (coming_list self.old.leave) }
        ensures taken { (item : ItemParts) → ComesNext item self.old → IsItemReceived self.old.neighbour item self.old self.new }
    {
        let _taken = self.leave.take(rt);
    }
}

/// Whether there is a next item from the neighbour at a place.
pub(crate) fn look_at<R: Wait>(rt: &R, links: &mut Vec<Link>, place: usize) -> bool
    requires place { place < length links.old.items }
    ensures unmoved { Both IsUnmoved links.old.items links.new.items }
    ensures looked { IsLookedAt place links.old.items links.new.items result }
{
    links[place].look(rt)
}

/// The next item from the neighbour at a place, which is in sight.
pub(crate) fn next_at(links: &[Link], place: usize) -> &StampedLoad
    requires place { place < length links.now }
    requires seen { IsInSight place links.now }
    ensures { IsNextAt place result.now links.now }
{
    links[place].leave.first()
}

/// Takes the next item from the neighbour at a place, which is in sight.
pub(crate) fn receive_at<R: Wait>(rt: &R, links: &mut Vec<Link>, place: usize)
    requires place { place < length links.old.items }
    requires seen { IsInSight place links.old.items }
    requires distinct { IsDistinct (map (λ link. link.neighbour) links.old.items) }
    ensures taken { (item : ItemParts) → ReceivesAt place item links.old.items links.new.items }
{
    links[place].take_next(rt);
}
