//! Counts what each link carried, beside what flooding puts there.
ghost use Rattle.std.specs.Prelude.{◌≡◌, ◌≤◌, length};
ghost use Rattle.output_traffic.specs.Counts.{count_at};
ghost use Rattle.output_traffic.specs.Text.{in_all};

use crate::counts::Counts;

/// What the link from one server to another carried: notifications, those that plain flooding puts there, and messages on
/// filters and advertisements.
#[derive(Drop)]
pub(crate) struct Direction {
    pub(crate) from: u64,
    pub(crate) to: u64,
    pub(crate) notices: u64,
    pub(crate) flood: u64,
    pub(crate) messages: u64,
}

/// The same of all links.
#[derive(Drop)]
pub(crate) struct LoadCounts {
    pub(crate) notices: Counts,
    pub(crate) flood: Counts,
    pub(crate) messages: Counts,
}

impl LoadCounts {
    ghost use Rattle.std.specs.Prelude.{◌≡◌, ◌<◌, ◌^◌};
    ghost use Rattle.output_traffic.specs.Text.{direction_of};
    ghost use Rattle.output_traffic.specs.Printed.{loads_by};

    /// That of one direction.
    pub(crate) fn direction(&self, from: u32, to: u32) -> Direction
        ensures value { result ≡ direction_of (loads_by self.now) from to }
        ensures few { result.notices < 2 ^ 32 }
    {
        Direction {
            from: u64::from(from),
            to: u64::from(to),
            notices: u64::from(self.notices.get(from, to)),
            flood: u64::from(self.flood.get(from, to)),
            messages: u64::from(self.messages.get(from, to)),
        }
    }
}

/// The sum of counts over both directions of each link.
pub(crate) fn total(counts: &Counts, links: &[(u32, u32)]) -> u64
    requires { length links.now ≤ 4096 }
    ensures { result ≡ in_all (count_at counts.now) links.now }
{
    let mut total = 0;
    for (a, b) in links {
        total += u64::from(counts.get(*a, *b));
        total += u64::from(counts.get(*b, *a));
    }
    total
}
