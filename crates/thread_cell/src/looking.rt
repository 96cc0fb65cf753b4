//! Looks at what comes next from a neighbour.
ghost use Rattle.std.specs.Prelude.{map};
ghost use Rattle.base.specs.Sets.{Has};
ghost use Rattle.thread_cell.specs.Links.{Both, IsUnmoved};
ghost use Rattle.thread_cell.specs.Looking.{IsLookedFor};

use crate::link::{Link, place_in};
use crate::reception::{look_at, next_at};
use crate::routing::publication_in;
use net_tables::Tables;
use std::sync::Wait;

/// The number of the publication that the next reception from a neighbour gives.
pub(crate) fn look_from<R: Wait>(
    rt: &R,
    tables: &Tables<'_>,
    links: &mut Vec<Link>,
    from: u32,
) -> Option<u32>
    requires { Has from (map (λ link. link.neighbour) links.old.items) }
    ensures unmoved { Both IsUnmoved links.old.items links.new.items }
    ensures looked { IsLookedFor tables.now from links.old.items links.new.items result }
{
    let Some(place) = place_in(links, from) else {
        unreachable!()
    };
    if !look_at(rt, links, place) {
        return None;
    }
    publication_in(tables, next_at(links, place).load())
}
