//! Makes the lanes of all links of a tree.
ghost use Rattle.std.specs.Prelude.{◌≡◌, ◌<◌, ◌≤◌, ◌∷◌, ℕ, suc, [], length, map, IfOk, OnOk};
ghost use Rattle.base_tree.specs.Tree.{IsServer, links_of};
ghost use Rattle.thread_cell.specs.Lanes.{AreBetween, AreNone, AreJoinedByLanes, AreLanes, AreLanesOf};

use crate::link::Link;
use crate::naming::is_among;
use base::NoMemory;
use base_tree::Tree;
use std::alloc::Global;
use thread_lane::lane;

/// A fresh lane each way between two servers: the ends of the one, and those of the other.
fn between(alloc: Global, one: u32, other: u32) -> Result<(Link, Link), NoMemory>
    ensures { IfOk result (λ r. AreBetween one other r.0 r.1) }
{
    let (there, from_one) = lane(alloc)?;
    let (back, from_other) = lane(alloc)?;
    let mine = Link {
        neighbour: other,
        enter: there,
        leave: from_other,
    };
    let theirs = Link {
        neighbour: one,
        enter: back,
        leave: from_one,
    };
    Ok((mine, theirs))
}

/// Joins the servers at two places by lanes.
fn join(alloc: Global, rows: &mut Vec<Vec<Link>>, one: u32, other: u32) -> Result<(), NoMemory>
    requires one { (1 ≤ one) × (one ≤ length rows.old.items) }
    requires other { (1 ≤ other) × (other ≤ length rows.old.items) }
    ensures joined { OnOk result (AreJoinedByLanes one other (map (λ r. r.items) rows.old.items) (map (λ r. r.items) rows.new.items)) }
{
    let (mine, theirs) = between(alloc, one, other)?;
    rows[one as usize - 1].push(mine)?;
    rows[other as usize - 1].push(theirs)?;
    Ok(())
}

/// Joins a server with its higher neighbours, where the lower servers are joined with theirs.
fn join_higher(
    alloc: Global,
    tree: &Tree,
    rows: &mut Vec<Vec<Link>>,
    server: u32,
) -> Result<(), NoMemory>
    requires server { IsServer tree.now server }
    requires lanes { AreLanes tree.now server 0 (map (λ r. r.items) rows.old.items) }
    ensures lanes { OnOk result (AreLanes tree.now (suc server) 0 (map (λ r. r.items) rows.new.items)) }
{
    tree.lemma_laws();
    for other in server + 1..tree.servers() + 1 {
        if is_among(other, tree.neighbours(server)) {
            join(alloc, rows, server, other)?;
        }
    }
    Ok(())
}

/// So many rows without a lane.
fn rows_for(alloc: Global, count: u32) -> Result<Vec<Vec<Link>>, NoMemory>
    ensures { IfOk result (λ rows. AreNone count (map (λ r. r.items) rows.items)) }
{
    let mut rows = Vec::new(alloc);
    for _ in 0..count {
        rows.push(Vec::new(alloc))?;
    }
    Ok(rows)
}

/// The lanes of a tree: for each server, in order, its ends by its neighbours.
pub(crate) fn lanes_of(alloc: Global, tree: &Tree) -> Result<Vec<Vec<Link>>, NoMemory>
    ensures { IfOk result (λ rows. AreLanesOf tree.now (map (λ r. r.items) rows.items)) }
{
    tree.lemma_laws();
    let mut rows = rows_for(alloc, tree.servers())?;
    for server in 1..tree.servers() + 1 {
        join_higher(alloc, tree, &mut rows, server)?;
    }
    Ok(rows)
}
