//! Builds the tables of a tree: the next server on the way from each server to each other, and the neighbours.
ghost use Rattle.std.specs.Prelude.{◌≡◌, ◌<◌, ◌≤◌, ◌+◌, [], ℕ, suc, filter, length, IfOk};
ghost use Rattle.std.specs.List.{slice_index_or};
ghost use Rattle.base_tree.specs.Graph.{AreWithin, IsCount, IsTree, servers_to, neighbours_by};
ghost use Rattle.base_tree.specs.Growing.{IsJoinedByEdge};
ghost use Rattle.base_tree.specs.Hops.{AreHops, side};
ghost use Rattle.base_tree.specs.Tree.{IsTable, entry};

use crate::labels::{own_labels, relabel};
use crate::row::Row;
use base::NoMemory;
use std::alloc::Global;

// A table for n servers.
fn blank(alloc: Global, n: u32) -> Result<Vec<Row>, NoMemory>
    requires { n ≤ 64 }
    ensures { IfOk result (λ rows. IsTable n rows.items) }
{
    let len = n as usize + 1;
    let mut rows = Vec::new(alloc);
    for _ in 0..len {
        rows.push(Row::zeros(alloc, len)?)?;
    }
    Ok(rows)
}

// The hops after an edge joins the parts of a and b.
fn join(rows: &mut [Row], labels: &[u32], a: u32, b: u32)
    requires size { length rows.old ≤ length labels.now }
    requires few { length rows.old ≤ 65 }
    requires square { (x : ℕ) → x < length rows.old → length (slice_index_or rows.old x []) ≡ length rows.old }
    requires a { a < length rows.old }
    requires b { b < length rows.old }
    ensures { IsJoinedByEdge labels.now rows.old rows.new a b }
{
    for (x, row) in rows.iter_mut().enumerate() {
        row.join(x as u32, labels, a, b);
    }
}

// The hops of the tree, edge by edge from those of no edges.
fn add_edges(rows: &mut [Row], n: u32, edges: &[(u32, u32)])
    requires few { IsCount n }
    requires within { AreWithin n edges.now }
    requires tree { IsTree n edges.now }
    requires table { IsTable n rows.old }
    ensures table { IsTable n rows.new }
    ensures hops { AreHops (servers_to n) (neighbours_by n edges.now) (entry rows.new) }
{
    let mut labels = own_labels();
    for edge in edges {
        let (a, b) = *edge;
        let to = labels[a as usize];
        let from = labels[b as usize];
        join(rows, &labels, a, b);
        relabel(&mut labels, from, to);
    }
}

/// The next server on the way from each server to each other.
pub fn hop_rows(alloc: Global, n: u32, edges: &[(u32, u32)]) -> Result<Vec<Row>, NoMemory>
    requires few { IsCount n }
    requires within { AreWithin n edges.now }
    requires tree { IsTree n edges.now }
    ensures table { IfOk result (λ rows. IsTable n rows.items) }
    ensures hops { IfOk result (λ rows. AreHops (servers_to n) (neighbours_by n edges.now) (entry rows.items)) }
{
    let mut rows = blank(alloc, n)?;
    add_edges(&mut rows, n, edges);
    Ok(rows)
}

/// The neighbours of each server, by the hops.
pub fn neighbour_rows(alloc: Global, n: u32, hops: &[Row]) -> Result<Vec<Row>, NoMemory>
    requires few { IsCount n }
    requires table { IsTable n hops.now }
    ensures rows { IfOk result (λ rows. length rows.items ≡ suc n) }
    ensures none { IfOk result (λ rows. slice_index_or rows.items 0 [] ≡ []) }
    ensures some { IfOk result (λ rows. (a : ℕ) → 1 ≤ a → a ≤ n → slice_index_or rows.items a [] ≡ filter (λ b. side (entry hops.now) a b b) (servers_to n)) }
{
    let mut rows = Vec::new(alloc);
    rows.push(Row::new(alloc))?;
    for a in 1..=n {
        rows.push(hops[a as usize].neighbours(alloc, a)?)?;
    }
    Ok(rows)
}
