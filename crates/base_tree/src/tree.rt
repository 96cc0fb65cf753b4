//! The type of a tree of servers, which is built exactly from edges that make one.
ghost use Rattle.std.specs.Prelude.{◌≡◌, ◌≢◌, ◌≤◌, ◌==◌, ◌<◌, ◌∷◌, ◌↔◌, ℕ, List, IsTrue, IfOk, Err, nat_lt, slice_get, Some};
ghost use Rattle.base.specs.Sets.{Has, IsRising};
ghost use Rattle.base_tree.specs.Graph.{AreWithin, IsCount, IsTree, IsTwice, IsLoop, IsApart, neighbours_by};
ghost use Rattle.base_tree.specs.Hops.{side};
ghost use Rattle.base_tree.specs.Tree.{IsServer, IsPath, links_of, hop_of, TreeLaws};

use crate::fault::TreeFault;
use crate::labels::check;
use crate::row::Row;
use crate::tables::{hop_rows, neighbour_rows};
use base::NoMemory;
use std::alloc::Global;
use std::marker::Model;

/// A tree of 1 to 64 servers, numbered from 1, with the paths in it.
#[derive(Debug, Drop)]
pub struct Tree {
    count: u32,
    neighbours: Vec<Row>,
    hops: Vec<Row>,
}

impl Model for Tree {
    ghost use Rattle.base_tree.specs.Tree.{Topology, topology, IsSoundTree};

    ghost Value = { Topology };

    ghost view = { λ t. topology t.count t.neighbours.items t.hops.items };

    ghost invariant = { λ t. IsSoundTree (topology t.count t.neighbours.items t.hops.items) };
}

impl Tree {
    /// The tree of servers 1 to n and these edges, where they are one. Every end is one of the servers.
    pub fn build(alloc: Global, n: u32, edges: &[(u32, u32)]) -> Result<Tree, TreeFault>
        requires { IsCount n → AreWithin n edges.now }
        ensures too_few { (result ≡ Err TreeFault.TooFew) ↔ (n ≡ 0) }
        ensures too_many { (result ≡ Err TreeFault.TooMany) ↔ (64 < n) }
        ensures twice { (i : ℕ) → (result ≡ Err (TreeFault.Twice i)) ↔ (IsCount n × IsTwice edges.now i) }
        ensures loops { (i : ℕ) → (result ≡ Err (TreeFault.Loop i)) ↔ (IsCount n × IsLoop edges.now i) }
        ensures apart { (s : ℕ) → (result ≡ Err (TreeFault.Apart s)) ↔ (IsCount n × IsApart n edges.now s) }
        ensures no_memory { result ≡ Err TreeFault.NoMemory → IsCount n × IsTree n edges.now }
        ensures tree { IfOk result (λ t. IsCount n × IsTree n edges.now) }
        ensures count { IfOk result (λ t. t.count ≡ n) }
        ensures links { IfOk result (λ t. (a : ℕ) → links_of t a ≡ neighbours_by n edges.now a) }
    {
        if let Err(fault) = check(n, edges) {
            return Err(fault);
        }
        let hops = hop_rows(alloc, n, edges)?;
        let neighbours = neighbour_rows(alloc, n, &hops)?;
        Ok(Tree {
            count: n,
            neighbours,
            hops,
        })
    }

    /// How many servers there are; they are numbered from 1.
    pub fn servers(&self) -> u32
        ensures value { result ≡ self.now.count }
        ensures some { 1 ≤ result }
        ensures most { result ≤ 64 }
    {
        self.count
    }

    /// What holds of every tree: each server is on one side of an edge, and from each the way to another begins with
    /// one neighbour.
    pub fn lemma_laws(&self)
        ensures { TreeLaws self.now }
    {
        let _ = &self.count;
    }

    /// The neighbours of a, rising.
    pub fn neighbours(&self, a: u32) -> &[u32]
        requires { IsServer self.now a }
        ensures value { result.now ≡ links_of self.now a }
        ensures rising { IsRising nat_lt result.now }
    {
        self.neighbours[a as usize].as_slice()
    }

    // The entry of the table for a and x.
    fn hop(&self, a: u32, x: u32) -> u32
        requires from { IsServer self.now a }
        requires to { IsServer self.now x }
        ensures { result ≡ hop_of self.now a x }
    {
        self.hops[a as usize].get(x)
    }

    /// The neighbour of a with which the path from a to x begins.
    pub fn next_hop(&self, a: u32, x: u32) -> u32
        requires from { IsServer self.now a }
        requires to { IsServer self.now x }
        requires apart { a ≢ x }
        ensures value { result ≡ hop_of self.now a x }
        ensures near { Has result (links_of self.now a) }
        ensures path { (path : List ℕ) → IsPath (links_of self.now) a x path → slice_get path 1 ≡ Some result }
    {
        self.lemma_laws();
        self.hop(a, x)
    }

    /// Whether the path from a to x begins with a and b.
    pub fn side(&self, a: u32, b: u32, x: u32) -> bool
        requires from { IsServer self.now a }
        requires to { IsServer self.now x }
        ensures value { result ≡ side (hop_of self.now) a b x }
        ensures path { IsTrue result ↔ ((rest : List ℕ) × IsPath (links_of self.now) a x (a ∷ b ∷ rest)) }
    {
        self.lemma_laws();
        a != x && self.next_hop(a, x) == b
    }

    /// The path from a to x, both ends included: along neighbours, and no server twice.
    pub fn path(&self, alloc: Global, a: u32, x: u32) -> Result<Vec<u32>, NoMemory>
        requires from { IsServer self.now a }
        requires to { IsServer self.now x }
        ensures path { IfOk result (λ p. IsPath (links_of self.now) a x p.items) }
        ensures one { IfOk result (λ p. (other : List ℕ) → IsPath (links_of self.now) a x other → other ≡ p.items) }
    {
        self.lemma_laws();
        let mut path = Vec::new(alloc);
        path.push(a)?;
        let mut at = a;
        while at != x {
            at = self.hop(at, x);
            path.push(at)?;
        }
        Ok(path)
    }
}
