//! Collects the trees of a document edge by edge, and builds them.
ghost use Rattle.std.specs.Prelude.{◌≡◌, ◌≤◌, ℕ, All, false, IfOk, Ok, None};
ghost use Rattle.base_tree.specs.Graph.{AreWithin, IsCount, IsEdgeWithin, IsTree};
ghost use Rattle.document_reader.specs.Net.{AreTreesOf, IsTreeOf};
ghost use Rattle.document_reader.specs.Drawn.{IsWholeBlock, are_neighbours, blocks, edge_fault, is_apart, undrawn, with_edge, with_phase};

use crate::block::Block;
use crate::near::Near;
use base::NoMemory;
use base_tree::{EdgeFault, Labels, Tree, TreeFault};
use std::alloc::Global;
use std::marker::Model;

/// The trees as they are drawn so far; contracts see the edges of each.
#[derive(Drop)]
pub struct Trees {
    servers: u32,
    earlier: Vec<Block>,
    phase: u32,
    edges: Vec<(u32, u32)>,
    labels: Labels,
    near: Near,
}

impl Model for Trees {
    ghost use Rattle.document_reader.specs.Drawn.{Drawn, drawn, IsDrawn};

    ghost Value = { Drawn };

    ghost view = { λ t. drawn t.servers t.earlier.items t.phase t.edges.items };

    ghost invariant = { λ t. IsDrawn (drawn t.servers t.earlier.items t.phase t.edges.items) t.labels t.near };
}

// What a fault is where servers and edges are a tree.
fn only_memory(_fault: TreeFault) -> NoMemory
    requires { _fault ≡ TreeFault.NoMemory }
{
    NoMemory
}

// The tree of these edges, which are one of so many servers: nothing but out of memory stands against it.
fn tree_of(alloc: Global, servers: u32, edges: &[(u32, u32)]) -> Result<Tree, NoMemory>
    requires count { IsCount servers }
    requires within { AreWithin servers edges.now }
    requires tree { IsTree servers edges.now }
    ensures { IfOk result (λ tree. (phase : ℕ) → IsTreeOf servers (phase, edges.now) (phase, tree)) }
{
    match Tree::build(alloc, servers, edges) {
        Ok(tree) => {
            tree.lemma_laws();
            Ok(tree)
        }
        Err(fault) => Err(only_memory(fault)),
    }
}

// The tree of each, with its first phase.
fn trees_of(alloc: Global, servers: u32, blocks: &[Block]) -> Result<Vec<(u32, Tree)>, NoMemory>
    requires count { IsCount servers }
    requires whole { All (IsWholeBlock servers) blocks.now }
    ensures { IfOk result (λ trees. AreTreesOf servers blocks.now trees.items) }
{
    let mut trees = Vec::with_capacity(alloc, blocks.len() + 1)?;
    for block in blocks {
        let tree = tree_of(alloc, servers, &block.edges)?;
        trees.push((block.phase, tree))?;
    }
    Ok(trees)
}

impl Trees {
    /// So many servers, at most 64, and no edge.
    pub fn new(alloc: Global, servers: u32) -> Trees
        requires { servers ≤ 64 }
        ensures { result ≡ undrawn servers }
    {
        Trees {
            servers,
            earlier: Vec::new(alloc),
            phase: 0,
            edges: Vec::new(alloc),
            labels: Labels::new(servers),
            near: Near::new(),
        }
    }

    /// How many servers there are.
    pub fn servers(&self) -> u32
        ensures value { result ≡ self.now.servers }
        ensures few { result ≤ 64 }
    {
        self.servers
    }

    /// The first phase of the tree that is being drawn.
    pub fn phase(&self) -> u32
        ensures { result ≡ self.now.phase }
    {
        self.phase
    }

    /// One edge more in the tree that is being drawn, or what is at fault with it. Both ends are servers.
    pub fn join(&mut self, a: u32, b: u32) -> Result<Option<EdgeFault>, NoMemory>
        requires { IsEdgeWithin self.old.servers (a, b) }
        ensures fault { IfOk result (λ f. f ≡ edge_fault self.old.edges (a, b)) }
        ensures none { result ≡ Ok None → self.new ≡ with_edge self.old (a, b) }
    {
        self.edges.reserve(1)?;
        match self.labels.join(&self.edges, (a, b)) {
            Some(fault) => return Ok(Some(fault)),
            None => {}
        }
        self.near.join(a, b);
        self.edges.push((a, b))?;
        Ok(None)
    }

    /// Whether the edges of the tree that is being drawn don't join all servers.
    pub fn is_apart(&self) -> bool
        ensures { result ≡ is_apart self.now }
    {
        self.servers > 0 && self.labels.apart().is_some()
    }

    /// Whether two servers are neighbours in some tree.
    pub fn are_neighbours(&self, a: u32, b: u32) -> bool
        requires a { a ≤ 64 }
        requires b { b ≤ 64 }
        ensures { result ≡ are_neighbours self.now (a, b) }
    {
        self.near.has(a, b)
    }

    /// The next tree begins, for phases from this one on. The last one is whole.
    pub fn begin(&mut self, alloc: Global, phase: u32) -> Result<(), NoMemory>
        requires { is_apart self.old ≡ false }
        ensures { IfOk result (λ _. self.new ≡ with_phase self.old phase) }
    {
        let edges = self.edges.to_vec(alloc)?;
        self.earlier.push(Block {
            phase: self.phase,
            edges,
        })?;
        self.phase = phase;
        self.edges.clear();
        self.labels = Labels::new(self.servers);
        Ok(())
    }

    /// The trees with their first phases. There are servers, and the last tree is whole.
    pub fn build(&self, alloc: Global) -> Result<Vec<(u32, Tree)>, NoMemory>
        requires count { IsCount self.now.servers }
        requires whole { is_apart self.now ≡ false }
        ensures { IfOk result (λ trees. AreTreesOf self.now.servers (blocks self.now) trees.items) }
    {
        let mut trees = trees_of(alloc, self.servers, &self.earlier)?;
        let tree = tree_of(alloc, self.servers, &self.edges)?;
        trees.push((self.phase, tree))?;
        Ok(trees)
    }
}
