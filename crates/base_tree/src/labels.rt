//! Labels servers: two labels are the same exactly where edges join the servers.
ghost use Rattle.std.specs.Prelude.{◌≡◌, ◌≢◌, ◌==◌, ◌<◌, ◌≤◌, ◌↔◌, ◌++◌, ◌∷◌, [], ℕ, List, false, true, cond, length, slice_index, take};
ghost use Rattle.std.specs.Prelude.{IfSome, IfNone, slice_get, MatchResult, Some, None};
ghost use Rattle.base_tree.specs.Graph.{has_edge, AreWithin, IsEdgeWithin, AreJoined, IsForest, IsTree, IsApart, IsCount};
ghost use Rattle.base_tree.specs.Labels.{AreLabelsOf, IsFault};

use crate::fault::{EdgeFault, TreeFault};
use std::marker::Model;

/// Each place's own number.
pub fn own_labels() -> [u32; 65]
    ensures { (x : ℕ) → x < 65 → slice_index result x ≡ x }
{
    let mut labels = [0; 65];
    for (x, label) in labels.iter_mut().enumerate() {
        *label = x as u32;
    }
    labels
}

/// Gives what is labelled `from` the label `to`.
pub fn relabel(labels: &mut [u32; 65], from: u32, to: u32)
    ensures { (x : ℕ) → x < 65 → slice_index labels.new x ≡ cond (slice_index labels.old x == from) to (slice_index labels.old x) }
{
    for label in labels.iter_mut() {
        if *label == from {
            *label = to;
        }
    }
}

// Whether one of the edges joins a and b.
fn has_edge(edges: &[(u32, u32)], a: u32, b: u32) -> bool
    ensures { result ≡ has_edge edges.now a b }
{
    edges.iter().any(|edge| (edge.0 == a && edge.1 == b) || (edge.0 == b && edge.1 == a))
}

// The least server that has another label than server 1.
fn unlike_first(n: u32, labels: &[u32]) -> Option<u32>
    requires some { 1 ≤ n }
    requires labels { n < length labels.now }
    ensures none { IfNone result ((x : ℕ) → 1 ≤ x → x ≤ n → slice_index labels.now x ≡ slice_index labels.now 1) }
    ensures some { IfSome result (λ s. (1 ≤ s) × (s ≤ n) × (slice_index labels.now s ≢ slice_index labels.now 1)
        × ((x : ℕ) → 1 ≤ x → x < s → slice_index labels.now x ≡ slice_index labels.now 1)) }
{
    for s in 1..=n {
        if labels[s as usize] != labels[1] {
            return Some(s);
        }
    }
    None
}

/// Which servers the edges so far join: what shows an edge's fault among earlier ones, without memory. It takes as
/// many steps as there are servers for each edge, and for one at fault as there are earlier edges besides.
#[derive(Debug, Drop)]
pub struct Labels {
    count: u32,
    labels: [u32; 65],
}

impl Model for Labels {
    ghost use Rattle.std.specs.Prelude.{◌≤◌};
    ghost use Rattle.base_tree.specs.Labels.{ServerLabels, server_labels};

    ghost Value = { ServerLabels };

    ghost view = { λ l. server_labels l.count l.labels };

    ghost invariant = { λ l. l.count ≤ 64 };
}

impl Labels {
    /// Servers 1 to n, at most 64, without edges.
    pub fn new(n: u32) -> Labels
        requires { n ≤ 64 }
        ensures count { result.count ≡ n }
        ensures none { AreLabelsOf [] result }
    {
        Labels {
            count: n,
            labels: own_labels(),
        }
    }

    /// Joins the ends of an edge after the earlier ones, or answers what is at fault with it; then nothing changes.
    /// Both ends are servers.
    pub fn join(&mut self, earlier: &[(u32, u32)], edge: (u32, u32)) -> Option<EdgeFault>
        requires of { AreLabelsOf earlier.now self.old }
        requires within { IsEdgeWithin self.old.count edge }
        ensures twice { (result ≡ Some EdgeFault.Twice) ↔ (has_edge earlier.now edge.0 edge.1 ≡ true) }
        ensures loops { (result ≡ Some EdgeFault.Loop) ↔ (AreJoined earlier.now edge.0 edge.1 × (has_edge earlier.now edge.0 edge.1 ≡ false)) }
        ensures none { IfNone result (AreLabelsOf (earlier.now ++ edge ∷ []) self.new) }
        ensures some { IfSome result (λ _. self.new ≡ self.old) }
        ensures count { self.new.count ≡ self.old.count }
    {
        let (a, b) = edge;
        let to = self.labels[a as usize];
        let from = self.labels[b as usize];
        if to != from {
            relabel(&mut self.labels, from, to);
            return None;
        }
        if has_edge(earlier, a, b) {
            Some(EdgeFault::Twice)
        } else {
            Some(EdgeFault::Loop)
        }
    }

    /// The least server to which no way leads from server 1 by the edges, where there is one.
    pub fn apart(&self) -> Option<u32>
        requires { 1 ≤ self.now.count }
        ensures none { (edges : List (ℕ × ℕ)) → AreLabelsOf edges self.now → (result ≡ None) ↔ IsTree self.now.count edges }
        ensures some { (edges : List (ℕ × ℕ)) → AreLabelsOf edges self.now → (s : ℕ) → (result ≡ Some s) ↔ IsApart self.now.count edges s }
    {
        unlike_first(self.count, &self.labels)
    }
}

// The fault of edge i, as one of the list.
fn fault_at(fault: EdgeFault, i: usize) -> TreeFault
    ensures twice { fault ≡ EdgeFault.Twice → result ≡ TreeFault.Twice i }
    ensures loops { fault ≡ EdgeFault.Loop → result ≡ TreeFault.Loop i }
{
    match fault {
        EdgeFault::Twice => TreeFault::Twice(i),
        EdgeFault::Loop => TreeFault::Loop(i),
    }
}

/// The labels of the edges, or the first edge whose ends are joined already.
pub fn labels_of(n: u32, edges: &[(u32, u32)]) -> Result<Labels, TreeFault>
    requires few { IsCount n }
    requires within { AreWithin n edges.now }
    ensures { MatchResult result (λ labels. (labels.count ≡ n) × AreLabelsOf edges.now labels) (λ fault. IsFault n edges.now fault) }
{
    let mut labels = Labels::new(n);
    for (i, edge) in edges.iter().enumerate() {
        if let Some(fault) = labels.join(&edges[..i], *edge) {
            return Err(fault_at(fault, i));
        }
    }
    Ok(labels)
}

/// Whether servers 1 to n and the edges are a tree, or why not.
pub fn check(n: u32, edges: &[(u32, u32)]) -> Result<(), TreeFault>
    requires { IsCount n → AreWithin n edges.now }
    ensures { MatchResult result (λ _. IsCount n × IsTree n edges.now) (λ fault. IsFault n edges.now fault) }
{
    if n == 0 {
        return Err(TreeFault::TooFew);
    }
    if n > 64 {
        return Err(TreeFault::TooMany);
    }
    let labels = labels_of(n, edges)?;
    match labels.apart() {
        Some(s) => Err(TreeFault::Apart(s)),
        None => Ok(()),
    }
}
