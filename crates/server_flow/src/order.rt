//! Orders the links of a tree, from those with few servers beyond to those with many.
ghost use Rattle.std.specs.Prelude.{◌≡◌, ◌+◌, ◌<◌, ℕ, IfOk, OnOk};
ghost use Rattle.base.specs.Sets.{Has};
ghost use Rattle.base_tree.specs.Tree.{IsServer, links_of};
ghost use Rattle.server_spec.specs.Rows.{IsOrder, size_of};

use base::NoMemory;
use base_tree::Tree;
use std::alloc::Global;

/// How many servers lie beyond one, seen from another.
fn beyond(tree: &Tree, at: u32, of: u32) -> u32
    requires { IsServer tree.now at }
    ensures { result ≡ size_of tree.now at of }
{
    let mut size = 0;
    for x in 1..=tree.servers() {
        if tree.side(at, of, x) {
            size += 1;
        }
    }
    size
}

/// Puts the links of a server with so many servers beyond at the end.
fn put_links(order: &mut Vec<(u32, u32)>, tree: &Tree, many: u32, at: u32) -> Result<(), NoMemory>
    requires at { IsServer tree.now at }
    requires order { IsOrder tree.now order.old.items }
    requires fewer { (a b : ℕ) → Has b (links_of tree.now a) → size_of tree.now a b < many → Has (a, b) order.old.items }
    ensures order { OnOk result (IsOrder tree.now order.new.items) }
    ensures kept { OnOk result ((a b : ℕ) → Has (a, b) order.old.items → Has (a, b) order.new.items) }
    ensures all { OnOk result ((b : ℕ) → Has b (links_of tree.now at) → size_of tree.now at b ≡ many → Has (at, b) order.new.items) }
{
    tree.lemma_laws();
    for of in tree.neighbours(at) {
        if beyond(tree, at, *of) == many {
            order.push((at, *of))?;
        }
    }
    Ok(())
}

/// Puts all links with so many servers beyond at the end.
fn put_size(order: &mut Vec<(u32, u32)>, tree: &Tree, many: u32) -> Result<(), NoMemory>
    requires order { IsOrder tree.now order.old.items }
    requires fewer { (a b : ℕ) → Has b (links_of tree.now a) → size_of tree.now a b < many → Has (a, b) order.old.items }
    ensures order { OnOk result (IsOrder tree.now order.new.items) }
    ensures all { OnOk result ((a b : ℕ) → Has b (links_of tree.now a) → size_of tree.now a b < many + 1 → Has (a, b) order.new.items) }
{
    tree.lemma_laws();
    for at in 1..=tree.servers() {
        put_links(order, tree, many, at)?;
    }
    Ok(())
}

/// All links, each as the server that is to hold and the neighbour of which it holds. What a
/// neighbour sends is made of what it holds of its other neighbours, and those come earlier.
pub(crate) fn ordered(alloc: Global, tree: &Tree) -> Result<Vec<(u32, u32)>, NoMemory>
    ensures order { IfOk result (λ order. IsOrder tree.now order.items) }
    ensures all { IfOk result (λ order. (a b : ℕ) → Has b (links_of tree.now a) → Has (a, b) order.items) }
{
    tree.lemma_laws();
    let mut order = Vec::new(alloc);
    for many in 0..=tree.servers() {
        put_size(&mut order, tree, many)?;
    }
    Ok(order)
}
