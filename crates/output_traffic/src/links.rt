//! Lists the links of a net.
ghost use Rattle.std.specs.Prelude.{◌≡◌, ◌≤◌, ◌+◌, ◌++◌, ◌&&◌, ℕ, nat_lt, length, IfOk, OnOk};
ghost use Rattle.base.specs.Sets.{Has};
ghost use Rattle.base_tree.specs.Graph.{servers_to};
ghost use Rattle.base_tree.specs.Tree.{IsServer, Topology};
ghost use Rattle.law_routing.specs.Server.{is_among};
ghost use Rattle.net_model.specs.Nets.{first_tree};
ghost use Rattle.net_model.specs.Sound.{IsSound};
ghost use Rattle.output_traffic.specs.Links.{is_link, links_from, links_in};

use base::NoMemory;
use base_tree::Tree;
use net_model::Net;
use std::alloc::Global;

// Whether a number is one of these.
fn is_among(number: u32, numbers: &[u32]) -> bool
    ensures { result ≡ is_among number numbers.now }
{
    for other in numbers {
        if number == *other {
            return true;
        }
    }
    false
}

// Whether some one of the trees has a link between two servers.
fn is_link(trees: &[(u32, Tree)], a: u32, b: u32) -> bool
    requires { (tree : ℕ × Topology) → Has tree trees.now → IsServer tree.1 a }
    ensures { result ≡ is_link trees.now a b }
{
    for (_, tree) in trees {
        if is_among(b, tree.neighbours(a)) {
            return true;
        }
    }
    false
}

// Whether there is one, and the second server is greater.
fn is_link_up(trees: &[(u32, Tree)], a: u32, b: u32) -> bool
    requires { (tree : ℕ × Topology) → Has tree trees.now → IsServer tree.1 a }
    ensures { result ≡ (nat_lt a b && is_link trees.now a b) }
{
    a < b && is_link(trees, a, b)
}

// Puts the links of a server to greater ones at the end.
fn push_links(
    links: &mut Vec<(u32, u32)>,
    trees: &[(u32, Tree)],
    count: u32,
    a: u32,
) -> Result<(), NoMemory>
    requires server { (tree : ℕ × Topology) → Has tree trees.now → IsServer tree.1 a }
    requires few { count ≤ 64 }
    ensures links { OnOk result (links.new.items ≡ links.old.items ++ links_from trees.now (servers_to count) a) }
    ensures most { OnOk result (length links.new.items ≤ length links.old.items + 64) }
{
    for b in 1..count + 1 {
        if is_link_up(trees, a, b) {
            links.push((a, b))?;
        }
    }
    Ok(())
}

/// How many servers a net has, which are numbered from 1: at most 64.
pub(crate) fn servers(net: &Net) -> u32
    requires { IsSound net.now }
    ensures count { result ≡ (first_tree net.now.trees).count }
    ensures few { result ≤ 64 }
{
    net.trees[0].1.servers()
}

/// The links of a net: those of all its trees, each once from its lesser end, by rising ends.
pub(crate) fn links(alloc: Global, net: &Net) -> Result<Vec<(u32, u32)>, NoMemory>
    requires { IsSound net.now }
    ensures links { IfOk result (λ links. links.items ≡ links_in net.now) }
    ensures few { IfOk result (λ links. length links.items ≤ 4096) }
{
    let mut links = Vec::new(alloc);
    let count = servers(net);
    for a in 1..count + 1 {
        push_links(&mut links, &net.trees, count, a)?;
    }
    Ok(links)
}
