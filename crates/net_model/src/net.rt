//! The type of a net, with its trees and its phases.
ghost use Rattle.std.specs.Prelude.{◌≡◌};
ghost use Rattle.law_phases.specs.Trees.{tree_after};

use crate::client::Client;
use crate::turn::Turn;
use base_tree::Tree;
use filter_text::Semantics;
use std::marker::Model;

/// A net: its trees of servers by phase, its clients, and a schedule of turns.
#[derive(Drop)]
pub struct Net {
    /// The version of its document, 1 or 2.
    pub version: u32,
    /// Whether advertisements steer notifications too.
    pub semantics: Semantics,
    /// Its trees, each with the first phase at which it is in force; these rise, and the first is 0.
    pub trees: Vec<(u32, Tree)>,
    /// Its clients, which are numbered from 1.
    pub clients: Vec<Client>,
    /// The turns of its schedule, each with the line that it stood at.
    pub schedule: Vec<(u32, Turn)>,
}

impl Model for Net {
    ghost use Rattle.net_model.specs.Parts.{NetParts, net_parts};

    ghost Value = { NetParts };

    ghost view = { λ n. net_parts n.version n.semantics n.trees.items n.clients.items n.schedule.items };
}

// Of a tree and later ones with their first phases, the one that is in force at a phase.
fn in_force<'a>(first: &'a Tree, later: &'a [(u32, Tree)], phase: u32) -> &'a Tree
    ensures { result.now ≡ tree_after first.now later.now phase }
{
    let mut tree = first;
    for (from, next) in later {
        if *from > phase {
            return tree;
        }
        tree = next;
    }
    tree
}

impl Net {
    ghost use Rattle.net_model.specs.Nets.{topology_at, phases_of};
    ghost use Rattle.net_model.specs.Sound.{IsSound};

    /// The tree that is in force at a phase: the last one whose first phase is at most that.
    pub fn tree(&self, phase: u32) -> &Tree
        requires { IsSound self.now }
        ensures { result.now ≡ topology_at self.now phase }
    {
        in_force(&self.trees[0].1, &self.trees[1..], phase)
    }

    /// How many phases there are: one more than the most barriers of a client.
    pub fn phases(&self) -> u32
        requires { IsSound self.now }
        ensures { result ≡ phases_of self.now }
    {
        let mut most = 0;
        for client in &self.clients {
            most = most.max(client.barriers);
        }
        most + 1
    }
}
