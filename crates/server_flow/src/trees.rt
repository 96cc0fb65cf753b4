//! Counts the trees of a net that have come by a phase.
ghost use Rattle.std.specs.Prelude.{◌≡◌};
ghost use Rattle.law_phases.specs.Trees.{trees_by};
ghost use Rattle.net_model.specs.Nets.{later_trees};
ghost use Rattle.net_model.specs.Sound.{IsSound};

use net_model::Net;

/// How many of the later trees have come by a phase.
pub fn trees_come(net: &Net, phase: u32) -> usize
    requires { IsSound net.now }
    ensures { result ≡ trees_by (later_trees net.now.trees) phase }
{
    let later = &net.trees[1..];
    for (i, tree) in later.iter().enumerate() {
        if tree.0 > phase {
            return i;
        }
    }
    later.len()
}
