//! Tests trees, and lists of edges that make none.
ghost use Rattle.std.specs.Prelude.{◌≡◌};
ghost use Rattle.base_tree.specs.Graph.{AreWithin, IsCount};

use base_tree::{Tree, TreeFault, one_path, sides};
use std::alloc::Global;
use std::rt::HostRuntime;
use std::test::Fail;

// Whether the edges are refused for this fault.
fn is_refused(alloc: Global, n: u32, edges: &[(u32, u32)], fault: TreeFault) -> bool
    requires { IsCount n → AreWithin n edges.now }
{
    match Tree::build(alloc, n, edges) {
        Err(found) => found == fault,
        Ok(_) => false,
    }
}

#[test]
fn no_trees(rt: HostRuntime) {
    let alloc = rt.alloc();
    assert!(rt; is_refused(alloc, 3, &[(1, 2), (2, 1)], TreeFault::Twice(1)));
    assert!(rt; is_refused(alloc, 3, &[(1, 2), (2, 3), (3, 1)], TreeFault::Loop(2)));
    assert!(rt; is_refused(alloc, 3, &[(1, 2)], TreeFault::Apart(3)));
    assert!(rt; is_refused(alloc, 2, &[(1, 1)], TreeFault::Loop(0)));
    assert!(rt; is_refused(alloc, 0, &[], TreeFault::TooFew));
    assert!(rt; is_refused(alloc, 65, &[], TreeFault::TooMany));
}

// Whether this is the tree of three servers in a row.
fn is_row(tree: &Tree) -> bool
    requires { tree.now.count ≡ 3 }
{
    tree.next_hop(1, 3) == 2 && !tree.side(2, 3, 1) && tree.neighbours(2) == [1, 3].as_slice()
}

#[test]
fn three_in_a_row(rt: HostRuntime) -> Result<(), Fail> {
    let alloc = rt.alloc();
    sides();
    one_path();
    let tree = Tree::build(alloc, 3, &[(1, 2), (2, 3)])?;
    assert_eq!(rt; tree.servers(), 3);
    assert_eq!(rt; tree.path(alloc, 1, 3)?.as_slice(), [1, 2, 3].as_slice());
    assert!(rt; is_row(&tree));
    Ok(())
}
