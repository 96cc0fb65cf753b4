//! Tests edges one by one, each with its fault among the earlier ones.
ghost use Rattle.std.specs.Prelude.{◌≤◌};
ghost use Rattle.base_tree.specs.Graph.{AreWithin};

use base_tree::{EdgeFault, Labels};
use std::rt::HostRuntime;
use std::test::Fail;

// The fault of the last of these edges, of which the others have none.
fn last_fault(n: u32, edges: &[(u32, u32)]) -> Option<EdgeFault>
    requires few { n ≤ 64 }
    requires within { AreWithin n edges.now }
{
    let mut labels = Labels::new(n);
    for (i, edge) in edges.iter().enumerate() {
        if let Some(fault) = labels.join(&edges[..i], *edge) {
            return if i + 1 == edges.len() {
                Some(fault)
            } else {
                None
            };
        }
    }
    None
}

#[test]
fn faults_at_their_edge(rt: HostRuntime) {
    assert_eq!(rt; last_fault(3, &[(1, 2), (2, 1)]), Some(EdgeFault::Twice));
    assert_eq!(rt;
        last_fault(3, &[(1, 2), (2, 3), (1, 2)]),
        Some(EdgeFault::Twice)
    );
    assert_eq!(rt;
        last_fault(3, &[(1, 2), (2, 3), (3, 1)]),
        Some(EdgeFault::Loop)
    );
    assert_eq!(rt; last_fault(64, &[(64, 64)]), Some(EdgeFault::Loop));
    assert_eq!(rt; last_fault(3, &[(1, 2), (2, 3)]), None);
}

// Whether the least server apart is answered rightly before an edge, after it, after it again, and after the last one.
fn tells_apart() -> bool {
    let mut labels = Labels::new(3);
    if labels.apart() != Some(2) {
        return false;
    }
    let None = labels.join(&[], (3, 1)) else {
        return false;
    };
    if labels.apart() != Some(2) {
        return false;
    }
    let Some(EdgeFault::Twice) = labels.join(&[(3, 1)], (1, 3)) else {
        return false;
    };
    labels.join(&[(3, 1)], (2, 3)).is_none() && labels.apart().is_none()
}

#[test]
fn least_server_apart(rt: HostRuntime) {
    assert!(rt; tells_apart());
}
