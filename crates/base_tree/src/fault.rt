//! The types of the faults of a list of edges, and of an edge behind others.
ghost use Rattle.std.specs.Prelude.{◌≡◌};

use base;

/// Why a list of edges is no tree of servers; edges are named by their place from 0, servers by their number.
#[derive(Clone, Copy, Debug, PartialEq, Eq)]
pub enum TreeFault {
    /// There is no server.
    TooFew,
    /// There are more than 64 servers.
    TooMany,
    /// The edge joins the same two servers as an earlier one, either way round.
    Twice(usize),
    /// The ends of the edge are equal, or are joined by earlier edges.
    Loop(usize),
    /// The least server to which no way leads from server 1.
    Apart(u32),
    /// Memory ran out.
    NoMemory,
}

/// Why an edge of a tree can't come after others.
#[derive(Clone, Copy, Debug, PartialEq, Eq)]
pub enum EdgeFault {
    /// An earlier edge joins the same two servers, either way round.
    Twice,
    /// The ends are equal, or earlier edges lead from one to the other, though none of them alone.
    Loop,
}

impl From<base::NoMemory> for TreeFault {
    ghost use Rattle.base_tree.specs.declared.fault.TreeFault.TheVariants.{NoMemory};

    ghost from_gives = { λ _ e. e ≡ NoMemory };

    fn from(_: base::NoMemory) -> Self {
        TreeFault::NoMemory
    }
}
