//! Makes hierarchies a kind of networks whose runs are audited.
use audit_verdict::{AuditFault, AuditedKind, NetworkKind, make_run};
use hierarchy_network::ForwardingServer;
use net_model::{Entry, Turn};
use net_tables::Tables;
use std::alloc::Global;

/// The networks of hierarchies, with server 1 at the top.
pub struct Hierarchies;

impl NetworkKind for Hierarchies {
    ghost use Rattle.audit_hierarchy.specs.Runs.{hierarchies};

    ghost kind = { hierarchies };

    fn lemma_one_verdict() {}
}

impl AuditedKind for Hierarchies {
    fn run(
        alloc: Global,
        tables: &Tables<'_>,
        turns: &[(u32, Turn)],
        first: u32,
        end: u32,
        output: &[u8],
    ) -> Result<(Vec<Entry>, u128), AuditFault> {
        make_run::<ForwardingServer<'_>, Hierarchies>(alloc, tables, turns, first, end, output)
    }
}
