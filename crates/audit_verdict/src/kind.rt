//! The trait of the kinds of networks whose runs are audited, and the kind of peers.
ghost use Rattle.std.specs.Prelude.{◌≤◌, length};
ghost use Rattle.net_model.specs.Sound.{IsSound};
ghost use Rattle.audit_verdict.specs.Answers.{TellsRun};
ghost use Rattle.audit_verdict.specs.Laws.{VerdictLaws};

use crate::fault::AuditFault;
use crate::making::make_run;
use net_model::{Entry, Turn};
use net_tables::Tables;
use sequential_network::ForwardingServer;
use std::alloc::Global;

/// A kind of networks whose runs are audited.
pub trait NetworkKind {
    ghost use Rattle.audit_verdict.specs.Kinds.{RunKind};

    /// What its runs are.
    ghost kind: { RunKind };

    /// Each output has one verdict.
    fn lemma_one_verdict()
        ensures { VerdictLaws kind };
}

/// A kind of networks, one of which makes the turns of a claimed run.
pub trait AuditedKind: NetworkKind {
    /// The journal of the run that turns make, each with its line, and how many deliveries there were, where the output is its text and it is drained. The
    /// first line of the output has a number, and so has its end.
    fn run(
        alloc: Global,
        tables: &Tables<'_>,
        turns: &[(u32, Turn)],
        first: u32,
        end: u32,
        output: &[u8],
    ) -> Result<(Vec<Entry>, u128), AuditFault>
        requires sound { IsSound tables.now }
        requires first { first ≤ 268435458 }
        requires short { length output.now ≤ 268435456 }
        ensures { TellsRun Self.kind (λ p. p.0.items) (λ p. p.1) tables.now first end output.now turns.now result };
}

/// The networks of peers.
pub struct Peers;

impl NetworkKind for Peers {
    ghost use Rattle.audit_verdict.specs.Kinds.{peers};

    ghost kind = { peers };

    fn lemma_one_verdict() {}
}

impl AuditedKind for Peers {
    fn run(
        alloc: Global,
        tables: &Tables<'_>,
        turns: &[(u32, Turn)],
        first: u32,
        end: u32,
        output: &[u8],
    ) -> Result<(Vec<Entry>, u128), AuditFault> {
        make_run::<ForwardingServer<'_>, Peers>(alloc, tables, turns, first, end, output)
    }
}
