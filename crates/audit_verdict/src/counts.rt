//! Counts what an audit reports with its yes: what flooding owes.
ghost use Rattle.std.specs.Prelude.{◌≡◌, ◌+◌, ◌≤◌, IfOk, length};
ghost use Rattle.net_model.specs.Sound.{IsSound};
ghost use Rattle.audit_verdict.specs.Verdict.{Owes, owed_in, owed_of};

use base::NoMemory;
use filter_text::Lists;
use net_model::Net;
use output_flood::{OwedRow, must_may};
use std::alloc::Global;

// How many of these rows are owed.
fn owed_of(rows: &[OwedRow]) -> u64
    ensures value { result ≡ owed_of rows.now }
    ensures most { result ≤ length rows.now }
{
    let mut owed = 0;
    for row in rows {
        if row.must {
            owed += 1;
        }
    }
    owed
}

// How many rows of these lists are owed.
fn owed_in(lists: &[Lists<OwedRow>]) -> u128
    ensures { result ≡ owed_in lists.now }
{
    let mut owed = 0;
    for list in lists {
        owed += u128::from(owed_of(list.as_slice()));
    }
    owed
}

/// How many publications flooding owes to the clients of a net.
pub fn owed(alloc: Global, net: &Net) -> Result<u128, NoMemory>
    requires { IsSound net.now }
    ensures { IfOk result (λ owed. Owes net.now owed) }
{
    let rows = must_may(alloc, net)?.rows;
    Ok(owed_in(&rows))
}
