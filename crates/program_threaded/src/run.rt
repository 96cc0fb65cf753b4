//! Makes the run of a net with two workers a server.
ghost use Rattle.std.specs.Prelude.{◌≡◌, IfOk};
ghost use Rattle.net_model.specs.Sound.{IsSound};
ghost use Rattle.program_threaded.specs.Runs.{IsThreaded};

use crate::phases::run_phases;
use crate::team::Team;
use base::NoMemory;
use base_devices::Gate;
use net_journal::Ran;
use net_model::Net;
use net_tables::Tables;
use std::alloc::Global;
use std::sync::Wait;
use std::thread::Threads;
use thread_outcome::{collect, end_all};

/// The run of a net, phase by phase, with two workers a server, in as many threads as are wanted where these can be had: one at
/// least, this one, and 64 or one a worker at most. What the servers did is the entries of their journals by stamp and then by
/// server, which are kept where that is wanted, and else pass. Its one refusal is out of memory, and it returns where its
/// workers do.
pub fn run_net<R: Threads + Wait + Sync, G: Gate + Sync>(
    alloc: Global,
    rt: &R,
    net: &Net,
    gate: &G,
    threads: usize,
    keeps: bool,
) -> Result<Ran, NoMemory>
    requires { IsSound net.now }
    ensures run { IfOk result (IsThreaded net.now) }
    ensures kept { IfOk result (λ ran. ran.journal.kept ≡ keeps) }
{
    let tables = Tables::of(alloc, net)?;
    let Team {
        mut cells,
        mut viewers,
    } = Team::make(alloc, rt, &tables, keeps)?;
    match run_phases(alloc, rt, &tables, gate, threads, &mut cells, &mut viewers) {
        Ok(()) => collect(alloc, rt, tables.net(), cells, keeps),
        Err(fault) => {
            end_all(rt, cells);
            Err(fault)
        }
    }
}
