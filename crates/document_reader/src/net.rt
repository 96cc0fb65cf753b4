//! Makes the net of a document from what its lines defined.
ghost use Rattle.std.specs.Prelude.{◌≡◌, IfOk, false, map};
ghost use Rattle.base_tree.specs.Graph.{IsCount};
ghost use Rattle.document_reader.specs.Drawn.{IsWholeBlock, is_apart};
ghost use Rattle.document_reader.specs.Net.{IsNetIn};

use crate::state::State;
use base::NoMemory;
use net_model::Net;
use std::alloc::Global;

/// The net of what stands at the end, where there are servers and the edges join them all.
pub fn net(alloc: Global, state: State) -> Result<Net, NoMemory>
    requires servers { IsCount state.trees.servers }
    requires whole { is_apart state.trees ≡ false }
    ensures { IfOk result (λ net. IsNetIn state net) }
{
    let trees = state.trees.build(alloc)?;
    let clients = state.clients.into_clients(alloc)?;
    Ok(Net {
        version: state.version.number(),
        semantics: state.semantics,
        trees,
        clients,
        schedule: state.schedule.into_vec(),
    })
}
