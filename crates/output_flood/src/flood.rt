//! Finds what flooding owes and allows to each client.
ghost use Rattle.std.specs.Prelude.{◌≡◌, IfOk};
ghost use Rattle.net_model.specs.Sound.{IsSound};
ghost use Rattle.output_flood.specs.Flooding.{IsFlooding};
ghost use Rattle.output_flood.specs.Publications.{accepted_of, all_rows_of, all_refusals_of};

use crate::owed::Owed;
use crate::rows::{accepted, all_refusals, all_rows};
use base::NoMemory;
use net_model::Net;
use net_tables::Catalogue;
use std::alloc::Global;

// The rows and the refusals, as lists.
fn listed(alloc: Global, net: &Net) -> Result<Owed, NoMemory>
    requires { IsSound net.now }
    ensures rows { IfOk result (λ owed. owed.rows.items ≡ all_rows_of net.now.clients (accepted_of net.now.semantics 1 net.now.clients)) }
    ensures refused { IfOk result (λ owed. owed.refused.items ≡ all_refusals_of net.now.semantics net.now.clients) }
{
    let publications = accepted(alloc, net.semantics, &net.clients)?;
    let catalogue = Catalogue::of(alloc, net)?;
    let rows = all_rows(alloc, &catalogue, &publications)?;
    let refused = all_refusals(alloc, net.semantics, &net.clients)?;
    Ok(Owed { rows, refused })
}

/// For each client of a net exactly the publications that are allowed to it, by publisher and ordinal, with those that are
/// owed to it marked, and the ordinals of its refused publishes: by the scripts alone, each notice against each client's own
/// lists.
#[tactic(auto, using(crate::proofs::Flooded::flooding_by))]
pub fn must_may(alloc: Global, net: &Net) -> Result<Owed, NoMemory>
    requires { IsSound net.now }
    ensures { IfOk result (λ owed. IsFlooding net.now owed.rows.items owed.refused.items) }
{
    listed(alloc, net)
}
