//! Raises the clocks of the servers to the greatest at the first command of a later phase.
ghost use Rattle.std.specs.Prelude.{◌≡◌, ◌<◌, ◌^◌, ℕ, length, map, IfOk, OnOk, OnErr};
ghost use Rattle.base.specs.Sets.{Has};
ghost use Rattle.sequential_network.specs.Stepping.{greatest_clock};
ghost use Rattle.hierarchy_network.specs.Clocks.{clock_from, with_clocks};
ghost use Rattle.hierarchy_network.specs.Stepping.{hierarchy};

use crate::forwarding_server::ForwardingServer;
use base::NoMemory;
use sequential_network::greatest_clock;
use std::alloc::Global;

/// The clocks of the servers, each at least this one.
fn clocks(alloc: Global, places: &[ForwardingServer<'_>], least: u64) -> Result<Vec<u64>, NoMemory>
    requires { least < 2 ^ 62 }
    ensures clocks { IfOk result (λ clocks. clocks.items ≡ map (clock_from least) places.now) }
    ensures low { IfOk result (λ clocks. (c : ℕ) → Has c clocks.items → c < 2 ^ 62) }
{
    let mut clocks = Vec::with_capacity(alloc, places.len())?;
    for place in places {
        clocks.push(place.core().clock().max(least))?;
    }
    Ok(clocks)
}

/// Raises every clock to the greatest; the answer is the clocks before. All memory is taken first.
pub(crate) fn raise_all(
    alloc: Global,
    places: &mut Vec<ForwardingServer<'_>>,
) -> Result<Vec<u64>, NoMemory>
    ensures raised { OnOk result (places.new.items
        ≡ with_clocks (map (clock_from (greatest_clock hierarchy places.old.items)) places.old.items) places.old.items) }
    ensures before { IfOk result (λ before. before.items ≡ map (clock_from 0) places.old.items) }
    ensures low { IfOk result (λ before. (c : ℕ) → Has c before.items → c < 2 ^ 62) }
    ensures err { OnErr result (places.new.items ≡ places.old.items) }
{
    let before = clocks(alloc, places, 0)?;
    let raised = clocks(alloc, places, greatest_clock(places))?;
    set_clocks(places, &raised);
    Ok(before)
}

/// Sets the clock of each server. It takes no memory.
pub(crate) fn set_clocks(places: &mut Vec<ForwardingServer<'_>>, clocks: &[u64])
    requires long { length clocks.now ≡ length places.old.items }
    requires low { (c : ℕ) → Has c clocks.now → c < 2 ^ 62 }
    ensures { places.new.items ≡ with_clocks clocks.now places.old.items }
{
    for i in 0..clocks.len() {
        places[i].raise(clocks[i]);
    }
}
