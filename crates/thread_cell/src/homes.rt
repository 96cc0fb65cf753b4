//! Collects what the clients of each server have together.
ghost use Rattle.std.specs.Prelude.{◌≡◌, ℕ, length, Some, slice_get, IfOk};
ghost use Rattle.server_flow.specs.Homes.{NetHome};
ghost use Rattle.thread_cell.specs.Cell.{CellParts};
ghost use Rattle.thread_cell.specs.Relinking.{RepresentsHome};

use crate::cell::Cell;
use base::NoMemory;
use law_routing::interface_of;
use server_core::Core;
use server_flow::Home;
use std::alloc::Global;

/// What the clients of a server have together, by what its core holds from them.
fn home_of<'a>(alloc: Global, core: &Core<'a>) -> Result<Home<'a>, NoMemory>
    ensures { IfOk result (RepresentsHome core.now) }
{
    let mut home = Home::new(alloc, core.tables())?;
    for client in core.clients() {
        let held = core.held(interface_of(*client))?;
        home.put(&held);
    }
    Ok(home)
}

/// What the clients of each server have together.
pub(crate) fn homes<'a>(alloc: Global, cells: &[Cell<'a>]) -> Result<Vec<Home<'a>>, NoMemory>
    ensures long { IfOk result (λ homes. length homes.items ≡ length cells.now) }
    ensures homes { IfOk result (λ homes. (k : ℕ) (cell : CellParts) (home : NetHome) → slice_get cells.now k ≡ Some cell
        → slice_get homes.items k ≡ Some home → RepresentsHome cell.held.core home) }
{
    let mut homes = Vec::with_capacity(alloc, cells.len())?;
    for cell in cells {
        homes.push(home_of(alloc, cell.core())?)?;
    }
    Ok(homes)
}
