//! Finds which numbers are held from an interface, and which of a change make a difference.
ghost use Rattle.std.specs.Prelude.{◌≡◌, ◌<◌, ◌↔◌, ℕ, length, IfOk};
ghost use Rattle.base.specs.Sets.{Has};
ghost use Rattle.base_order.specs.Order.{picked};
ghost use Rattle.server_stock.specs.Stock.{held_from};
ghost use Rattle.server_core.specs.Due.{IsHeldAs};

use base::{Cover, NoMemory};
use base_bits::Row;
use server_stock::Stock;
use std::alloc::Global;

/// Those of these numbers whose items are held from an interface, or those whose items are not.
pub(crate) fn sieve<'a, T: Cover>(
    alloc: Global,
    stock: &Stock<'a, T>,
    interface: u32,
    numbers: &[u32],
    held: bool,
) -> Result<Vec<u32>, NoMemory>
    requires { (i : ℕ) → Has i numbers.now → i < length stock.now.items }
    ensures { IfOk result (λ list. (k : ℕ) → Has k list.items
        ↔ (Has k numbers.now × IsHeldAs held stock.now.items (held_from T.order interface stock.now.holdings) k)) }
{
    let mut list = Vec::new(alloc);
    for i in numbers {
        if stock.holds(interface, *i) == held {
            list.push(*i)?;
        }
    }
    Ok(list)
}

/// A row of the numbers of what is held from an interface.
pub(crate) fn row_of<'a, T: Cover>(
    alloc: Global,
    stock: &Stock<'a, T>,
    interface: u32,
    width: u32,
) -> Result<Row, NoMemory>
    requires { width ≡ length stock.now.items }
    ensures width { IfOk result (λ row. row.width ≡ length stock.now.items) }
    ensures held { IfOk result (λ row. picked stock.now.items row.members ≡ held_from T.order interface stock.now.holdings) }
{
    stock.lemma_sound();
    let mut row = Row::new(alloc, width)?;
    let Some(held) = stock.held(interface) else {
        return Ok(row);
    };
    row.copy_from(held);
    Ok(row)
}
