//! Unites the rows of which a link's row is made.
ghost use Rattle.std.specs.Prelude.{◌≡◌, ◌↔◌, ℕ, IfOk};
ghost use Rattle.base.specs.Sets.{Has};
ghost use Rattle.base_tree.specs.Tree.{IsServer, links_of};
ghost use Rattle.server_flow.specs.Rows.{row_at, IsNeeded};

use crate::table::Table;
use base::NoMemory;
use base_bits::Row;
use base_tree::Tree;
use std::alloc::Global;

/// A row of the same members.
pub(crate) fn copied(alloc: Global, row: &Row) -> Result<Row, NoMemory>
    ensures { IfOk result (λ copy. copy ≡ row.now) }
{
    row.lemma_sorted();
    let mut copy = Row::new(alloc, row.width())?;
    copy.copy_from(row);
    Ok(copy)
}

/// The numbers of what a server has of its own and of its neighbours but one.
pub(crate) fn needed(
    alloc: Global,
    tree: &Tree,
    own: &Row,
    table: &Table,
    at: u32,
    of: u32,
) -> Result<Row, NoMemory>
    requires of { IsServer tree.now of }
    requires wide { (c : ℕ) → Has c (links_of tree.now of) → (c ≡ at → ⊥) → (row_at table.now of c).width ≡ own.now.width }
    ensures width { IfOk result (λ row. row.width ≡ own.now.width) }
    ensures members { IfOk result (λ row. (k : ℕ) → Has k row.members ↔ IsNeeded tree.now own.now.members table.now at of k) }
{
    tree.lemma_laws();
    let mut row = copied(alloc, own)?;
    for next in tree.neighbours(of) {
        if *next == at {
            continue;
        }
        row.insert_all(table.row(of, *next));
    }
    Ok(row)
}
