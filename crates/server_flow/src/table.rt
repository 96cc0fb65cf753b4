//! A table with a row of numbers for each two servers.
ghost use Rattle.std.specs.Prelude.{◌≡◌, ◌<◌, ◌==◌, ◌&&◌, ℕ, cond};
ghost use Rattle.server_flow.specs.Rows.{row_at};

use base::NoMemory;
use base_bits::Row;
use std::alloc::Global;
use std::marker::Model;

/// The rows for one server lie so far apart as there may be servers, and place 0.
const WIDTH: usize = 65;

/// A row of numbers for each two servers: of what the first is to hold of the second. Servers are numbered up to 64.
#[derive(Drop)]
pub(crate) struct Table {
    rows: Vec<Row>,
}

impl Model for Table {
    ghost use Rattle.std.specs.Prelude.{◌≡◌, List, length};
    ghost use Rattle.base_bits.specs.Rows.{Numbers};

    ghost Value = { List Numbers };

    ghost view = { λ t. t.rows.items };

    ghost invariant = { λ t. length t.rows.items ≡ 4225 };
}

impl Table {
    /// A table without numbers. Its rows take no memory yet.
    pub(crate) fn blank(alloc: Global) -> Result<Table, NoMemory> {
        let mut rows = Vec::with_capacity(alloc, WIDTH * WIDTH)?;
        for _ in 0..WIDTH * WIDTH {
            rows.push(Row::new(alloc, 0)?)?;
        }
        Ok(Table { rows })
    }

    /// The row for two servers.
    pub(crate) fn row(&self, at: u32, of: u32) -> &Row
        requires at { at < 65 }
        requires of { of < 65 }
        ensures { result.now ≡ row_at self.now at of }
    {
        &self.rows[at as usize * WIDTH + of as usize]
    }

    /// Gives two servers another row.
    pub(crate) fn set(&mut self, at: u32, of: u32, row: Row)
        requires at { at < 65 }
        requires of { of < 65 }
        ensures { (a b : ℕ) → b < 65 → row_at self.new a b ≡ cond ((a == at) && (b == of)) row (row_at self.old a b) }
    {
        self.rows[at as usize * WIDTH + of as usize] = row;
    }
}
