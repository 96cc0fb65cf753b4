//! The type of bytes that lie in the value itself where they are few.
ghost use Rattle.std.specs.Prelude.{◌≡◌, ◌≤◌, length, IfOk};

use std::alloc::{AllocError, Global};
use std::marker::Model;

// So many bytes lie in the value itself.
const INSIDE: usize = 30;

#[derive(Drop)]
enum Store {
    Inside { count: u8, bytes: [u8; 30] },
    Apart(Vec<u8>),
}

/// Bytes: at most 30 lie in the value itself, and more in memory of their own. Contracts see them as
/// a list.
#[derive(Drop)]
pub struct ShortBytes {
    store: Store,
}

impl Model for ShortBytes {
    ghost use Rattle.std.specs.Prelude.{List, ℕ};
    ghost use Rattle.filter_values.specs.ShortBytes.{stored, IsStore};

    ghost Value = { List ℕ };

    ghost view = { λ short. stored short.store };

    ghost invariant = { λ short. IsStore short.store };
}

// The bytes, in the value itself.
fn inside(slice: &[u8]) -> ShortBytes
    requires { length slice.now ≤ 30 }
    ensures { result ≡ slice.now }
{
    let count = slice.len();
    let mut bytes = [0; INSIDE];
    bytes[..count].copy_from_slice(slice);
    ShortBytes {
        store: Store::Inside {
            count: count as u8,
            bytes,
        },
    }
}

impl ShortBytes {
    /// A copy of these bytes.
    pub fn of_slice(alloc: Global, slice: &[u8]) -> Result<ShortBytes, AllocError>
        ensures { IfOk result (λ short. short ≡ slice.now) }
    {
        if slice.len() <= INSIDE {
            return Ok(inside(slice));
        }
        let bytes = slice.to_vec(alloc)?;
        Ok(ShortBytes {
            store: Store::Apart(bytes),
        })
    }

    /// These bytes. It takes no memory.
    pub fn of_vec(bytes: Vec<u8>) -> ShortBytes
        ensures { result ≡ bytes.items }
    {
        if bytes.len() <= INSIDE {
            return inside(&bytes);
        }
        ShortBytes {
            store: Store::Apart(bytes),
        }
    }

    /// The bytes.
    pub fn as_slice(&self) -> &[u8]
        ensures { result.now ≡ self.now }
    {
        match &self.store {
            Store::Inside { count, bytes } => &bytes[..*count as usize],
            Store::Apart(bytes) => bytes.as_slice(),
        }
    }
}
