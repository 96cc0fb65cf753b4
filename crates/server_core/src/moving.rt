//! What a planned change takes away and adds, by numbers.
ghost use Rattle.std.specs.Prelude.{◌≡◌};
ghost use Rattle.server_session.specs.Moved.{gone, come};

use server_session::Moved;
use std::slice::from_ref;

/// The numbers that a planned change takes away.
pub(crate) fn withdrawn(moved: &Moved) -> &[u32]
    ensures { result.now ≡ gone moved.now }
{
    match moved {
        Moved::Withdrawn(numbers) => numbers.as_slice(),
        _ => &[],
    }
}

/// The numbers that it adds.
pub(crate) fn added(moved: &Moved) -> &[u32]
    ensures { result.now ≡ come moved.now }
{
    match moved {
        Moved::Added(number) => from_ref(number),
        _ => &[],
    }
}
