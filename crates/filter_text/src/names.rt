//! A name made of bytes that are known to be one.
ghost use Rattle.std.specs.Prelude.{◌≡◌, IfOk};
ghost use Rattle.filter_values.specs.Name.{IsName};

use base::NoMemory;
use filter_values::{Name, NameFault};
use std::alloc::Global;

/// The name that these bytes are. It is refused only where memory is.
pub fn known_name(alloc: Global, bytes: &[u8]) -> Result<Name, NoMemory>
    requires { IsName bytes.now }
    ensures { IfOk result (λ name. name ≡ bytes.now) }
{
    match Name::read(alloc, bytes) {
        Ok(name) => Ok(name),
        Err(NameFault::NoMemory) => Err(NoMemory),
        Err(NameFault::Empty) => unreachable!(),
        Err(NameFault::TooLong) => unreachable!(),
        Err(NameFault::BadByte(_)) => unreachable!(),
    }
}
