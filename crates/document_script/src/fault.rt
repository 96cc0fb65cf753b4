//! The type of the faults for which a command line gives no command.
ghost use Rattle.std.specs.Prelude.{◌≡◌};
ghost use Rattle.document_script.specs.declared.fault.ScriptFault.TheVariants as faults;

use base::NoMemory;

/// Why a command line gives no command. The faults are tested over the whole line in this order.
#[derive(Clone, Copy, Debug, PartialEq, Eq)]
pub enum ScriptFault {
    /// The line is not of the form of a command.
    Syntax,
    /// An int outside i64, or a string of more than 1,024 bytes, decoded.
    Value,
    /// The empty operand of a `prefix`, `suffix` or `contains`.
    Operand,
    /// More than 64 attributes, 16 distinct constraints of a filter or 64 of an advertisement.
    Count,
    /// A notice with one name twice.
    Repeat,
    /// Memory ran out.
    NoMemory,
}

impl From<NoMemory> for ScriptFault {
    ghost from_gives = { λ _ e. e ≡ faults.NoMemory };

    fn from(_: NoMemory) -> Self {
        ScriptFault::NoMemory
    }
}
