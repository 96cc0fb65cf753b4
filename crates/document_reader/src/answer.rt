//! Tests of a line in their order, the first of which that fails is the fault.
ghost use Rattle.std.specs.Prelude.{◌≡◌, IfErr, IfOk, None, Some};
ghost use Rattle.document_reader.specs.declared.fault.LineFault.TheVariants.{Kind as AtFault};
ghost use Rattle.document_reader.specs.Answer.{GivesByRule, need};

use crate::fault::LineFault;

/// The fault, unless the test holds.
pub fn need<K: Copy>(holds: bool, kind: K) -> Result<(), LineFault<K>>
    ensures { GivesByRule result (need holds kind) }
{
    if holds {
        Ok(())
    } else {
        Err(LineFault::Kind(kind))
    }
}

/// What is there, or else the fault.
pub fn want<T, K: Copy>(found: Option<T>, kind: K) -> Result<T, LineFault<K>>
    ensures some { IfOk result (λ x. found ≡ Some x) }
    ensures none { IfErr result (λ e. (found ≡ None) × (e ≡ AtFault kind)) }
{
    match found {
        Some(x) => Ok(x),
        None => Err(LineFault::Kind(kind)),
    }
}
