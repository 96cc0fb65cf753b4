//! Writes numbers in decimal at the end of a text.
ghost use Rattle.std.specs.Prelude.{◌≡◌, ◌++◌, OnOk};
ghost use Rattle.std.specs.Fmt.{decimal, signed_decimal};
ghost use Rattle.base.specs.Text.{labelled};

use crate::NoMemory;
use itoa::Buffer;

/// Puts a number in decimal at the end.
pub fn push_number(out: &mut Vec<u8>, number: u64) -> Result<(), NoMemory>
    ensures { OnOk result (out.new.items ≡ out.old.items ++ decimal number) }
{
    let mut buffer = Buffer::new();
    out.extend_from_slice(buffer.format(number).as_bytes())?;
    Ok(())
}

/// Puts an integer in decimal at the end, with a minus sign where it is below zero.
pub fn push_int(out: &mut Vec<u8>, int: i64) -> Result<(), NoMemory>
    ensures { OnOk result (out.new.items ≡ out.old.items ++ signed_decimal int) }
{
    let mut buffer = Buffer::new();
    out.extend_from_slice(buffer.format(int).as_bytes())?;
    Ok(())
}

/// Puts a label with a number behind it at the end.
#[tactic(auto, unfolding(crate::specs::Text::labelled))]
pub fn push_labelled(out: &mut Vec<u8>, label: &[u8], number: u64) -> Result<(), NoMemory>
    ensures { OnOk result (out.new.items ≡ out.old.items ++ labelled label.now number) }
{
    out.extend_from_slice(label)?;
    push_number(out, number)
}
