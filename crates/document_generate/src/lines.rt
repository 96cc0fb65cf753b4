//! Writes the single lines of a generated document.
ghost use Rattle.std.specs.Prelude.{◌≡◌, ◌++◌, ◌<◌, ℕ, OnOk};
ghost use Rattle.document_generate.specs.Draws.{after};
ghost use Rattle.document_generate.specs.Lines.{edge_line, client_line, test_text, prefix_text};
ghost use Rattle.document_generate.specs.Lines.{subscribe_text, subscribe_line, attribute_text, publish_line};

use crate::draws::Draws;
use base::{NoMemory, push_labelled, push_number};

// A text.
fn push_text(out: &mut Vec<u8>, text: &[u8]) -> Result<(), NoMemory>
    ensures { OnOk result (out.new.items ≡ out.old.items ++ text.now) }
{
    out.extend_from_slice(text)?;
    Ok(())
}

/// A server and an earlier one.
#[tactic(auto, unfolding(crate::specs::Lines::edge_line))]
pub(crate) fn push_edge(out: &mut Vec<u8>, draws: &mut Draws, place: u64) -> Result<(), NoMemory>
    requires { place < 15 }
    ensures text { OnOk result (out.new.items ≡ out.old.items ++ edge_line place draws.old.state) }
    ensures state { OnOk result (draws.new.state ≡ after 1 draws.old.state) }
{
    let other = draws.below(place + 1) + 1;
    out.extend_from_slice(b"edge ")?;
    push_number(out, other)?;
    out.push(b' ')?;
    push_number(out, place + 2)?;
    out.push(b'\n')?;
    Ok(())
}

/// A client at its server.
#[tactic(auto, unfolding(crate::specs::Lines::client_line))]
pub(crate) fn push_client(out: &mut Vec<u8>, place: u64) -> Result<(), NoMemory>
    requires { place < 64 }
    ensures { (state : ℕ) → OnOk result (out.new.items ≡ out.old.items ++ client_line place state) }
{
    out.extend_from_slice(b"client c")?;
    push_number(out, place + 1)?;
    out.push(b' ')?;
    push_number(out, place % 16 + 1)?;
    out.push(b'\n')?;
    Ok(())
}

// An operator with its operand.
#[tactic(auto, unfolding(crate::specs::Lines::test_text))]
fn push_test(out: &mut Vec<u8>, operator: u64, operand: u64) -> Result<(), NoMemory>
    ensures { OnOk result (out.new.items ≡ out.old.items ++ test_text operator operand) }
{
    match operator {
        0 => out.extend_from_slice(b" int >= ")?,
        1 => out.extend_from_slice(b" int < ")?,
        2 => out.extend_from_slice(b" int = ")?,
        _ => {
            out.extend_from_slice(b" int any")?;
            return Ok(());
        }
    }
    push_number(out, operand)
}

// A second constraint, where it is wanted.
#[tactic(auto, unfolding(crate::specs::Lines::prefix_text))]
fn push_prefix(out: &mut Vec<u8>, wanted: bool, first: u8) -> Result<(), NoMemory>
    ensures { OnOk result (out.new.items ≡ out.old.items ++ prefix_text wanted first) }
{
    if !wanted {
        return Ok(());
    }
    push_text(out, b"; t str prefix \"")?;
    push_text(out, &[first])?;
    push_text(out, b"\"")?;
    Ok(())
}

// A subscription of one constraint or two.
#[tactic(auto, unfolding(crate::specs::Lines::subscribe_text))]
fn push_filter(
    out: &mut Vec<u8>,
    attribute: u64,
    operator: u64,
    operand: u64,
    wanted: bool,
    first: u8,
) -> Result<(), NoMemory>
    ensures { OnOk result (out.new.items ≡ out.old.items ++ subscribe_text attribute operator operand wanted first) }
{
    push_labelled(out, b"subscribe a", attribute)?;
    push_test(out, operator, operand)?;
    push_prefix(out, wanted, first)?;
    push_text(out, b"\n")
}

/// A subscription, of what is drawn.
#[tactic(auto, unfolding(crate::specs::Lines::subscribe_line))]
pub(crate) fn push_subscribe(out: &mut Vec<u8>, draws: &mut Draws) -> Result<(), NoMemory>
    ensures text { OnOk result (out.new.items ≡ out.old.items ++ subscribe_line draws.old.state) }
    ensures state { OnOk result (draws.new.state ≡ after 5 draws.old.state) }
{
    let attribute = draws.below(8);
    let operator = draws.below(4);
    let operand = draws.below(100);
    let wanted = draws.below(2) == 1;
    let first = draws.letter();
    push_filter(out, attribute, operator, operand, wanted, first)
}

// An attribute of a publication.
#[tactic(auto, unfolding(crate::specs::Lines::attribute_text))]
fn push_attribute(out: &mut Vec<u8>, name: u64, value: u64) -> Result<(), NoMemory>
    ensures { OnOk result (out.new.items ≡ out.old.items ++ attribute_text name value) }
{
    out.push(b'a')?;
    push_number(out, name % 8)?;
    out.extend_from_slice(b" int ")?;
    push_number(out, value)?;
    out.extend_from_slice(b"; ")?;
    Ok(())
}

/// A publication.
#[tactic(auto, unfolding(crate::specs::Lines::publish_line))]
pub(crate) fn push_publish(out: &mut Vec<u8>, draws: &mut Draws) -> Result<(), NoMemory>
    ensures text { OnOk result (out.new.items ≡ out.old.items ++ publish_line draws.old.state) }
    ensures state { OnOk result (draws.new.state ≡ after 6 draws.old.state) }
{
    let first = draws.below(8);
    out.extend_from_slice(b"publish ")?;
    push_attribute(out, first, draws.below(100))?;
    push_attribute(out, first + 1, draws.below(100))?;
    push_attribute(out, first + 2, draws.below(100))?;
    out.extend_from_slice(b"t str \"")?;
    out.extend_from_slice(&[draws.letter(), draws.letter()])?;
    out.extend_from_slice(b"\"\n")?;
    Ok(())
}
