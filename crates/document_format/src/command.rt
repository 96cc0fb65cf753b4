//! Writes the lines of commands to a sink. No call takes memory.
ghost use Rattle.std.specs.Prelude.{◌++◌};
ghost use Rattle.base_devices.specs.Pending.{outlet, Went};
ghost use Rattle.filter_text.specs.FilterText.{constraints_text};
ghost use Rattle.document_format.specs.CommandText.{command_text};
ghost use Rattle.document_format.specs.DocumentText.{ended};

use crate::value::put_parts;
use base_devices::{Pending, Sink};
use filter_constraints::Constraint;
use filter_text::Command;

// A first word with its space, and constraints.
fn put_control<K: Sink>(out: &mut Pending, sink: &mut K, verb: &[u8], constraints: &[Constraint])
    ensures { Went (outlet (K.state sink.old) out.old) (outlet (K.state sink.new) out.new)
        (verb.now ++ constraints_text constraints.now) }
{
    out.put(sink, verb);
    put_parts(out, sink, constraints)
}

// A command.
fn put_text<K: Sink>(out: &mut Pending, sink: &mut K, command: &Command)
    ensures { Went (outlet (K.state sink.old) out.old) (outlet (K.state sink.new) out.new)
        (command_text command.now) }
{
    match command {
        Command::Subscribe(filter) => {
            put_control(out, sink, b"subscribe ", filter.constraints())
        }
        Command::Unsubscribe(filter) => {
            put_control(out, sink, b"unsubscribe ", filter.constraints())
        }
        Command::Advertise(advert) => {
            put_control(out, sink, b"advertise ", advert.constraints())
        }
        Command::Unadvertise(advert) => {
            put_control(out, sink, b"unadvertise ", advert.constraints())
        }
        Command::Publish(notice) => {
            out.put(sink, b"publish ");
            put_parts(out, sink, notice.attributes())
        }
    }
}

/// The line of a command.
pub(crate) fn put_command<K: Sink>(out: &mut Pending, sink: &mut K, command: &Command)
    ensures { Went (outlet (K.state sink.old) out.old) (outlet (K.state sink.new) out.new)
        (ended (command_text command.now)) }
{
    put_text(out, sink, command);
    out.put(sink, b"\n")
}
