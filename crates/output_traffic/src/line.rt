//! Writes parts of lines to a sink. No call takes memory.
ghost use Rattle.std.specs.Prelude.{◌≡◌};
ghost use Rattle.base_devices.specs.Pending.{outlet, Went};
ghost use Rattle.base.specs.Text.{labelled};
ghost use Rattle.output_traffic.specs.Text.{counts_end};

use base_devices::{Pending, Sink};
use itoa::Buffer;

/// A label with a number behind it.
pub(crate) fn put_labelled<K: Sink>(out: &mut Pending, sink: &mut K, label: &[u8], number: u64)
    ensures { Went (outlet (K.state sink.old) out.old) (outlet (K.state sink.new) out.new)
        (labelled label.now number) }
{
    out.put(sink, label);
    let mut buffer = Buffer::new();
    out.put(sink, buffer.format(number).as_bytes())
}

/// The end of a line that counts notifications, those of flooding, and messages.
pub(crate) fn put_counts<K: Sink>(
    out: &mut Pending,
    sink: &mut K,
    notices: u64,
    flood: u64,
    messages: u64,
)
    ensures { Went (outlet (K.state sink.old) out.old) (outlet (K.state sink.new) out.new)
        (counts_end notices flood messages) }
{
    put_labelled(out, sink, b" notices ", notices);
    put_labelled(out, sink, b" flood ", flood);
    put_labelled(out, sink, b" messages ", messages);
    out.put(sink, b"\n")
}
