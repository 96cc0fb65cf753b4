//! Writes the directions of links to a sink. No call takes memory.
ghost use Rattle.std.specs.Prelude.{◌≡◌, ◌++◌, ◌<◌, ◌^◌};
ghost use Rattle.std.specs.List.{flat_map};
ghost use Rattle.base_devices.specs.Pending.{outlet, Went};
ghost use Rattle.output_traffic.specs.Text.{direction_arrow, direction_line, direction_printed, link_printed, width};
ghost use Rattle.output_traffic.specs.Printed.{loads_by};

use crate::line::{put_counts, put_labelled};
use crate::loads::{Direction, LoadCounts};
use base_devices::{Pending, Sink};

// The line of a direction.
fn put_line<K: Sink>(out: &mut Pending, sink: &mut K, direction: Direction)
    ensures { Went (outlet (K.state sink.old) out.old) (outlet (K.state sink.new) out.new)
        (direction_line direction) }
{
    put_labelled(out, sink, b"link ", direction.from);
    put_labelled(out, sink, b" ", direction.to);
    put_counts(
        out,
        sink,
        direction.notices,
        direction.flood,
        direction.messages,
    )
}

// How wide a direction is drawn.
fn width(direction: &Direction) -> u64
    requires { direction.now.notices < 2 ^ 32 }
    ensures { result ≡ width direction.now.notices direction.now.flood }
{
    if direction.flood == 0 {
        return 1;
    }
    1 + 8 * direction.notices / direction.flood
}

// The arrow of a direction.
fn put_arrow<K: Sink>(out: &mut Pending, sink: &mut K, direction: Direction)
    requires { direction.notices < 2 ^ 32 }
    ensures { Went (outlet (K.state sink.old) out.old) (outlet (K.state sink.new) out.new)
        (direction_arrow direction) }
{
    put_labelled(out, sink, b"  ", direction.from);
    put_labelled(out, sink, b" -> ", direction.to);
    put_labelled(out, sink, b" [label=\"", direction.notices);
    put_labelled(out, sink, b" of ", direction.flood);
    put_labelled(out, sink, b", ", direction.messages);
    put_labelled(out, sink, b"\", penwidth=", width(&direction));
    out.put(sink, b"];\n")
}

// A direction, as an arrow or as a line.
fn put_direction<K: Sink>(out: &mut Pending, sink: &mut K, graph: bool, direction: Direction)
    requires { direction.notices < 2 ^ 32 }
    ensures { Went (outlet (K.state sink.old) out.old) (outlet (K.state sink.new) out.new)
        (direction_printed graph direction) }
{
    if graph {
        put_arrow(out, sink, direction)
    } else {
        put_line(out, sink, direction)
    }
}

// Both directions of a link.
fn put_link<K: Sink>(
    out: &mut Pending,
    sink: &mut K,
    graph: bool,
    loads: &LoadCounts,
    link: (u32, u32),
)
    ensures { Went (outlet (K.state sink.old) out.old) (outlet (K.state sink.new) out.new)
        (link_printed graph (loads_by loads.now) link) }
{
    put_direction(out, sink, graph, loads.direction(link.0, link.1));
    put_direction(out, sink, graph, loads.direction(link.1, link.0))
}

/// Those of links, in their order: as arrows of a graph, or as lines of a text.
pub(crate) fn put_links<K: Sink>(
    out: &mut Pending,
    sink: &mut K,
    graph: bool,
    loads: &LoadCounts,
    links: &[(u32, u32)],
)
    ensures { Went (outlet (K.state sink.old) out.old) (outlet (K.state sink.new) out.new)
        (flat_map (link_printed graph (loads_by loads.now)) links.now) }
{
    for link in links {
        put_link(out, sink, graph, loads, *link);
    }
}
