//! Writes the text of the traffic to a sink. No call takes memory.
ghost use Rattle.std.specs.Prelude.{◌≡◌, ◌++◌, false};
ghost use Rattle.std.specs.List.{flat_map};
ghost use Rattle.base_devices.specs.Pending.{outlet, Went};
ghost use Rattle.output_traffic.specs.Text.{link_printed, total_line};
ghost use Rattle.output_traffic.specs.Printed.{loads_by};

use crate::directions::put_links;
use crate::line::put_counts;
use crate::loads::LoadCounts;
use crate::traffic::Totals;
use base_devices::{Pending, Sink};

// The line of the sums.
fn put_totals<K: Sink>(out: &mut Pending, sink: &mut K, totals: &Totals)
    ensures { Went (outlet (K.state sink.old) out.old) (outlet (K.state sink.new) out.new)
        (total_line totals.now.notices totals.now.flood totals.now.messages) }
{
    out.put(sink, b"traffic");
    put_counts(out, sink, totals.notices, totals.flood, totals.messages)
}

/// The lines of links, and the sums.
pub(crate) fn put_text<K: Sink>(
    out: &mut Pending,
    sink: &mut K,
    loads: &LoadCounts,
    links: &[(u32, u32)],
    totals: &Totals,
)
    ensures { Went (outlet (K.state sink.old) out.old) (outlet (K.state sink.new) out.new)
        (flat_map (link_printed false (loads_by loads.now)) links.now ++ total_line totals.now.notices totals.now.flood totals.now.messages) }
{
    put_links(out, sink, false, loads, links);
    put_totals(out, sink, totals)
}
