//! The type of the traffic of a run, kept until it is written.
ghost use Rattle.std.specs.Prelude.{◌≡◌, ◌≤◌, length};
ghost use Rattle.output_traffic.specs.Printed.{totals_of};

use crate::carried::Carried;
use crate::flood::flooding;
use crate::graph::put_graph;
use crate::links::{links, servers};
use crate::loads::{LoadCounts, total};
use crate::text::put_text;
use base::NoMemory;
use base_devices::{Pending, Sink};
use filter_text::Lists;
use net_model::Net;
use std::alloc::Global;
use std::marker::Model;

/// The sums over all links, in both directions.
#[derive(Drop)]
pub(crate) struct Totals {
    pub(crate) notices: u64,
    pub(crate) flood: u64,
    pub(crate) messages: u64,
}

// The sums of counts over links.
fn sums(loads: &LoadCounts, links: &[(u32, u32)]) -> Totals
    requires { length links.now ≤ 4096 }
    ensures { result ≡ totals_of loads.now links.now }
{
    Totals {
        notices: total(&loads.notices, links),
        flood: total(&loads.flood, links),
        messages: total(&loads.messages, links),
    }
}

/// What each link of a net carried in a run, beside what plain flooding puts there, kept until it is written as a text or as a
/// graph. Contracts see what is written.
#[derive(Drop)]
pub struct Traffic {
    net: Net,
    servers: u32,
    links: Vec<(u32, u32)>,
    loads: LoadCounts,
    totals: Totals,
    graph: bool,
}

impl Model for Traffic {
    ghost use Rattle.std.specs.Prelude.{◌≡◌, ◌≤◌, ℕ, List};
    ghost use Rattle.net_model.specs.Nets.{first_tree};
    ghost use Rattle.output_traffic.specs.Links.{links_in};
    ghost use Rattle.output_traffic.specs.Text.{traffic_printed};
    ghost use Rattle.output_traffic.specs.Printed.{loads_by, totals_of};

    ghost Value = { List ℕ };

    ghost view = { λ t. traffic_printed t.graph t.net (loads_by t.loads) };

    ghost invariant = { λ t. (t.servers ≡ (first_tree t.net.trees).count) × (t.servers ≤ 64) × (t.links.items ≡ links_in t.net)
        × (t.totals ≡ totals_of t.loads t.links.items) };
}

impl Traffic {
    ghost use Rattle.std.specs.Prelude.{◌≡◌, ℕ, List, IfOk};
    ghost use Rattle.base_devices.specs.Pending.{outlet, Went};
    ghost use Rattle.filter_text.specs.declared.sent.Sent.{Sent};
    ghost use Rattle.net_model.specs.Nets.{of_clients};
    ghost use Rattle.net_model.specs.Parts.{EntryParts};
    ghost use Rattle.net_model.specs.Sound.{IsSound};
    ghost use Rattle.output_traffic.specs.Flood.{refused_of};
    ghost use Rattle.output_traffic.specs.Tallied.{AreFew, Carries};
    ghost use Rattle.output_traffic.specs.Text.{loads_of, traffic_printed};

    /// The traffic of a run of a net, by what its entries put on each link and by the ordinals of each client's refused
    /// publishes; as a graph where that is wanted, else as a text.
    pub fn make(
        alloc: Global,
        net: Net,
        refused: &[Lists<u32>],
        carried: Carried,
        graph: bool,
    ) -> Result<Traffic, NoMemory>
        requires sound { IsSound net }
        requires refused { refused.now ≡ of_clients net (refused_of net) }
        ensures { IfOk result (λ traffic. (journal : List EntryParts) (outs : List (List Sent))
            → Carries carried journal outs → AreFew journal outs → traffic ≡ traffic_printed graph net (loads_of net journal outs)) }
    {
        let flood = flooding(alloc, &net, refused)?;
        let links = links(alloc, &net)?;
        let servers = servers(&net);
        let loads = LoadCounts {
            notices: carried.notices,
            flood,
            messages: carried.changes,
        };
        let totals = sums(&loads, &links);
        Ok(Traffic {
            net,
            servers,
            links,
            loads,
            totals,
            graph,
        })
    }

    /// Puts the text, or the graph, behind what waits. It takes no memory.
    pub fn put<K: Sink>(&self, out: &mut Pending, sink: &mut K)
        ensures { Went (outlet (K.state sink.old) out.old) (outlet (K.state sink.new) out.new) self.now }
    {
        if self.graph {
            put_graph(
                out,
                sink,
                self.servers,
                &self.net.clients,
                &self.loads,
                &self.links,
            )
        } else {
            put_text(out, sink, &self.loads, &self.links, &self.totals)
        }
    }
}
