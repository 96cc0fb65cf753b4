//! Keeps what the clients received until it is written.
ghost use Rattle.std.specs.Prelude.{◌≡◌, length, IfOk};
ghost use Rattle.base_devices.specs.Pending.{outlet, Went};
ghost use Rattle.output_report.specs.Deliveries.{deliveries_text};

use base::NoMemory;
use base_devices::{Pending, Sink};
use filter_text::Lists;
use net_inbox::Inbox;
use net_model::Net;
use output_report::{ordered, put_deliveries};
use std::alloc::Global;
use std::marker::Model;

/// What clients received, in the order in which it is printed. Contracts see its text.
#[derive(Drop)]
pub struct Given {
    net: Net,
    refused: Vec<Lists<u32>>,
    received: Vec<Inbox>,
}

impl Model for Given {
    ghost use Rattle.std.specs.Prelude.{◌≡◌, ℕ, List, false, length};
    ghost use Rattle.output_report.specs.Deliveries.{deliveries_text};

    ghost Value = { List ℕ };

    ghost view = { λ g. deliveries_text g.net g.refused.items g.received.items false };

    ghost invariant = { λ g. (length g.refused.items ≡ length g.net.clients) × (length g.received.items ≡ length g.net.clients) };
}

impl Given {
    /// What these clients received, by publisher and ordinal where it is to be sorted.
    pub fn make(
        alloc: Global,
        net: Net,
        refused: Vec<Lists<u32>>,
        received: Vec<Inbox>,
        sorted: bool,
    ) -> Result<Given, NoMemory>
        requires refused { length refused.items ≡ length net.clients }
        requires received { length received.items ≡ length net.clients }
        ensures { IfOk result (λ given. given ≡ deliveries_text net refused.items received.items sorted) }
    {
        let received = ordered(alloc, received, sorted)?;
        Ok(Given {
            net,
            refused,
            received,
        })
    }

    /// Puts the text behind what waits. It takes no memory.
    pub fn put<K: Sink>(&self, out: &mut Pending, sink: &mut K)
        ensures { Went (outlet (K.state sink.old) out.old) (outlet (K.state sink.new) out.new) self.now }
    {
        put_deliveries(out, sink, &self.net, &self.refused, &self.received)
    }
}
