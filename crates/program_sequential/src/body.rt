//! What is printed before a trace, kept until it is written.
ghost use Rattle.base_devices.specs.Pending.{outlet, Went};
ghost use Rattle.program_sequential.specs.Showing.{body_text};

use crate::given::Given;
use base_devices::{Pending, Sink};
use document_format::put_document;
use net_model::Net;
use output_patterns::Found;
use output_report::Flooded;
use output_traffic::Traffic;

/// What is printed before the rest of a text.
#[derive(Drop)]
pub enum Body {
    /// Nothing.
    Nothing,
    /// What clients received.
    Received(Given),
    /// What flooding brings.
    Flooded(Flooded),
    /// Where patterns occur.
    Found(Found),
    /// The canonical text of a net.
    Formatted(Net),
    /// What links carried.
    Carried(Traffic),
}

impl Body {
    /// Puts the text behind what waits. It takes no memory.
    pub fn put<K: Sink>(self, out: &mut Pending, sink: &mut K)
        ensures { Went (outlet (K.state sink.old) out.old) (outlet (K.state sink.new) out.new)
            (body_text self) }
    {
        match self {
            Body::Nothing => {}
            Body::Received(given) => given.put(out, sink),
            Body::Flooded(flooded) => flooded.put(out, sink),
            Body::Found(found) => found.put(out, sink),
            Body::Formatted(net) => put_document(out, sink, &net),
            Body::Carried(traffic) => traffic.put(out, sink),
        }
    }
}
