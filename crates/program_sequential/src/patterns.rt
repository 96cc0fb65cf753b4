//! Where patterns occur in what the walk of a document brings.
ghost use Rattle.std.specs.Prelude.{ℕ, All, List, length, IfOk};
ghost use Rattle.net_model.specs.Sound.{IsSound};
ghost use Rattle.document_reader.specs.Net.{IsNetOf};
ghost use Rattle.output_patterns.specs.Watch.{IsSoundPattern};
ghost use Rattle.program_sequential.specs.Promise.{AreOfNotices};
ghost use Rattle.program_sequential.specs.Searching.{IsSearched, SearchesInput};

use crate::body::Body;
use crate::law::lemma_promise;
use crate::notices::lemma_notices;
use crate::printed::Printed;
use crate::ran::walked;
use crate::unanswered::Unanswered;
use base::NoMemory;
use document_reader::law::lemma_net_sound;
use document_reader::{Fault, MOST_BYTES};
use net_journal::Ran;
use net_model::Net;
use output_patterns::reading_law::lemma_patterns_sound;
use output_patterns::{Found, Pattern, Watch, read_patterns};
use sequential_network::Passed;
use std::alloc::Global;

// What patterns find in the walk of a net.
fn searched(alloc: Global, net: Net, patterns: Vec<Pattern>) -> Result<Printed, NoMemory>
    requires sound { IsSound net }
    requires notices { AreOfNotices net.clients }
    requires patterns { All (IsSoundPattern (length net.clients)) patterns.items }
    requires document { (input : List ℕ) × IsNetOf input net }
    ensures { IfOk result (λ p. IsSearched net patterns.items p.text p.journal) }
{
    lemma_promise();
    let Ran {
        journal,
        refused: _,
        received,
    } = walked::<Passed>(alloc, &net)?;
    let found = Found::make(alloc, net.clients, received, patterns)?;
    Printed::make(alloc, Body::Found(found), Vec::new(alloc), journal)
}

/// Where patterns occur, by an input, or why nothing is written.
pub fn of_patterns(alloc: Global, bytes: &[u8]) -> Result<Printed, Unanswered>
    ensures { SearchesInput bytes.now result }
{
    lemma_promise();
    lemma_net_sound();
    lemma_patterns_sound();
    if bytes.len() > MOST_BYTES {
        return Err(Unanswered::BadInput {
            line: 0,
            kind: Fault::TooLong,
        });
    }
    let (net, patterns) = match read_patterns(alloc, bytes) {
        Ok(Watch { net, patterns }) => (net, patterns),
        Err(fault) => return Err(Unanswered::from(fault)),
    };
    lemma_notices(&net);
    match searched(alloc, net, patterns) {
        Ok(printed) => Ok(printed),
        Err(NoMemory) => Err(Unanswered::NoMemory),
    }
}
