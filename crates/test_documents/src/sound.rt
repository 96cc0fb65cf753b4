//! Reads a document into its net, which is known to be sound.
ghost use Rattle.std.specs.Prelude.{IfOk};
ghost use Rattle.net_model.specs.Sound.{IsSound};

use document_reader::law::lemma_net_sound;
use document_reader::{InputFault, read_net};
use net_model::Net;
use std::alloc::Global;
use test_support::Failure;

/// The net of a document.
pub fn net(alloc: Global, document: &[u8]) -> Result<Net, Failure>
    ensures { IfOk result IsSound }
{
    lemma_net_sound();
    match read_net(alloc, document) {
        Ok(net) => Ok(net),
        Err(InputFault::NoMemory) => Err(Failure::NoMemory),
        Err(InputFault::Bad { .. }) => Err(Failure::Refused),
    }
}
