//! Finds the client of a name, and the publish of a number.
ghost use Rattle.std.specs.Prelude.{◌≡◌, ◌≤◌, None, length, IfOk, IfSome, OnErr};
ghost use Rattle.net_model.specs.Sound.{IsAmong};
ghost use Rattle.output_explain.specs.Asked.{found_from, number_of};

use base::NoMemory;
use filter_text::Command;
use filter_types::Notice;
use net_model::Client;
use std::alloc::Global;

/// A publish in a client's script.
#[derive(Drop)]
pub(crate) struct Found {
    /// How many commands stand before it.
    pub index: usize,
    /// Its phase.
    pub phase: u32,
    /// What it publishes.
    pub notice: Notice,
}

/// The number of the client with this name, of at most 1,024 clients.
pub(crate) fn number_of(clients: &[Client], name: &[u8]) -> Option<u32>
    requires { length clients.now ≤ 1024 }
    ensures value { result ≡ number_of name.now clients.now }
    ensures among { IfSome result (IsAmong (length clients.now)) }
{
    for (place, client) in clients.iter().enumerate() {
        if client.name.bytes() == name {
            return Some(place as u32 + 1);
        }
    }
    None
}

/// The publish of this number in a script.
pub(crate) fn publish_of(
    alloc: Global,
    script: &[(u32, Command)],
    number: u32,
) -> Result<Option<Found>, NoMemory>
    ensures found { IfOk result (λ found. found ≡ found_from number 0 0 script.now) }
    ensures memory { OnErr result (found_from number 0 0 script.now ≡ None → ⊥) }
{
    let mut count: usize = 0;
    for (index, (phase, command)) in script.iter().enumerate() {
        if let Command::Publish(notice) = command {
            count += 1;
            if count == number as usize {
                let notice = notice.copy(alloc)?;
                return Ok(Some(Found {
                    index,
                    phase: *phase,
                    notice,
                }));
            }
        }
    }
    Ok(None)
}
