//! The type of a client, with its script.
ghost use Rattle.std.specs.Prelude.{◌≡◌};
ghost use Rattle.net_model.specs.Nets.{client_name};

use filter_text::Command;
use filter_values::Name;
use std::marker::Model;

/// A client of a net.
#[derive(Drop)]
pub struct Client {
    /// Its name, which no other client has.
    pub name: Name,
    /// The server at which it lives, from 1.
    pub home: u32,
    /// How many barriers its script has.
    pub barriers: u32,
    /// Its commands in order, each with its phase: how many barriers stand before it.
    pub script: Vec<(u32, Command)>,
}

impl Model for Client {
    ghost use Rattle.net_model.specs.Parts.{ClientParts, client_parts};

    ghost Value = { ClientParts };

    ghost view = { λ c. client_parts c.name c.home c.barriers c.script.items };
}

/// The name of a client by its number, from 1; no byte where there is no such client.
pub fn client_name(clients: &[Client], number: u32) -> &[u8]
    ensures { result.now ≡ client_name clients.now number }
{
    let Some(place) = number.checked_sub(1) else {
        return &[];
    };
    match clients.get(place as usize) {
        Some(client) => client.name.bytes(),
        None => &[],
    }
}
