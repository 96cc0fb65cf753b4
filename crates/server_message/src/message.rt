//! The type of a message, by the numbers of a run.
ghost use Rattle.std.specs.Prelude.{◌≡◌};
ghost use Rattle.server_message.specs.Parts.{message_parts};
ghost use Rattle.server_message.specs.Message.{IsLoad, represented};

use crate::load::Load;
use net_tables::Tables;
use std::marker::Model;

/// What goes over a link. Contracts see the net whose run it is in, and the message that its numbers represent there.
#[derive(Drop)]
pub struct Message<'a> {
    tables: &'a Tables<'a>,
    load: Load,
}

impl<'a> Model for Message<'a> {
    ghost use Rattle.server_message.specs.Parts.{MessageParts, message_parts};
    ghost use Rattle.server_message.specs.Message.{represented, IsLoad};

    ghost Value = { MessageParts };

    ghost view = { λ m. message_parts m.tables.now (represented m.tables.now m.load) };

    ghost invariant = { λ m. IsLoad m.tables.now m.load };
}

impl<'a> Message<'a> {
    /// The message that carries this in the run of these tables. It takes no memory.
    pub fn of(tables: &'a Tables<'a>, load: Load) -> Message<'a>
        requires { IsLoad tables.now load }
        ensures { result ≡ message_parts tables.now (represented tables.now load) }
    {
        Message { tables, load }
    }

    /// What it carries.
    pub fn load(&self) -> &Load
        ensures load { IsLoad self.now.net result.now }
        ensures represents { self.now.message ≡ represented self.now.net result.now }
    {
        &self.load
    }
}

impl<'a> Message<'a> {
    /// What it carries, without its tables.
    pub fn into_load(self) -> Load
        ensures load { IsLoad self.entry.net result }
        ensures represents { self.entry.message ≡ represented self.entry.net result }
    {
        self.load
    }
}

/// A message that a step sends, with the neighbour that it goes to.
#[derive(Drop)]
pub struct Sending<'a> {
    /// The neighbour.
    pub to: u32,
    /// The message.
    pub message: Message<'a>,
}

impl<'a> Model for Sending<'a> {
    ghost use Rattle.server_message.specs.Parts.{SendingParts, sending_parts};

    ghost Value = { SendingParts };

    ghost view = { λ s. sending_parts s.to s.message };
}
