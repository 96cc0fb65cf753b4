//! What the words of `explain` ask about: one publication, or a client alone.
use crate::question::Question;
use std::marker::Model;

/// The name of a client, of whom is asked what comes to it. Contracts see the name.
#[derive(Drop)]
pub struct ClientName<'w> {
    name: &'w [u8],
}

impl<'w> Model for ClientName<'w> {
    ghost use Rattle.std.specs.Prelude.{ℕ, List};

    ghost Value = { List ℕ };

    ghost view = { λ c. c.name.now };
}

impl<'w> ClientName<'w> {
    ghost use Rattle.std.specs.Prelude.{◌≡◌};

    /// The client of this name.
    pub fn of(name: &'w [u8]) -> ClientName<'w>
        ensures { result ≡ name.now }
    {
        ClientName { name }
    }

    /// The name.
    pub fn bytes(&self) -> &'w [u8]
        ensures { result.now ≡ self.now }
    {
        self.name
    }
}

/// What is to be explained.
#[derive(Drop)]
pub enum Subject<'w> {
    /// What a client gets of one publication.
    Publication(Question<'w>),
    /// What comes to a client of all publications.
    Client(ClientName<'w>),
}
