//! The type of a publication in a catalogue.
use filter_text::Id;
use filter_types::Notice;
use std::marker::Model;

/// A publish of a client, be it accepted or refused in a run.
#[derive(Drop)]
pub struct Publication {
    /// Its publisher, numbered from 1, and its ordinal among the publisher's publishes, from 1.
    pub id: Id,
    /// Its phase.
    pub phase: u32,
    /// Its notice, which shares its attributes with that of the script.
    pub notice: Notice,
}

impl Model for Publication {
    ghost use Rattle.net_tables.specs.Known.{PublicationParts, publication};

    ghost Value = { PublicationParts };

    ghost view = { λ p. publication p.id.publisher p.id.ordinal p.phase p.notice };
}
