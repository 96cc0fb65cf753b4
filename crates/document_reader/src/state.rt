//! The type of the state of the reader between two lines of a document.
use crate::clients::Clients;
use crate::tally::Tally;
use crate::trees::Trees;
use crate::version::Version;
use filter_text::{Lists, Semantics};
use net_model::Turn;

/// Where in the document the next content line stands.
#[derive(Clone, Copy, Debug, PartialEq, Eq)]
pub enum Place {
    /// At its beginning.
    Header,
    /// Behind `siena`.
    Semantics,
    /// Behind `semantics`.
    Servers,
    /// Behind `servers`, an edge or a phase.
    Edges,
    /// Behind a client.
    Clients,
    /// In a script.
    Scripts,
    /// In the schedule.
    Schedule,
}

/// What stands so far.
#[derive(Drop)]
pub struct State {
    /// Where the next content line stands.
    pub place: Place,
    /// The version.
    pub version: Version,
    /// The semantics.
    pub semantics: Semantics,
    /// The servers and their trees.
    pub trees: Trees,
    /// The clients with their scripts.
    pub clients: Clients,
    /// The place of the client whose script is read, from 0.
    pub client: usize,
    /// What the commands take.
    pub tally: Tally,
    /// The turns, each with its line.
    pub schedule: Lists<(u32, Turn)>,
}
