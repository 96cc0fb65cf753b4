//! The type of a client as the lines so far define it.
use net_model::Client;

/// A client with its script so far, and whether it has one yet.
#[derive(Drop)]
pub struct Draft {
    pub client: Client,
    pub has_script: bool,
}
