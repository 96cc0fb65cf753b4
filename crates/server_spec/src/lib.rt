//! Layer: server, below net_turns.
//! Job: what a server holds, what it sends, and what a client's session does, as definitions and lemmas alone. Pure.
//! Users: net_turns, and the layers server, sequential, hierarchy, thread, output and audit.
//!
//! A server holds filters and advertisements from its neighbours and from its clients, and sends its neighbours those
//! that no other one covers (`server_control` keeps these by number, `server_core` a whole server). A client's session
//! has its lists, what its next command does, and its inbox (`server_session` keeps it by number). What each server
//! holds from each neighbour once a tree comes into force follows from the clients' sets alone (`server_flow` finds it
//! by number).
//!
//! The lemmas say that the messages of a change of a server's control are those of the net (`messages_to` of
//! `law_routing`), for a control that represents the server. `IsFlow` says what flows over a tree, and `Controlled`
//! what a control holds.
#![tactic(auto)]

mod control;
mod home;
mod planned;

pub use control::HeldLink;
pub use home::Home;
pub use planned::Planned;
