//! Makes the network of a hierarchy that of `sequential_network` over servers of this kind.
use crate::forwarding_server::ForwardingServer;
use sequential_network::RuledNetwork;

/// The servers and links of a net with server 1 at its top, and the journal of what was done: whatever turns it is asked for, a
/// legal run of a hierarchy, over the tree of phase 0.
pub type HierNetwork<'a, K> = RuledNetwork<'a, ForwardingServer<'a>, K>;
