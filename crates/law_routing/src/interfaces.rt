//! How a server numbers its interfaces: a neighbour's has the neighbour's number, and a client's lies above those of all neighbours.

ghost use Rattle.std.specs.Prelude.{◌≡◌, ◌<◌, ◌+◌, ◌-◌, ◌^◌};
ghost use Rattle.law_routing.specs.Server.{client_interface, is_link};

/// The greatest number that a neighbour's interface has at a server, since a net has at most this many servers.
pub const LAST_LINK: u32 = 64;

/// The interface of a client, by the client's number from 1.
pub fn interface_of(client: u32) -> u32
    requires { 64 + client < 2 ^ 32 }
    ensures { result ≡ client_interface client }
{
    LAST_LINK + client
}

/// The client that an interface belongs to, which is not a neighbour's.
pub fn client_of(interface: u32) -> u32
    requires { 64 < interface }
    ensures { result ≡ interface - 64 }
{
    interface - LAST_LINK
}

/// Whether an interface is a neighbour's.
pub fn is_link(interface: u32) -> bool
    ensures { result ≡ is_link interface }
{
    interface <= LAST_LINK
}
