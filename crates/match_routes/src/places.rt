//! Finds the place of an interface in the list of a server's interfaces.
ghost use Rattle.std.specs.Prelude.{◌≡◌, ◌<◌, ◌↔◌, ℕ, nat_lt, true, length, slice_index_or};
ghost use Rattle.base.specs.Sets.{Has, IsRising};

/// The place of an interface among rising ones.
pub(crate) fn place(interfaces: &[u32], interface: u32) -> usize
    requires rising { IsRising nat_lt interfaces.now }
    requires there { Has interface interfaces.now }
    ensures within { result < length interfaces.now }
    ensures here { slice_index_or interfaces.now result 0 ≡ interface }
{
    interfaces.binary_search(&interface).ok().unwrap()
}

/// Whether interfaces rise.
pub fn is_rising(interfaces: &[u32]) -> bool
    ensures { result ≡ true → IsRising nat_lt interfaces.now }
{
    for i in 1..interfaces.len() {
        if interfaces[i - 1] >= interfaces[i] {
            return false;
        }
    }
    true
}

/// Whether an interface is one of rising ones.
pub(crate) fn is_there(interfaces: &[u32], interface: u32) -> bool
    requires { IsRising nat_lt interfaces.now }
    ensures { result ≡ true → Has interface interfaces.now }
{
    interfaces.binary_search(&interface).is_ok()
}

/// The interfaces at these places, which rise.
pub(crate) fn at_places(interfaces: &[u32], places: Vec<u32>) -> Vec<u32>
    requires interfaces { IsRising nat_lt interfaces.now }
    requires places { IsRising nat_lt places.items }
    requires within { (place : ℕ) → Has place places.items → place < length interfaces.now }
    ensures rising { IsRising nat_lt result.items }
    ensures exact { (k : ℕ) → Has k result.items
        ↔ ((place : ℕ) × Has place places.items × (slice_index_or interfaces.now place 0 ≡ k)) }
{
    let mut route = places;
    for k in 0..route.len() {
        route[k] = interfaces[route[k] as usize];
    }
    route
}
