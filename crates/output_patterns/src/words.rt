//! Reads the words of a line `pattern`.
ghost use Rattle.std.specs.Prelude.{◌≡◌, ◌≤◌, ◌<◌, None, Some, MatchOption, IfSome, length};
ghost use Rattle.std.specs.List.{position};
ghost use Rattle.filter_values.specs.Name.{IsName};
ghost use Rattle.document_reader.specs.Lines.{words};
ghost use Rattle.output_patterns.specs.Parts.{client_named, has_name};
ghost use Rattle.output_patterns.specs.Rules.{two_names};

use document_reader::two;
use filter_values::is_name;
use net_model::Client;

/// The two names of the rest of a line.
#[tactic(auto, unfolding(crate::specs::Rules::two_names))]
pub fn two_names(rest: &[u8]) -> Option<(&[u8], &[u8])>
    ensures two { MatchOption result (two_names (words rest.now) ≡ None) (λ r. two_names (words rest.now) ≡ Some (r.0.now, r.1.now)) }
    ensures names { IfSome result (λ r. IsName r.0.now × IsName r.1.now) }
{
    let Some((a, b)) = two(rest) else {
        return None;
    };
    if is_name(a) && is_name(b) {
        Some((a, b))
    } else {
        None
    }
}

fn has_name(client: &Client, name: &[u8]) -> bool
    ensures { result ≡ has_name name.now client.now }
{
    client.name.bytes() == name
}

// The place of the client with this name, from 0.
#[tactic(auto, using(crate::proofs::Labels::place_within))]
fn place_of(clients: &[Client], name: &[u8]) -> Option<usize>
    ensures value { result ≡ position (has_name name.now) clients.now }
    ensures within { IfSome result (λ place. place < length clients.now) }
{
    clients.iter().position(|client| has_name(client, name))
}

/// The number of the client with this name, of at most 1,024 clients.
#[tactic(auto, unfolding(crate::specs::Parts::client_named))]
pub fn client_named(clients: &[Client], name: &[u8]) -> Option<u32>
    requires { length clients.now ≤ 1024 }
    ensures { result ≡ client_named name.now clients.now }
{
    match place_of(clients, name) {
        Some(place) => Some(place as u32 + 1),
        None => None,
    }
}
