//! The type of the first word of a command, found by its name.
ghost use Rattle.std.specs.Prelude.{◌≡◌};
ghost use Rattle.document_script.specs.Form.{verb_named};

use crate::same::is_same;

/// The first word of a command: what a client asks of its server.
#[derive(Clone, Copy, Debug, PartialEq, Eq)]
pub enum Verb {
    /// `subscribe`: add a filter.
    Subscribe,
    /// `unsubscribe`: withdraw the filters that one covers.
    Unsubscribe,
    /// `advertise`: add an advertisement.
    Advertise,
    /// `unadvertise`: withdraw the advertisements that one covers.
    Unadvertise,
    /// `publish`: publish a notice.
    Publish,
}

/// The command that this is the first word of.
pub fn verb_named(word: &[u8]) -> Option<Verb>
    ensures { result ≡ verb_named word.now }
{
    if is_same(word, b"subscribe") {
        Some(Verb::Subscribe)
    } else if is_same(word, b"unsubscribe") {
        Some(Verb::Unsubscribe)
    } else if is_same(word, b"advertise") {
        Some(Verb::Advertise)
    } else if is_same(word, b"unadvertise") {
        Some(Verb::Unadvertise)
    } else if is_same(word, b"publish") {
        Some(Verb::Publish)
    } else {
        None
    }
}
