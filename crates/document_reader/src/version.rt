//! The type of the version of a document, and the word of each.
ghost use Rattle.std.specs.Prelude.{◌≡◌};
ghost use Rattle.document_script.specs.Command.{IsVersion};
ghost use Rattle.document_reader.specs.Rules.{version_named, version_number};

use document_script::is_same;

/// The version of a document.
#[derive(Clone, Copy, Debug, PartialEq, Eq)]
pub enum Version {
    /// One tree, and no times.
    One,
    /// Trees by phase, and times.
    Two,
}

impl Version {
    /// Its number.
    pub fn number(self) -> u32
        ensures value { result ≡ version_number self }
        ensures known { IsVersion result }
    {
        match self {
            Version::One => 1,
            Version::Two => 2,
        }
    }
}

/// The version of a word.
pub fn version_named(word: &[u8]) -> Option<Version>
    ensures { result ≡ version_named word.now }
{
    if is_same(word, b"1") {
        Some(Version::One)
    } else if is_same(word, b"2") {
        Some(Version::Two)
    } else {
        None
    }
}
