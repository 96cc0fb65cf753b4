//! The rule of what is installed: each version is the fold of a beginning of the history, and each place that names a book
//! names that of this history, and the width that all versions have.
use crate::version::{Step, Version};
use atomic_table::{Join, Split};
use crossbeam_utils::rule::{Outcome, Protocol};
use left_right::reader::Reader;
use left_right::writer::Writer;

/// What a place knows: the book of the history, once it is named, and how often it showed a version. No value of it is made.
pub struct View {
    /// Whether it names a book.
    pub named: bool,
    /// The book's number.
    pub number: u64,
    /// The name of its log.
    pub log_name: u64,
    /// The name of its cells.
    pub cells_name: u64,
    /// Below which number all installed numbers are.
    pub width: u64,
    /// How often this place showed a version. `Shows` alone counts, one for each step at which the versions turn.
    pub shows: u64,
}

/// The rule.
pub struct Installed;

impl Protocol<Version, View> for Installed {
    ghost use Rattle.thread_versions.specs.Chain.{KeepsViews, nobody};

    ghost holds = { KeepsViews };

    ghost first = { nobody };
}

/// A viewer enters.
pub struct Sees;

impl Outcome<Version, View> for Sees {
    ghost use Rattle.thread_versions.specs.Chain.{Sighted};

    ghost then = { λ v x y w. Sighted v x w };
}

/// The publisher makes a table update.
pub struct Shows;

impl Outcome<Version, View> for Shows {
    ghost use Rattle.thread_versions.specs.Chain.{ShownView};

    ghost then = { λ v x y w. ShownView v y w };
}

/// The publisher hands a viewer the book, and the viewer keeps it.
pub struct Notes;

impl Split<View> for Notes {
    ghost left = { λ v. v };

    ghost right = { λ v. v };
}

impl Join<View> for Notes {
    ghost use Rattle.thread_versions.specs.Chain.{nobody};

    ghost both = { λ v w. w };

    ghost spent = { nobody };
}

/// A viewer's place.
pub type VersionReader = Reader<Version, View, Installed>;

/// The publisher's place.
pub type VersionWriter = Writer<Version, Step, View, Installed>;
