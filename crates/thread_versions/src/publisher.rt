//! The type of the publisher, which alone changes the forwarding table.
ghost use Rattle.std.specs.Prelude.{◌≡◌, ◌++◌, [], true, drop};
ghost use Rattle.thread_versions.specs.Pairs.{all_known};
ghost use Rattle.thread_versions.specs.Chain.{IsFolded};

use crate::front::Front;
use crate::history::History;
use crate::rule::VersionWriter;
use match_routes::TableChange;
use std::alloc::Global;

/// Who makes changes of a server's table pending and installs them. It isn't `Drop`: end it.
///
/// Pending changes wait until a table update hands them over.
pub struct Publisher {
    pub(crate) alloc: Global,
    pub(crate) writer: VersionWriter,
    pub(crate) history: History,
    pub(crate) waiting: Vec<TableChange>,
    pub(crate) shown: Front,
    ghost book: { shown.seen.book ≡ history.book },
    ghost installed: { (writer.desk.shown.value.front.seen ≡ shown.seen) × IsFolded writer.desk.shown.value },
    ghost handed: { drop writer.behind writer.log.items ≡ [] },
    ghost pending: { history.log ≡ shown.seen.log ++ waiting.items },
    ghost known: { all_known writer.desk.shown.value.forwarding waiting.items ≡ true },
}
