//! Makes the viewers beside a publisher.
ghost use Rattle.std.specs.Prelude.{◌≡◌, List, length, All, IfOk};
ghost use Rattle.left_right.specs.Sides.{view};
ghost use Rattle.thread_versions.specs.Chain.{IsNamedBy, nobody};
ghost use Rattle.thread_versions.specs.Ends.{width_of};

use crate::front::Front;
use crate::rule::{Notes, VersionReader, VersionWriter};
use crate::viewer::Viewer;
use base::NoMemory;
use std::alloc::Global;
use std::sync::Wait;

/// A reader in a place of its own. It takes no memory. The writer has a place for each viewer; where none is found free, it asks
/// again.
fn place<R: Wait>(rt: &R, writer: &VersionWriter) -> VersionReader
    ensures view { view result.place ≡ nobody }
    ensures table { result.place.table_id ≡ writer.now.desk.place.table_id }
{
    for _ in rt.forever() {
        if let Ok(reader) = writer.factory().reader() {
            return reader;
        }
    }
    unreachable!()
}

/// A viewer that has seen this front.
fn seat<R: Wait>(rt: &R, writer: &mut VersionWriter, front: &Front) -> Viewer
    requires { IsNamedBy front.now.seen.book (view writer.old.desk.place).width (view writer.old.desk.place) }
    ensures shown { writer.new.desk.shown ≡ writer.old.desk.shown }
    ensures log { (writer.new.log ≡ writer.old.log) × (writer.new.behind ≡ writer.old.behind) }
    ensures told { view writer.new.desk.place ≡ view writer.old.desk.place }
    ensures seen { result.front.seen ≡ front.now.seen }
    ensures width { width_of result ≡ (view writer.old.desk.place).width }
{
    let mut reader = place(rt, writer);
    reader.learn::<Notes>(writer.tell::<Notes>());
    Viewer {
        reader,
        front: front.again(),
    }
}

/// So many viewers that have seen this front.
pub fn seats<R: Wait>(
    alloc: Global,
    rt: &R,
    writer: &mut VersionWriter,
    front: &Front,
    count: usize,
) -> Result<Vec<Viewer>, NoMemory>
    requires { IsNamedBy front.now.seen.book (view writer.old.desk.place).width (view writer.old.desk.place) }
    ensures shown { writer.new.desk.shown ≡ writer.old.desk.shown }
    ensures log { (writer.new.log ≡ writer.old.log) × (writer.new.behind ≡ writer.old.behind) }
    ensures told { view writer.new.desk.place ≡ view writer.old.desk.place }
    ensures viewers { IfOk result (λ vs. (length vs.items ≡ count)
        × All (λ v. (v.front.seen ≡ front.now.seen) × (width_of v ≡ (view writer.old.desk.place).width)) vs.items) }
{
    let mut viewers = Vec::new(alloc);
    for _ in 0..count {
        viewers.push(seat(rt, writer, front))?;
    }
    Ok(viewers)
}
