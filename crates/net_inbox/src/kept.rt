//! The type of a delivery as it stands in memory: as the line that is printed of it.
ghost use Rattle.std.specs.Prelude.{◌≡◌, ◌++◌, codes, IfOk, OnOk};
ghost use Rattle.std.specs.Fmt.{decimal};
ghost use Rattle.net_inbox.specs.Inbox.{delivery};

use base::{NoMemory, push_number};
use filter_text::Id;
use std::alloc::Global;
use std::marker::Model;

/// The word of the line, with its space.
const WORD: &[u8] = b"deliver ";

/// How many bytes a line has at most besides the name and the text: the word, the ordinal, two spaces and the newline.
const MORE: usize = 21;

/// The id of a publication, and the line `deliver PUBLISHER ORDINAL NOTICE` with the name of its publisher and the text of its
/// notice.
#[derive(Drop)]
pub(crate) struct Kept {
    id: Id,
    line: Vec<u8>,
    /// Where the name ends in the line.
    name_end: usize,
    /// Where the text begins in the line.
    text_start: usize,
}

impl Model for Kept {
    ghost use Rattle.filter_text.specs.Deliveries.{Delivery as DeliveryParts};
    ghost use Rattle.net_inbox.specs.Lines.{kept_delivery, IsKept};

    ghost Value = { DeliveryParts };

    ghost view = { λ k. kept_delivery k.id k.line.items k.text_start };

    ghost invariant = { λ k. IsKept k.id k.line.items k.name_end k.text_start };
}

/// Puts the word and the name at the end.
fn push_name(line: &mut Vec<u8>, name: &[u8]) -> Result<(), NoMemory>
    ensures { OnOk result (line.new.items ≡ line.old.items ++ codes "deliver " ++ name.now) }
{
    line.extend_from_slice(WORD)?;
    line.extend_from_slice(name)?;
    Ok(())
}

/// Puts the ordinal at the end, between spaces.
fn push_ordinal(line: &mut Vec<u8>, ordinal: u32) -> Result<(), NoMemory>
    ensures { OnOk result (line.new.items ≡ line.old.items ++ codes " " ++ decimal ordinal ++ codes " ") }
{
    line.extend_from_slice(b" ")?;
    push_number(line, u64::from(ordinal))?;
    line.extend_from_slice(b" ")?;
    Ok(())
}

/// Puts the text and the newline at the end.
fn push_text(line: &mut Vec<u8>, bytes: &[u8]) -> Result<(), NoMemory>
    ensures { OnOk result (line.new.items ≡ line.old.items ++ bytes.now ++ codes "\n") }
{
    line.extend_from_slice(bytes)?;
    line.extend_from_slice(b"\n")?;
    Ok(())
}

impl Kept {
    ghost use Rattle.std.specs.Prelude.{◌≡◌, IfSome};
    ghost use Rattle.net_inbox.specs.Inbox.{named_line};

    /// A publication with the name of its publisher and the text of its notice.
    pub(crate) fn of(alloc: Global, id: Id, name: &[u8], bytes: &[u8]) -> Result<Kept, NoMemory>
        ensures { IfOk result (λ kept. kept ≡ delivery id bytes.now) }
    {
        let most = bytes.len().saturating_add(name.len());
        let mut line = Vec::with_capacity(alloc, most.saturating_add(MORE))?;
        push_name(&mut line, name)?;
        let name_end = line.len();
        push_ordinal(&mut line, id.ordinal)?;
        let text_start = line.len();
        push_text(&mut line, bytes)?;
        Ok(Kept {
            id,
            line,
            name_end,
            text_start,
        })
    }

    /// The id of the publication.
    pub(crate) fn id(&self) -> Id
        ensures { result ≡ self.now.id }
    {
        self.id
    }

    /// The text of its notice.
    pub(crate) fn bytes(&self) -> &[u8]
        ensures { result.now ≡ self.now.bytes }
    {
        &self.line[self.text_start..self.line.len() - 1]
    }

    /// The line, where its publisher has this name.
    pub(crate) fn line(&self, name: &[u8]) -> Option<&[u8]>
        ensures { IfSome result (λ line. line.now ≡ named_line name.now self.now) }
    {
        if &self.line[WORD.len()..self.name_end] != name {
            return None;
        }
        Some(&self.line)
    }
}
