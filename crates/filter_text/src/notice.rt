//! Reads and writes the text of a notification.
ghost use Rattle.std.specs.Prelude.{◌≡◌, ◌++◌, List, [], IfOk, OnOk, IsErrOf};
ghost use Rattle.filter_types.specs.Notice.{Attribute, IsNotice};
ghost use Rattle.filter_text.specs.Reading.{Gives, Reads};
ghost use Rattle.filter_text.specs.NoticeText.{IsNoticeText, attribute_text, later, notice_text};
ghost use Rattle.filter_text.specs.Values.{attribute_at};
ghost use Rattle.filter_text.specs.Items.{items_at};
ghost use Rattle.filter_text.specs.Notices.{notice_of};

use crate::fault::WireFault;
use crate::reader::Reader;
use crate::value::push_attribute;
use base::NoMemory;
use filter_types::Notice;
use filter_values::{Name, Value};
use std::alloc::Global;

impl<'a> Reader<'a> {
    /// All that is left, as a notice.
    #[tactic(auto, unfolding(crate::specs::Notices::notice_of))]
    pub fn notice(&mut self, alloc: Global) -> Result<Notice, WireFault>
        ensures { Gives (λ n. n) result (notice_of self.old.rest.now) }
    {
        let attributes = self.joined(alloc, 64)?;
        if !self.rest.is_empty() {
            return Err(WireFault::Outside);
        }
        match Notice::of_rising(attributes)? {
            Some(notice) => Ok(notice),
            None => Err(WireFault::Outside),
        }
    }
}

/// The notice whose text the bytes are; `Outside` where they are the text of no notice.
#[tactic(auto, using(crate::proofs::NoticeLaws::notice_found, crate::proofs::NoticeLaws::notice_outside))]
pub fn read_notice(alloc: Global, bytes: &[u8]) -> Result<Notice, WireFault>
    ensures found { IfOk result (λ n. IsNoticeText bytes.now n) }
    ensures outside { IsErrOf result WireFault.Outside → (n : List Attribute) → IsNoticeText bytes.now n → ⊥ }
{
    Reader::new(bytes).notice(alloc)
}

fn push_later(out: &mut Vec<u8>, rest: &[(Name, Value)]) -> Result<(), NoMemory>
    ensures { OnOk result (out.new.items ≡ out.old.items ++ later attribute_text rest.now) }
{
    for attribute in rest {
        out.extend_from_slice(b"; ")?;
        push_attribute(out, attribute)?;
    }
    Ok(())
}

/// Puts the text of a notice at the end.
#[tactic(auto, unfolding(crate::specs::NoticeText::notice_text))]
pub fn push_notice(out: &mut Vec<u8>, notice: &Notice) -> Result<(), NoMemory>
    ensures text { OnOk result (out.new.items ≡ out.old.items ++ notice_text notice.now) }
    ensures whole { OnOk result (IsNotice notice.now) }
{
    let [first, rest @ ..] = notice.attributes() else {
        return Ok(());
    };
    push_attribute(out, first)?;
    push_later(out, rest)
}

/// The text of a notice.
pub fn write_notice(alloc: Global, notice: &Notice) -> Result<Vec<u8>, NoMemory>
    ensures { IfOk result (λ v. IsNoticeText v.items notice.now) }
{
    let mut out = Vec::new(alloc);
    push_notice(&mut out, notice)?;
    Ok(out)
}
