//! Counts the members of lists, and writes such counts.
ghost use Rattle.std.specs.Prelude.{◌≡◌, ◌++◌, OnOk};
ghost use Rattle.std.specs.Fmt.{decimal};
ghost use Rattle.base.specs.Text.{labelled};
ghost use Rattle.output_report.specs.Counts.{total};

use base::NoMemory;
use filter_text::Lists;
use itoa::Buffer;
use net_inbox::Inbox;

/// How many publishes were refused.
pub fn total_refused(lists: &[Lists<u32>]) -> u128
    ensures { result ≡ total lists.now }
{
    let mut count = 0;
    for list in lists {
        count += list.as_slice().len() as u128;
    }
    count
}

/// How many deliveries there were.
pub fn total_received(inboxes: &[Inbox]) -> u128
    ensures { result ≡ total inboxes.now }
{
    let mut count = 0;
    for inbox in inboxes {
        count += inbox.len() as u128;
    }
    count
}

/// Puts such a count in decimal at the end.
pub fn push_total(out: &mut Vec<u8>, total: u128) -> Result<(), NoMemory>
    ensures { OnOk result (out.new.items ≡ out.old.items ++ decimal total) }
{
    let mut buffer = Buffer::new();
    out.extend_from_slice(buffer.format(total).as_bytes())?;
    Ok(())
}

/// Puts a label with such a count behind it at the end.
#[tactic(auto, unfolding(base::specs::Text::labelled))]
pub(crate) fn push_labelled_total(
    out: &mut Vec<u8>,
    label: &[u8],
    total: u128,
) -> Result<(), NoMemory>
    ensures { OnOk result (out.new.items ≡ out.old.items ++ labelled label.now total) }
{
    out.extend_from_slice(label)?;
    push_total(out, total)
}
