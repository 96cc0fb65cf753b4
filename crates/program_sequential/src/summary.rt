//! Makes the text that says how much a run did.
ghost use Rattle.std.specs.Prelude.{◌≡◌, ◌≤◌, true, IfOk};
ghost use Rattle.net_model.specs.Sound.{IsSound};
ghost use Rattle.program_sequential.specs.Printed.{total, messages_in, summary_of};
ghost use Rattle.program_sequential.specs.Ran.{IsCollected};

use base::NoMemory;
use filter_text::Lists;
use net_journal::Ran;
use net_model::{Entry, Net};
use output_report::{count_commands, summary_text, total_received, total_refused};
use std::alloc::Global;

// How many messages the entries of a journal put on links.
fn messages(journal: &[Entry]) -> u128
    ensures { result ≡ messages_in journal.now }
{
    let mut count = 0;
    for entry in journal {
        count += entry.outs.len() as u128;
    }
    count
}

/// The summary of a run that took all commands.
pub fn run_summary(alloc: Global, net: &Net, ran: &Ran) -> Result<Vec<u8>, NoMemory>
    requires sound { IsSound net.now }
    requires collected { IsCollected net.now ran.now }
    requires kept { ran.now.journal.kept ≡ true }
    ensures { IfOk result (λ text. text.items ≡ summary_of net.now ran.now.journal.entries) }
{
    let refused = total_refused(&ran.refused);
    let received = total_received(&ran.received);
    let journal = ran.journal.entries();
    let messages = messages(journal);
    let accepted = u128::from(count_commands(&net.clients).publishes).saturating_sub(refused);
    summary_text(alloc, accepted, received, journal.len() as u64, messages)
}
