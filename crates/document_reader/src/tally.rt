//! How many commands a document has, and the bytes of their lines.
ghost use Rattle.std.specs.Prelude.{◌≡◌, ◌≤◌};
ghost use Rattle.document_reader.specs.Answer.{StepsByRule};
ghost use Rattle.document_reader.specs.Tally.{control_rule, no_counts, publish_rule};

use crate::answer::need;
use crate::fault::{Fault, Ruled};
use std::marker::Model;

const MOST_CONTROLS: u64 = 4096;

const MOST_PUBLICATIONS: u64 = 100_000;

const MOST_CONTROL: u64 = 2_147_483_648;

const MOST_NOTICE: u64 = 268_435_456;

/// What the commands so far take; contracts see the counts.
#[derive(Debug, Drop)]
pub struct Tally {
    controls: u64,
    withdrawals: u64,
    control_bytes: u64,
    publications: u64,
    publish_bytes: u64,
}

impl Model for Tally {
    ghost use Rattle.document_reader.specs.Tally.{AreSmall, CommandCounts, counts};

    ghost Value = { CommandCounts };

    ghost view = { λ t. counts t.controls t.withdrawals t.control_bytes t.publications t.publish_bytes };

    ghost invariant = { λ t. AreSmall (counts t.controls t.withdrawals t.control_bytes t.publications t.publish_bytes) };
}

impl Tally {
    /// No command.
    pub fn new() -> Tally
        ensures { result ≡ no_counts }
    {
        Tally {
            controls: 0,
            withdrawals: 0,
            control_bytes: 0,
            publications: 0,
            publish_bytes: 0,
        }
    }

    /// One control command more, on a line of so many bytes, if that is within the limits.
    #[tactic(auto, unfolding(crate::specs::Tally::control_rule))]
    pub fn add_control(&mut self, withdraws: bool, bytes: u64, servers: u64) -> Ruled<()>
        requires short { bytes ≤ 4194304 }
        requires few { servers ≤ 64 }
        ensures { StepsByRule result self.new (control_rule self.old withdraws bytes servers) }
    {
        need(self.controls < MOST_CONTROLS, Fault::Commands)?;
        let withdrawals = if withdraws {
            self.withdrawals + 1
        } else {
            self.withdrawals
        };
        let sum = self.control_bytes + bytes;
        need(
            (1 + withdrawals) * sum * servers <= MOST_CONTROL,
            Fault::MuchControl,
        )?;
        self.controls += 1;
        self.withdrawals = withdrawals;
        self.control_bytes = sum;
        Ok(())
    }

    /// One publish command more, on a line of so many bytes, if that is within the limits.
    #[tactic(auto, unfolding(crate::specs::Tally::publish_rule))]
    pub fn add_publish(&mut self, bytes: u64, clients: u64) -> Ruled<()>
        requires short { bytes ≤ 4194304 }
        requires few { clients ≤ 1024 }
        ensures { StepsByRule result self.new (publish_rule self.old bytes clients) }
    {
        need(self.publications < MOST_PUBLICATIONS, Fault::Publications)?;
        let sum = self.publish_bytes + bytes;
        need(sum * clients <= MOST_NOTICE, Fault::MuchNotice)?;
        self.publications += 1;
        self.publish_bytes = sum;
        Ok(())
    }
}
