//! Cuts a client's script at a phase.
ghost use Rattle.std.specs.Prelude.{◌≡◌, ◌≤◌, ◌+◌, ◌<◌, ◌^◌, length};
ghost use Rattle.output_flood.specs.Held.{below, before, within};

use filter_text::Command;

/// A client's commands before a phase, and those of the phase.
#[derive(Clone, Copy)]
pub(crate) struct Cut<'a> {
    pub before: &'a [(u32, Command)],
    pub within: &'a [(u32, Command)],
}

// How many commands are of phases below one.
fn below(script: &[(u32, Command)], phase: u64) -> usize
    ensures count { result ≡ below phase script.now }
    ensures within { result ≤ length script.now }
{
    let mut count = 0;
    for (of_command, _) in script {
        if u64::from(*of_command) < phase {
            count += 1;
        }
    }
    count
}

/// A script cut at a phase.
#[tactic(auto, using(output_flood::proofs::Below::below_rises))]
pub(crate) fn cut_at(script: &[(u32, Command)], phase: u32) -> Cut<'_>
    ensures before { result.before.now ≡ before phase script.now }
    ensures within { result.within.now ≡ within phase script.now }
    ensures fits { length result.before.now + length result.within.now < 2 ^ 64 }
{
    let from = below(script, u64::from(phase));
    let upto = below(script, u64::from(phase) + 1);
    Cut {
        before: &script[..from],
        within: &script[from..upto],
    }
}
