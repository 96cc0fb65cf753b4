//! A client's script by phases, and its advertisements within one.
ghost use Rattle.std.specs.Prelude.{◌≡◌, ◌≤◌, length, IfOk};
ghost use Rattle.output_flood.specs.Held.{below, before, within, every_adverts};
ghost use Rattle.output_flood.specs.Lasting.{AreClientAdverts};

use crate::adverts;
use base::NoMemory;
use filter_text::Command;
use filter_types::Advert;
use std::alloc::Global;

/// A client's advertisements at every moment of a phase.
#[derive(Drop)]
pub(crate) struct PhaseAdverts {
    pub phase: u32,
    pub every: Vec<Advert>,
}

/// How many commands are of phases below one.
pub(crate) fn below<C>(script: &[(u32, C)], phase: u64) -> usize
    ensures count { result ≡ below phase script.now }
    ensures within { result ≤ length script.now }
{
    let mut count = 0;
    for (of_command, _) in script {
        if u64::from(*of_command) < phase {
            count += 1;
        }
    }
    count
}

// The commands before a phase.
fn before<C>(script: &[(u32, C)], phase: u32) -> &[(u32, C)]
    ensures { result.now ≡ before phase script.now }
{
    &script[..below(script, u64::from(phase))]
}

/// The commands of a phase.
#[tactic(auto, using(crate::proofs::Below::below_rises))]
pub(crate) fn within<C>(script: &[(u32, C)], phase: u32) -> &[(u32, C)]
    ensures { result.now ≡ within phase script.now }
{
    let from = below(script, u64::from(phase));
    let upto = below(script, u64::from(phase) + 1);
    &script[from..upto]
}

/// The advertisements of a client at every moment of a phase.
#[tactic(auto, unfolding(crate::specs::Held::every_adverts))]
pub(crate) fn adverts(
    alloc: Global,
    script: &[(u32, Command)],
    phase: u32,
) -> Result<PhaseAdverts, NoMemory>
    ensures phase { IfOk result (λ lists. lists.phase ≡ phase) }
    ensures every { IfOk result (λ lists. lists.every.items ≡ every_adverts phase script.now) }
{
    let held = adverts::held(alloc, before(script, phase))?;
    let every = adverts::lasting(alloc, &held, within(script, phase))?;
    Ok(PhaseAdverts { phase, every })
}

/// The same where those of some phase are at hand.
pub(crate) fn renewed_adverts(
    alloc: Global,
    lists: PhaseAdverts,
    script: &[(u32, Command)],
    phase: u32,
) -> Result<PhaseAdverts, NoMemory>
    requires { AreClientAdverts script.now lists }
    ensures phase { IfOk result (λ lists. lists.phase ≡ phase) }
    ensures lists { IfOk result (AreClientAdverts script.now) }
{
    if lists.phase == phase {
        return Ok(lists);
    }
    adverts(alloc, script, phase)
}
