//! The trait of a server at its place in a network.
ghost use Rattle.std.specs.Prelude.{◌≡◌, ◌<◌, ◌^◌, ◌↔◌, [], not, length, IfOk, OnErr, IsTrue};
ghost use Rattle.base.specs.Sets.{Has};
ghost use Rattle.law_machine.specs.Machine.{Does, Receives};
ghost use Rattle.law_routing.specs.Step.{NextCommand, TableUpdate};
ghost use Rattle.server_spec.specs.Session.{SessionParts};
ghost use Rattle.net_inbox.specs.Inbox.{at_numbers};
ghost use Rattle.net_tables.specs.Found.{known_deliveries};
ghost use Rattle.server_core.specs.Clients.{client_numbers};
ghost use Rattle.server_core.specs.Core.{without_inbox};
ghost use Rattle.server_core.specs.Pending.{is_some_there};
ghost use Rattle.server_core.specs.Step.{last_stamp};
ghost use Rattle.sequential_network.specs.Stepping.{IsSome, GoesOn, greatest_clock};

use crate::stamped_message::StampedMessage;
use base::NoMemory;
use server_core::Step;
use std::alloc::Global;

/// A server at its place in a network, of some kind: it makes steps one by one. After a fault it is as before.
pub trait Server<'a>: Drop {
    ghost use Rattle.sequential_network.specs.Stepping.{Stepping};

    /// What it is to its network.
    ghost stepping: { Stepping Self };

    /// Executes the next command of a client that lives here and has one left.
    fn command(&mut self, alloc: Global, client: u32) -> Result<Step<'a>, NoMemory>
        requires lives { Has client (client_numbers (stepping.core self.old).clients) }
        requires left { (s : SessionParts) → Has s (stepping.core self.old).clients → s.client ≡ client → s.taken < length s.script }
        requires stands { IsSome stepping self.old }
        requires low { (stepping.core self.old).clock < last_stamp }
        ensures step { IfOk result (λ s. stepping.Steps (Does (NextCommand client)) 0 self.old self.new s.stamp s.sent.items) }
        ensures sends { IfOk result (λ s. GoesOn (stepping.core self.old).control.links s.stamp s.sent.items) }
        ensures err { OnErr result (self.new ≡ self.old) };

    /// Receives a message that a neighbour sent.
    fn take(
        &mut self,
        alloc: Global,
        from: u32,
        waiting: &StampedMessage<'a>,
    ) -> Result<Step<'a>, NoMemory>
        requires from { Has from (stepping.core self.old).control.links }
        requires stands { IsSome stepping self.old }
        requires low { ((stepping.core self.old).clock < last_stamp) × (waiting.now.stamp < last_stamp) }
        requires run { waiting.now.sent.net ≡ (stepping.core self.old).net }
        ensures step { IfOk result (λ s. stepping.Steps (Receives from waiting.now.sent.message) waiting.now.stamp self.old self.new s.stamp s.sent.items) }
        ensures sends { IfOk result (λ s. GoesOn (stepping.core self.old).control.links s.stamp s.sent.items) }
        ensures err { OnErr result (self.new ≡ self.old) };

    /// Installs what is pending; the answer is the stamp. It takes no memory.
    fn update_table(&mut self) -> u64
        requires some { ((stepping.core self.old).pending ≡ []) → ⊥ }
        requires stands { IsSome stepping self.old }
        requires low { (stepping.core self.old).clock < last_stamp }
        ensures { stepping.Steps (Does TableUpdate) 0 self.old self.new result [] };

    /// Its clock.
    fn clock(&self) -> u64
        ensures clock { result ≡ (stepping.core self.now).clock }
        ensures low { result < 2 ^ 62 };

    /// Whether it has nothing pending.
    fn is_calm(&self) -> bool
        ensures pending { IsTrue result ↔ ((stepping.core self.now).pending ≡ []) }
        ensures calm { result ≡ not (is_some_there (stepping.core self.now).pending) };

    /// Hands on the numbers of what was delivered to a client that lives here, whose inbox is empty then.
    fn take_inbox(&mut self, client: u32) -> Vec<u32>
        requires { Has client (client_numbers (stepping.core self.old).clients) }
        ensures inbox { (s : SessionParts) → Has s (stepping.core self.old).clients → s.client ≡ client
            → at_numbers (known_deliveries (stepping.core self.old).net.clients) result.items ≡ s.inbox }
        ensures emptied { stepping.core self.new ≡ without_inbox client (stepping.core self.old) };
}

/// The greatest clock of these servers.
pub fn greatest_clock<'a, P: Server<'a>>(places: &[P]) -> u64
    ensures greatest { result ≡ greatest_clock P.stepping places.now }
    ensures low { result < 2 ^ 62 }
{
    let mut greatest = 0;
    for place in places {
        greatest = place.clock().max(greatest);
    }
    greatest
}
