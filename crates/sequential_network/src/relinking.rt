//! What a server has by the tree of a phase, exchanged at its place.
ghost use Rattle.std.specs.Prelude.{◌≡◌, [], IfOk};
ghost use Rattle.server_spec.specs.Control.{subs};
ghost use Rattle.server_core.specs.Linked.{IsOnLinks, ledger_of};
ghost use Rattle.sequential_network.specs.Begin.{FitsCore, FitsWhere, IsOn, given_back, CanTake, IsExchanged};

use crate::forwarding_server::{ForwardingServer, unpublished};
use base::NoMemory;
use match_routes::Forwarding;
use server_core::Ledger;
use std::alloc::Global;
use std::marker::Model;
use std::mem;

/// What a server holds from whom, made beside its core, with its pairs by numbers; contracts see what is held.
#[derive(Drop)]
pub(crate) struct OnLinks<'a> {
    relinked: Ledger<'a>,
    forwarding: Forwarding,
}

impl<'a> Model for OnLinks<'a> {
    ghost use Rattle.server_spec.specs.Control.{subs};
    ghost use Rattle.server_core.specs.Ledger.{LedgerParts};
    ghost use Rattle.sequential_network.specs.Kept.{RepresentsForwarding};

    ghost Value = { LedgerParts };

    ghost view = { λ on. on.relinked };

    ghost invariant = { λ on. RepresentsForwarding on.relinked.net on.relinked.interfaces (subs on.relinked.control) on.forwarding };
}

/// A server's clock, and what it holds from whom where that is another than its core has.
pub struct Standing<'a> {
    pub(crate) clock: u64,
    pub(crate) links: Option<OnLinks<'a>>,
}

// A function of its own, as that of a server.
impl Drop for Standing<'_> {
    fn drop(self) {
        let Self { clock: _, links: _ } = self;
    }
}

impl<'a> OnLinks<'a> {
    /// What is held, of which nothing is installed, with all its pairs.
    pub(crate) fn of(alloc: Global, relinked: Ledger<'a>) -> Result<OnLinks<'a>, NoMemory>
        requires { relinked.installed ≡ [] }
        ensures { IfOk result (λ on. on ≡ relinked.entry) }
    {
        relinked.lemma_sound();
        let mut forwarding = unpublished(alloc, relinked.tables(), relinked.interfaces())?;
        forwarding.apply(relinked.pending());
        Ok(OnLinks {
            relinked,
            forwarding,
        })
    }
}

impl<'a> ForwardingServer<'a> {
    /// Gives the server what was made for it; what it had comes back. It takes no memory.
    fn relink(&mut self, links: OnLinks<'a>) -> OnLinks<'a>
        requires { FitsCore self.old links }
        ensures core { IsOnLinks links.entry self.old self.new }
        ensures back { result ≡ ledger_of self.old }
        ensures fits { FitsCore self.new result }
    {
        self.core.lemma_sound();
        let relinked = self.core.relink(links.relinked);
        let forwarding = mem::replace(&mut self.forwarding, links.forwarding);
        OnLinks {
            relinked,
            forwarding,
        }
    }

    /// The same where something is given.
    fn relink_where(&mut self, links: Option<OnLinks<'a>>) -> Option<OnLinks<'a>>
        requires { FitsWhere self.old links }
        ensures core { IsOn links.entry self.old self.new }
        ensures back { result ≡ given_back links.entry (ledger_of self.old) }
        ensures fits { FitsWhere self.new result }
    {
        match links {
            Some(links) => Some(self.relink(links)),
            None => None,
        }
    }

    /// The server takes a standing on, which becomes what the server had. It takes no memory.
    pub(crate) fn exchange(&mut self, standing: &mut Standing<'a>)
        requires { CanTake standing.old self.old }
        ensures { IsExchanged standing.old self.old standing.new self.new }
    {
        let clock = self.core.clock();
        let links = self.relink_where(standing.links.take());
        self.core.raise(standing.clock);
        *standing = Standing { clock, links };
    }
}
