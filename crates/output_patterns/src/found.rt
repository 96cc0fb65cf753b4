//! Keeps what patterns found until it is written, and writes it.
ghost use Rattle.std.specs.Prelude.{All};
ghost use Rattle.base_devices.specs.Pending.{outlet, Went};
ghost use Rattle.output_patterns.specs.Published.{ArePublished};
ghost use Rattle.output_patterns.specs.Found.{patterns_text};

use crate::Pattern;
use crate::published::{Published, at_number, publications};
use crate::searched::{Searched, all_searched};
use crate::writing::put_pattern;
use base::NoMemory;
use base_devices::{Pending, Sink};
use net_inbox::Inbox;
use net_model::Client;
use std::alloc::Global;
use std::marker::Model;

/// Patterns and what clients received, kept until it is written where the patterns occur. Contracts see the text.
#[derive(Drop)]
pub struct Found {
    published: Published,
    received: Vec<Inbox>,
    patterns: Vec<Searched>,
}

impl Model for Found {
    ghost use Rattle.std.specs.Prelude.{ℕ, List, All};
    ghost use Rattle.output_patterns.specs.Published.{ArePublished};
    ghost use Rattle.output_patterns.specs.Found.{patterns_text};

    ghost Value = { List ℕ };

    ghost view = { λ f. patterns_text f.published.names.items f.published.notices.items f.received.items f.patterns.items };

    ghost invariant = { λ f. All (ArePublished f.published.notices.items) f.received.items };
}

// All patterns, in order.
fn put_patterns<K: Sink>(
    out: &mut Pending,
    sink: &mut K,
    published: &Published,
    received: &[Inbox],
    patterns: Vec<Searched>,
)
    requires { All (ArePublished published.now.notices.items) received.now }
    ensures { Went (outlet (K.state sink.old) out.old) (outlet (K.state sink.new) out.new)
        (patterns_text published.now.names.items published.now.notices.items received.now patterns.items) }
{
    for pattern in patterns {
        let inbox = at_number(received, pattern.client);
        put_pattern(
            out,
            sink,
            &published.names,
            &published.notices,
            inbox,
            pattern,
        );
    }
}

impl Found {
    ghost use Rattle.std.specs.Prelude.{◌≡◌, All, IfOk, length};
    ghost use Rattle.base_devices.specs.Pending.{outlet, Went};
    ghost use Rattle.output_patterns.specs.Watch.{IsSoundPattern};
    ghost use Rattle.output_patterns.specs.Published.{ArePublished, notices_in};
    ghost use Rattle.output_patterns.specs.Found.{found_text};

    /// What these patterns find in what the clients received. All that was delivered was published by one of them.
    pub fn make(
        alloc: Global,
        clients: Vec<Client>,
        received: Vec<Inbox>,
        patterns: Vec<Pattern>,
    ) -> Result<Found, NoMemory>
        requires published { All (ArePublished (notices_in clients.items)) received.items }
        requires sound { All (IsSoundPattern (length clients.items)) patterns.items }
        ensures { IfOk result (λ found. found ≡ found_text clients.items received.items patterns.items) }
    {
        let count = clients.len();
        let published = publications(alloc, clients)?;
        let patterns = all_searched(alloc, patterns, count)?;
        Ok(Found {
            published,
            received,
            patterns,
        })
    }

    /// Puts the text behind what waits: for each pattern in order `pattern CLIENT LABEL`, and for each of all its
    /// occurrences in what the client received `found` with publisher and ordinal of each of its notices. There is one pass
    /// over the client's deliveries for each pattern. It takes no memory.
    pub fn put<K: Sink>(self, out: &mut Pending, sink: &mut K)
        ensures { Went (outlet (K.state sink.old) out.old) (outlet (K.state sink.new) out.new) self }
    {
        let Found {
            published,
            received,
            patterns,
        } = self;
        put_patterns(out, sink, &published, &received, patterns)
    }
}
