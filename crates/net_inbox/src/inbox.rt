//! The type of an inbox: what a client received, by numbers.
ghost use Rattle.std.specs.Prelude.{◌≡◌, IfOk};
ghost use Rattle.net_inbox.specs.Inbox.{in_order};

use crate::deliveries::Deliveries;
use std::marker::Model;

/// What a client received, by the numbers of its deliveries, in order. `in_order` is the list.
#[derive(Clone, Copy)]
pub struct Received<'a> {
    /// The deliveries of the run.
    pub deliveries: &'a Deliveries,
    /// The numbers of those that were received.
    pub numbers: &'a [u32],
}

/// What a client received, in order; contracts see the list of deliveries.
#[derive(Drop)]
pub struct Inbox {
    deliveries: Deliveries,
    numbers: Vec<u32>,
}

impl Model for Inbox {
    ghost use Rattle.std.specs.Prelude.{List};
    ghost use Rattle.filter_text.specs.Deliveries.{Delivery as DeliveryParts};
    ghost use Rattle.net_inbox.specs.Inbox.{at_numbers};

    ghost Value = { List DeliveryParts };

    ghost view = { λ i. at_numbers i.deliveries i.numbers.items };
}

impl Inbox {
    ghost use Rattle.std.specs.Prelude.{◌≡◌, length};
    ghost use Rattle.net_inbox.specs.Inbox.{at_numbers, in_order};

    /// The deliveries with these numbers, in this order.
    pub fn of(deliveries: Deliveries, numbers: Vec<u32>) -> Inbox
        ensures { result ≡ at_numbers deliveries numbers.items }
    {
        Inbox {
            deliveries,
            numbers,
        }
    }

    /// How many they are.
    pub fn len(&self) -> usize
        ensures { result ≡ length self.now }
    {
        self.numbers.len()
    }

    /// The deliveries of the run, and the numbers of those that were received.
    pub fn into_parts(self) -> (Deliveries, Vec<u32>)
        ensures { at_numbers result.0 result.1.items ≡ self }
    {
        (self.deliveries, self.numbers)
    }

    /// What was received.
    pub fn received(&self) -> Received<'_>
        ensures { in_order result ≡ self.now }
    {
        Received {
            deliveries: &self.deliveries,
            numbers: &self.numbers,
        }
    }
}
