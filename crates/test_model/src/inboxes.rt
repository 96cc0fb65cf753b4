//! Tests that an inbox has the deliveries with its numbers, in its order.
use filter_text::Delivery;
use net_inbox::{Deliveries, DeliveriesBuilder, Inbox, Received};
use net_model::Id;
use std::alloc::Global;
use std::rt::HostRuntime;
use std::test::Fail;

// The first two publications of client 2.
fn deliveries(alloc: Global) -> Result<Deliveries, Fail> {
    let mut builder = DeliveriesBuilder::new(alloc, 2)?;
    for ordinal in 1..3 {
        let id = Id {
            publisher: 2,
            ordinal,
        };
        let text: &[u8] = if ordinal == 1 {
            b"x int 1"
        } else {
            b"y int 22"
        };
        builder.push(alloc, id, b"lamp", text)?;
    }
    Ok(builder.build(alloc)?)
}

// Whether this is the publication with an ordinal, and its text.
fn is_delivery(delivery: &Delivery<'_>, ordinal: u32, text: &[u8]) -> bool {
    delivery.id.publisher == 2 && delivery.id.ordinal == ordinal && delivery.bytes == text
}

// Whether the second publication came, then the first, then the second again.
fn are_three(received: Received<'_>) -> bool {
    let [first, second, third] = received.numbers else {
        return false;
    };
    let all = received.deliveries;
    is_delivery(&all.at(*first), 2, b"y int 22")
        && is_delivery(&all.at(*second), 1, b"x int 1")
        && is_delivery(&all.at(*third), 2, b"y int 22")
}

#[test]
fn in_order(rt: HostRuntime) -> Result<(), Fail> {
    let alloc = rt.alloc();
    let inbox = Inbox::of(deliveries(alloc)?, vec![in alloc; 1u32, 0, 1]?);
    assert!(rt; inbox.len() == 3);
    assert!(rt; are_three(inbox.received()));
    let (shared, numbers) = inbox.into_parts();
    assert!(rt; are_three(Inbox::of(shared.share()?, numbers).received()));
    assert!(rt; shared.at(2).bytes.is_empty());
    Ok(())
}

#[test]
fn lines(rt: HostRuntime) -> Result<(), Fail> {
    let all = deliveries(rt.alloc())?;
    assert!(rt; all.line(0, b"lamp") == Some(b"deliver lamp 1 x int 1\n".as_slice()));
    assert!(rt; all.line(1, b"lam").is_none());
    assert!(rt; all.line(2, b"lamp").is_none());
    Ok(())
}
