//! The type of a notification as a client receives it.
use crate::id::Id;
use std::marker::Model;

/// The text of a notice with the id of its publication, as a client receives it. The text lies with whoever keeps it; contracts
/// see the id and the bytes.
#[derive(Drop)]
pub struct Delivery<'a> {
    /// The publication.
    pub id: Id,
    /// The text of its notice.
    pub bytes: &'a [u8],
}

impl<'a> Model for Delivery<'a> {
    ghost use Rattle.filter_text.specs.Deliveries.{Delivery as DeliveryParts};

    ghost Value = { DeliveryParts };

    ghost view = { λ d. record { id = d.id; bytes = d.bytes.now } };
}
