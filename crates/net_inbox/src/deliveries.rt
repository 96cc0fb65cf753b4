//! The type of the deliveries of a run by number, which are in memory once for all their owners.
ghost use Rattle.std.specs.Prelude.{◌≡◌, ◌++◌, ◌∷◌, [], IfOk, IfSome, OnOk, OnErr};
ghost use Rattle.net_inbox.specs.Inbox.{delivery, delivery_at, named_line};

use crate::kept::Kept;
use base::NoMemory;
use filter_text::{Delivery, Id};
use std::alloc::Global;
use std::marker::Model;
use std::sync::Arc;

/// Deliveries that are put together one by one.
#[derive(Drop)]
pub struct DeliveriesBuilder {
    kept: Vec<Kept>,
}

impl Model for DeliveriesBuilder {
    ghost use Rattle.std.specs.Prelude.{List};
    ghost use Rattle.filter_text.specs.Deliveries.{Delivery as DeliveryParts};

    ghost Value = { List DeliveryParts };

    ghost view = { λ b. b.kept.items };
}

impl DeliveriesBuilder {
    /// None yet, with room for so many.
    pub fn new(alloc: Global, count: usize) -> Result<DeliveriesBuilder, NoMemory>
        ensures { IfOk result (λ builder. builder ≡ []) }
    {
        let kept = Vec::with_capacity(alloc, count)?;
        Ok(DeliveriesBuilder { kept })
    }

    /// One more, with the next number: the id of a publication, the name of its publisher, and the text of its notice.
    pub fn push(&mut self, alloc: Global, id: Id, name: &[u8], bytes: &[u8]) -> Result<(), NoMemory>
        ensures ok { OnOk result (self.new ≡ self.old ++ delivery id bytes.now ∷ []) }
        ensures err { OnErr result (self.new ≡ self.old) }
    {
        let kept = Kept::of(alloc, id, name, bytes)?;
        self.kept.push(kept)?;
        Ok(())
    }

    /// These, which change no more.
    pub fn build(self, alloc: Global) -> Result<Deliveries, NoMemory>
        ensures { IfOk result (λ deliveries. deliveries ≡ self) }
    {
        let kept = Arc::new(alloc, self.kept)?;
        Ok(Deliveries { kept })
    }
}

/// The deliveries that the publications of a run are to those who receive them, by number from 0. They stand in memory once for
/// all who own them; contracts see the list.
#[derive(Drop)]
pub struct Deliveries {
    kept: Arc<Vec<Kept>>,
}

impl Model for Deliveries {
    ghost use Rattle.std.specs.Prelude.{List};
    ghost use Rattle.std.specs.Arc.{arc_value};
    ghost use Rattle.filter_text.specs.Deliveries.{Delivery as DeliveryParts};

    ghost Value = { List DeliveryParts };

    ghost view = { λ d. (arc_value d.kept).items };
}

impl Deliveries {
    /// The same for one more owner, which takes no memory. It is refused where they have as many owners as can be counted.
    pub fn share(&self) -> Result<Deliveries, NoMemory>
        ensures { IfOk result (λ deliveries. deliveries ≡ self.now) }
    {
        let kept = self.kept.clone()?;
        Ok(Deliveries { kept })
    }

    /// The delivery with a number; an empty one of no publication where there is none.
    pub fn at(&self, number: u32) -> Delivery<'_>
        ensures { result ≡ delivery_at self.now number }
    {
        match self.kept.get(number as usize) {
            Some(kept) => Delivery {
                id: kept.id(),
                bytes: kept.bytes(),
            },
            None => Delivery {
                id: Id {
                    publisher: 0,
                    ordinal: 0,
                },
                bytes: &[],
            },
        }
    }

    /// The line of the delivery with a number, if there is one and its publisher was put in with this name.
    pub fn line(&self, number: u32, name: &[u8]) -> Option<&[u8]>
        ensures { IfSome result (λ line. line.now ≡ named_line name.now (delivery_at self.now number)) }
    {
        self.kept.get(number as usize)?.line(name)
    }
}
