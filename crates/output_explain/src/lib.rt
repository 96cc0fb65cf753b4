//! Layer: output.
//! Job: why a client gets a publication, may get it or never gets it, by the scripts alone: no server occurs.
//! Users: the layers program and test.
//!
//! An explanation tells the way of a publication, what each filter of the client and each advertisement of the publisher
//! says of it, and since when and until when these are in force in its phase. Its verdict is that of the promise.
//!
//! `prospects` goes through all publications: what the client is owed, what may come to it, and what is near. It asks what
//! flooding tells, and matches each other notification with each filter to which the client's script subscribes.
//!
//! A fact has the first constraint that isn't satisfied, or the first attribute that isn't allowed, and the first time
//! in the phase; of what is added again after a withdrawal it has the first time alone. Each filter that the net names
//! is followed through the client's script, so the time grows with their product.
#![tactic(auto)]

mod answer;
mod facts;
mod fault;
mod find;
pub mod law;
mod outlook;
mod phase;
mod prospect;
mod stay;
mod text;
mod verdict;

pub use answer::{Explanation, explain};
pub use facts::{AdvertFact, FilterFact, Miss};
pub use fault::ExplainFault;
pub use outlook::prospects_text;
pub use prospect::{Chance, Prospect, prospects};
pub use stay::Stay;
pub use text::explanation_text;
pub use verdict::{Missing, Reason, Verdict};
