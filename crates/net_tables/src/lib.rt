//! Layer: net.
//! Job: what a run knows before its first step: filters, advertisements and publications by number, with their relations.
//! Users: the layers server, sequential, hierarchy, thread, output, audit, program and test.
//!
//! A document is read whole before its run begins, and has at most 4,096 commands on filters and advertisements. So a
//! `Catalogue` keeps each distinct one once in a pool, of which each command that names it is a holder, and numbers it by
//! its place in the canonical order; each publication is numbered by publisher and ordinal. A net has at most 4,096
//! filters, 4,096 advertisements and 100,000 publications (`lemma_sound`). `Tables` have, beside the catalogue, the rows
//! that say which filter or advertisement covers which and which filter overlaps which advertisement, the text of each
//! publication, and the filters that it matches. So a message, and a place in an inbox, is the publication's number.
//! Neither changes while a run lasts, and all servers and all threads share them by reference.
//!
//! `Tables::matched` and `Tables::deliveries` answer what was computed when the tables were made. `filter_order`, `advert_order` and `overlaps`
//! of a catalogue make their rows when they are called. The rows of `test_documents` try one item of each kind and
//! operator, and 4,096 equal filters.
#![tactic(auto)]

mod catalogue;
mod found;
mod named;
mod numbered;
mod publication;
mod related;
mod scripts;
mod tables;
mod words;

pub use catalogue::Catalogue;
pub use numbered::NumberedCommand;
pub use publication::Publication;
pub use tables::Tables;
