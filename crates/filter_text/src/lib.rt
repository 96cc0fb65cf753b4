//! Layer: filter.
//! Job: the one text of each value that is sent from server to server and to clients, written and read exactly.
//! Users: the layers from net upward.
//!
//! What is read is well formed, as part of `IsNoticeText` and the like: names are names, numbers are in range, lists
//! rise. `write_message` requires `IsSendable`: the id is in range, or the two lists rise strictly, share no member and
//! are not both empty.
//!
//! A reader is a slice that is cut from the front, and there is no recursion. Each byte is copied at most once: in
//! names, in decoded strings, and by the standard library's parsing of decimals.
#![tactic(auto)]

mod change;
mod command;
mod constraint;
mod delivery;
mod fault;
mod filters;
mod id;
mod int;
mod joined;
mod law;
mod listed;
mod lists;
mod message_text;
mod names;
mod notice;
mod reader;
mod semantics;
mod sent;
mod sent_text;
mod string;
mod time;
mod value;
mod wire;

pub use command::Command;
pub use constraint::{op_named, op_word};
pub use delivery::Delivery;
pub use fault::WireFault;
pub use filters::{read_advert, read_filter, write_advert, write_filter};
pub use id::Id;
pub use law::{one_text, one_value};
pub use lists::{Adverts, Bytes, Filters, Lists};
pub use message_text::MessageText;
pub use names::known_name;
pub use notice::{read_notice, write_notice};
pub use reader::kind_named;
pub use semantics::Semantics;
pub use sent::Sent;
pub use sent_text::SentText;
pub use string::unescape;
pub use value::{kind_word, truth_named};
pub use wire::{read_message, write_message};
