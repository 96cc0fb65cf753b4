//! Layer: program.
//! Job: the top call on one thread: from the words of a command line and the bytes of a source to the bytes of a sink.
//! Users: program_threaded, siena and test_program.
//!
//! Its contract has the headline: the theorem that the program promises. `lemma_promise` says what each whole run
//! promises, whatever its schedule: `ClientPromise`, `RunPromise` and `NetworkPromise` of a legal, drained journal of a
//! sound net. `lemma_hierarchy_promise` does this for a hierarchy.
//!
//! Several nets may be those of one document. They differ only in tables inside the trees, which no definition of a run
//! mentions: `lemma_one_document` says that they have the same runs, walk, flooding and texts. `printed` and `bad_input`
//! speak of one of them, `refused` and `complete` of each. `lemma_one_text` says that a text tells each client's lists.
//!
//! The summary of a seed whose document had no net would be answered as out of memory; that each has one is not proved.
//!
//! The text of a run isn't made in memory as a whole, except a trace: the lists of deliveries are written one after the
//! other, in great pieces. `Printed` holds all memory that this needs. So all memory is taken before the first write,
//! and `write` has no answer for lack of memory.
#![tactic(auto)]

mod answer;
mod audits;
mod body;
mod document_law;
mod explanation;
mod fault_line;
mod generated;
mod given;
mod hierarchy;
mod hierarchy_law;
mod law;
mod notices;
mod outlook;
mod page;
mod patterns;
mod printed;
mod question;
mod ran;
mod reading;
mod seed;
mod sentences;
mod standard;
mod status;
mod subject;
mod summary;
mod telling;
mod text;
mod text_law;
mod top;
mod traffic;
mod unanswered;
mod unknown;
mod words;

pub use audits::printed_is_confirmed;
pub use document_law::lemma_one_document;
pub use fault_line::tell;
pub use law::lemma_promise;
pub use printed::Printed;
pub use question::Question;
pub use reading::{document, net};
pub use standard::{Over, quiet_with_devices};
pub use status::Status;
pub use subject::{ClientName, Subject};
pub use text::printed_run;
pub use text_law::lemma_one_text;
pub use top::{Outcome, quiet};
pub use unanswered::{Unanswered, widened};
pub use unknown::Unknown;
pub use words::{Query, Schedule, Shown, Wanted, Word, is_quiet, read_words};
