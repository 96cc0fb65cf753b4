//! Reads what the words of the command line ask for.
ghost use Rattle.std.specs.Prelude.{◌≡◌, ◌↔◌, IsTrue};
ghost use Rattle.std.specs.Str.{bytes_eq};
ghost use Rattle.program_sequential.specs.Words.{AreNoneOfRun, alone, asked, audit_by, explain_by, generate_by, hierarchy_by, is_summary, joined_seed, options};
ghost use Rattle.program_sequential.specs.Words.{parted_seed, plain, run_by, traffic_by, wanted_by, with_option};

use crate::question::read_question;
use crate::seed::seed;
use crate::subject::{ClientName, Subject};
use filter_text::Bytes;
use program_help::Page;

/// Which turns a run makes.
#[derive(Clone, Copy, Debug, PartialEq, Eq)]
pub enum Schedule {
    /// Those of the walk schedule.
    Walk,
    /// Those of the document's schedule, and then those of the walk schedule.
    Replay,
    /// Whatever turns the threads of all servers make.
    Threads,
}

/// How a run is shown.
#[derive(Clone, Copy, Debug, PartialEq, Eq)]
pub struct Shown {
    /// Each client's deliveries by publisher and ordinal, not in the order received.
    pub sorted: bool,
    /// The trace behind the deliveries.
    pub trace: bool,
}

/// What is wanted of a document.
#[derive(Clone, Copy, Debug, PartialEq, Eq)]
pub enum Query {
    /// What clients receive in a run of the network.
    Run(Schedule, Shown),
    /// What clients receive in the walk of its hierarchy, with server 1 at the top.
    Hierarchy(Shown),
    /// What flooding owes and allows them.
    Flood,
    /// How much it has.
    Check,
    /// Its canonical text.
    Format,
    /// What each link carries in its walk, beside what plain flooding would have put there.
    Traffic {
        /// Whether it is wanted as a graph.
        graph: bool,
    },
}

/// What the words ask for.
#[derive(Drop)]
pub enum Wanted<'w> {
    /// Something of the document that the source gives.
    Document(Query),
    /// The document that a seed makes, or a summary of its walk.
    Generate {
        /// The seed.
        seed: u64,
        /// Whether the summary is wanted.
        summary: bool,
    },
    /// Where the patterns behind the document that the source gives occur in what its walk brings.
    Patterns,
    /// Why a client gets a publication of the document that the source gives, or doesn't; or what comes to it of all.
    Explain(Subject<'w>),
    /// Whether the output behind the document that the source gives is that of a whole run.
    Audit {
        /// Whether the run is that of a hierarchy.
        hierarchy: bool,
    },
    /// What the program says of itself.
    About(Page),
}

/// A word of a command line, as its bytes.
pub type Word = Bytes;

// Whether it is this word.
fn is_word(word: &Word, text: &[u8]) -> bool
    ensures { result ≡ bytes_eq word.now text.now }
{
    word.as_slice() == text
}

// With one option more.
fn with_option(word: &Word, shown: Shown) -> Option<Shown>
    ensures { result ≡ with_option word.now shown }
{
    if is_word(word, b"--sorted") && !shown.sorted {
        Some(Shown {
            sorted: true,
            trace: shown.trace,
        })
    } else if is_word(word, b"--trace") && !shown.trace {
        Some(Shown {
            sorted: shown.sorted,
            trace: true,
        })
    } else {
        None
    }
}

// The options of a run.
fn options(words: &[Word]) -> Option<Shown>
    ensures { result ≡ options plain words.now }
{
    let mut shown = Shown {
        sorted: false,
        trace: false,
    };
    for word in words {
        match with_option(word, shown) {
            Some(more) => shown = more,
            None => return None,
        }
    }
    Some(shown)
}

// A run by a schedule, with the options behind its word.
fn run(schedule: Schedule, words: &[Word]) -> Option<Wanted<'_>>
    ensures { result ≡ run_by schedule words.now }
{
    match options(words) {
        Some(shown) => Some(Wanted::Document(Query::Run(schedule, shown))),
        None => None,
    }
}

// The walk of a hierarchy, with the options behind its word.
fn hierarchy(words: &[Word]) -> Option<Wanted<'_>>
    ensures { result ≡ hierarchy_by words.now }
{
    match options(words) {
        Some(shown) => Some(Wanted::Document(Query::Hierarchy(shown))),
        None => None,
    }
}

// What takes no further words.
fn alone<'w>(wanted: Wanted<'w>, words: &[Word]) -> Option<Wanted<'w>>
    ensures { result ≡ alone wanted.entry words.now }
{
    if words.is_empty() { Some(wanted) } else { None }
}

// What each link carries, by the words behind `traffic`.
fn traffic(words: &[Word]) -> Option<Wanted<'_>>
    ensures { result ≡ traffic_by words.now }
{
    match words {
        [] => Some(Wanted::Document(Query::Traffic { graph: false })),
        [one] if is_word(one, b"--dot") => Some(Wanted::Document(Query::Traffic { graph: true })),
        _ => None,
    }
}

// Which audit is wanted, by the words behind `audit`.
fn audit(words: &[Word]) -> Option<Wanted<'_>>
    ensures { result ≡ audit_by words.now }
{
    match words {
        [] => Some(Wanted::Audit { hierarchy: false }),
        [one] if is_word(one, b"--hier") => Some(Wanted::Audit { hierarchy: true }),
        _ => None,
    }
}

// Whether it is `--summary`.
fn is_summary(word: &Word) -> bool
    ensures { result ≡ is_summary word.now }
{
    is_word(word, b"--summary")
}

// The seed of the one word `--seed=N`.
fn joined_seed(word: &Word) -> Option<u64>
    ensures { result ≡ joined_seed word.now }
{
    match word.as_slice() {
        [b'-', b'-', b's', b'e', b'e', b'd', b'=', number @ ..] => seed(number),
        _ => None,
    }
}

// The seed of the two words `--seed` and N.
fn parted_seed(label: &Word, number: &Word) -> Option<u64>
    ensures { result ≡ parted_seed label.now number.now }
{
    if is_word(label, b"--seed") {
        seed(number.as_slice())
    } else {
        None
    }
}

// A document by its seed, where there is one.
fn asked(summary: bool, seed: Option<u64>) -> Option<Wanted<'static>>
    ensures { result ≡ asked summary seed }
{
    match seed {
        Some(seed) => Some(Wanted::Generate { seed, summary }),
        None => None,
    }
}

// What is to be generated, by the words behind `gen`.
fn generate(words: &[Word]) -> Option<Wanted<'_>>
    ensures { result ≡ generate_by words.now }
{
    match words {
        [one] => asked(false, joined_seed(one)),
        [one, two] if is_summary(one) => asked(true, joined_seed(two)),
        [one, two] if is_summary(two) => asked(true, joined_seed(one)),
        [one, two] => asked(false, parted_seed(one, two)),
        [one, two, three] if is_summary(one) => asked(true, parted_seed(two, three)),
        [one, two, three] if is_summary(three) => asked(true, parted_seed(one, two)),
        _ => None,
    }
}

// What is to be explained, by the words behind `explain`.
fn explain(words: &[Word]) -> Option<Wanted<'_>>
    ensures { result ≡ explain_by words.now }
{
    match words {
        [client] => Some(Wanted::Explain(Subject::Client(ClientName::of(client.as_slice())))),
        [client, publisher, number] => match read_question(client, publisher, number) {
            Some(question) => Some(Wanted::Explain(Subject::Publication(question))),
            None => None,
        },
        _ => None,
    }
}

/// What the words ask for, where they ask for something.
pub fn read_words(words: &[Word]) -> Option<Wanted<'_>>
    ensures { result ≡ wanted_by words.now }
{
    let [word, rest @ ..] = words else {
        return None;
    };
    if is_word(word, b"walk") {
        run(Schedule::Walk, rest)
    } else if is_word(word, b"replay") {
        run(Schedule::Replay, rest)
    } else if is_word(word, b"run") {
        run(Schedule::Threads, rest)
    } else if is_word(word, b"hier") {
        hierarchy(rest)
    } else if is_word(word, b"flood") {
        alone(Wanted::Document(Query::Flood), rest)
    } else if is_word(word, b"check") {
        alone(Wanted::Document(Query::Check), rest)
    } else if is_word(word, b"format") {
        alone(Wanted::Document(Query::Format), rest)
    } else if is_word(word, b"traffic") {
        traffic(rest)
    } else if is_word(word, b"gen") {
        generate(rest)
    } else if is_word(word, b"patterns") {
        alone(Wanted::Patterns, rest)
    } else if is_word(word, b"explain") {
        explain(rest)
    } else if is_word(word, b"audit") {
        audit(rest)
    } else if is_word(word, b"help") || is_word(word, b"--help") {
        alone(Wanted::About(Page::Help), rest)
    } else if is_word(word, b"version") || is_word(word, b"--version") {
        alone(Wanted::About(Page::Version), rest)
    } else {
        None
    }
}

/// Whether the words are none of `run`, so that no threads are asked for.
pub fn is_quiet(words: &[Word]) -> bool
    ensures { IsTrue result ↔ AreNoneOfRun (wanted_by words.now) }
{
    match read_words(words) {
        Some(Wanted::Document(Query::Run(Schedule::Threads, _))) => false,
        _ => true,
    }
}
