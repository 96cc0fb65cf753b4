//! Writes the pages that the program has on itself.
ghost use Rattle.std.specs.Prelude.{◌≡◌};
ghost use Rattle.program_help.specs.Pages.{help_text, page_text, usage_text, version_text};

/// What is asked of the program itself.
#[derive(Clone, Copy, Debug, PartialEq, Eq)]
pub enum Page {
    /// What each word does, with an example of each.
    Help,
    /// The version of the program, and the line of the toolchain that proves it.
    Version,
}

const HELP: &[u8] =
    b"siena: a network of event servers in one process. Most words read a document of servers, clients and their scripts from
standard input, and write what happens to standard output; docs/FORMATS.md has all texts, examples/ has documents.

walk [--sorted] [--trace]
    what each client receives where the servers take turns by a fixed schedule; sorted by publisher and number in place of
    the order received; with a trace of what the servers did
        siena walk < examples/alarm.siena
run [--sorted] [--trace]
    the same where each server has two workers, whose turns come as they may
        siena run --sorted < examples/market.siena
replay [--sorted] [--trace]
    the same where the turns of the document's schedule come first
        siena replay --sorted < examples/monitoring.siena
hier [--sorted] [--trace]
    the same where server 1 is the top of a hierarchy: notifications always go up to it, and down by filters
        siena hier --trace < examples/alarm.siena
flood
    what plain flooding owes each client, and what it allows besides, by the scripts alone
        siena flood < examples/market.siena
traffic [--dot]
    what each link carries in the walk, beside what plain flooding would put there; as a graph for dot
        siena traffic < examples/alarm.siena
patterns
    where the patterns behind a line `patterns` occur in what the clients receive
        siena patterns < examples/alarm.patterns
explain CLIENT
    each publication that the client is owed, that may come to it, or that is near: a filter of it matches, but not in time
        siena explain brigade < examples/alarm.siena
explain CLIENT PUBLISHER NUMBER
    why the client gets that publication, may get it or never gets it: one fact a line, and whether the walk delivers it
        siena explain brigade attic 2 < examples/alarm.siena
audit [--hier]
    whether the output behind a document and a line `output` is that of a whole run, with its trace; of its hierarchy
        (cat D; echo output; siena run --trace < D) | siena audit
check
    how much the document has
        siena check < examples/market.siena
format
    the document in its canonical form
        siena format < examples/alarm.siena
gen --seed N [--summary]
    a document of 16 servers and 64 clients made from the number N, or how much its walk does
        siena gen --seed 1 | siena walk --sorted
help, version
    this text; the program's version and that of the toolchain that proves it
        siena help

Status: 0 all is read and written; 2 other words; 3 the document is refused; 4 reading failed; 5 writing failed; 6 out of
memory; 8 patterns are refused; 9 an output is refuted; 10 what is to be explained isn't there. Standard error tells why.
";

const VERSION: &[u8] = b"siena 1.0
rattle-kit-13f logic dac8208d650f15bf
";

const USAGE: &[u8] =
    b"siena: usage: walk, run, replay or hier [--sorted] [--trace]; flood; traffic [--dot]; patterns; \
    explain CLIENT [PUBLISHER NUMBER]; audit [--hier]; check; format; gen --seed N [--summary]; help; version\n";

// What each word does.
#[tactic(auto, unfolding(crate::specs::Pages::help_text))]
fn help() -> &'static [u8]
    ensures { result.now ≡ help_text }
{
    HELP
}

// The version of the program, and the toolchain's line.
#[tactic(auto, unfolding(crate::specs::Pages::version_text))]
fn version() -> &'static [u8]
    ensures { result.now ≡ version_text }
{
    VERSION
}

impl Page {
    /// What is written: whole lines of ASCII.
    pub fn text(self) -> &'static [u8]
        ensures { result.now ≡ page_text self }
    {
        match self {
            Page::Help => help(),
            Page::Version => version(),
        }
    }
}

/// The line that names the words, for whoever gives others.
#[tactic(auto, unfolding(crate::specs::Pages::usage_text))]
pub fn usage() -> &'static [u8]
    ensures { result.now ≡ usage_text }
{
    USAGE
}
