//! What the program says of itself, which it says whatever its input is.
use crate::tried::{failing, print_verdict, shown};
use std::alloc::Global;
use test_support::Failure;

/// What help must name.
const WORDS: [&str; 16] = [
    "walk",
    "run",
    "replay",
    "hier",
    "flood",
    "traffic",
    "patterns",
    "explain",
    "audit",
    "check",
    "format",
    "gen",
    "help",
    "--sorted",
    "--trace",
    "--summary",
];

/// Whether a line of the text has the word.
fn names(text: &str, word: &str) -> bool {
    for line in text.lines() {
        if line.contains(word) {
            return true;
        }
    }
    false
}

/// How many of the words help doesn't name.
fn unnamed(text: &str) -> u32 {
    let mut count = 0u32;
    for word in WORDS {
        if !names(text, word) {
            count = count.saturating_add(1);
        }
    }
    count
}

/// Prints whether both spellings of help and version come as wanted over a source of which each call fails.
pub fn print_pages(rt: &impl Print, alloc: Global) -> Result<(), Failure> {
    let help = failing(alloc, "help", b"", &[1], &[])?;
    let dashed = failing(alloc, "--help", b"", &[1], &[])?;
    println!(rt;
        "help leaves out {} of the words",
        unnamed(shown(&help.text))
    )?;
    print_verdict(rt, "--help", &dashed, b"", &help.text)?;
    for words in ["version", "--version"] {
        let came = failing(alloc, words, b"", &[1], &[])?;
        print_verdict(
            rt,
            words,
            &came,
            b"",
            b"siena 1.0\nrattle-kit-13f logic dac8208d650f15bf\n",
        )?;
    }
    Ok(())
}
