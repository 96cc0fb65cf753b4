//! Reads the words of a command line out of the arguments of a process.
ghost use Rattle.std.specs.Prelude.{◌≡◌, map, IfOk, MatchResult};
ghost use Rattle.std.specs.String.{string_bytes};
ghost use Rattle.std.specs.Vec.Iter.{into_iter_items};
ghost use Rattle.program_threaded.specs.Processes.{GivesWords, IsUnread, unread_status, words_behind};

use base::NoMemory;
use program_sequential::{Status, Word};
use std::alloc::Global;
use std::env::Args;
use std::io;
use std::io::ErrorKind;

// Each argument as a word, the program's name among them.
fn each(alloc: Global, arguments: Args) -> Result<Vec<Word>, NoMemory>
    ensures { IfOk result (λ words. words.items ≡ map string_bytes (into_iter_items arguments)) }
{
    let mut words = Vec::new(alloc);
    for argument in arguments {
        words.push(Word::of(argument.as_bytes().to_vec(alloc)?))?;
    }
    Ok(words)
}

// The status that tells why arguments can't be read: they are outside of all words, unless memory was refused for them.
fn unread(kind: ErrorKind) -> Status
    ensures { result ≡ unread_status kind }
{
    match kind {
        ErrorKind::OutOfMemory => Status::NoMemory,
        _ => Status::Usage,
    }
}

/// The words of these arguments, the program's name among them, or the status that tells why there are none.
pub fn words_of(alloc: Global, arguments: io::Result<Args>) -> Result<Vec<Word>, Status>
    ensures { MatchResult result (λ words. GivesWords arguments (words_behind words.items)) (λ status. IsUnread arguments status) }
{
    match arguments {
        Ok(arguments) => match each(alloc, arguments) {
            Ok(words) => Ok(words),
            Err(NoMemory) => Err(Status::NoMemory),
        },
        Err(error) => Err(unread(error.kind())),
    }
}
