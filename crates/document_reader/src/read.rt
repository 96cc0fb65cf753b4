//! Reads a whole document, line by line, into a net or its first fault.
ghost use Rattle.std.specs.Prelude.{◌≡◌, ◌≤◌, ◌⊎◌, ℕ, IfOk, IsErrOf, IsOk, length};
ghost use Rattle.net_model.specs.Parts.{NetParts};
ghost use Rattle.document_reader.specs.declared.fault.Fault.{Fault as Kind};
ghost use Rattle.document_reader.specs.declared.fault.InputFault.TheVariants.{Bad, NoMemory};
ghost use Rattle.document_reader.specs.Lines.{lines};
ghost use Rattle.document_reader.specs.Net.{IsBadAt, IsNetOf, ReadsNet};
ghost use Rattle.document_reader.specs.Places.{document_of, read_from, start};

use crate::clients::Clients;
use crate::cut::next_line;
use crate::fault::{Fault, InputFault};
use crate::net::net;
use crate::places::{end, line};
use crate::state::{Place, State};
use crate::tally::Tally;
use crate::trees::Trees;
use crate::version::Version;
use filter_text::Lists;
use net_model::{Net, Semantics};
use std::alloc::Global;

/// The greatest length of a document, in bytes.
pub const MOST_BYTES: usize = 4_194_304;

fn start(alloc: Global) -> State
    ensures { result ≡ start }
{
    State {
        place: Place::Header,
        version: Version::One,
        semantics: Semantics::Subscription,
        trees: Trees::new(alloc, 0),
        clients: Clients::new(alloc),
        client: 0,
        tally: Tally::new(),
        schedule: Lists::none(alloc),
    }
}

fn read_lines(alloc: Global, bytes: &[u8]) -> Result<Net, InputFault>
    requires { length bytes.now ≤ 4194304 }
    ensures { ReadsNet result (read_from 1 start (lines bytes.now)) }
{
    let mut state = start(alloc);
    let mut number: u32 = 1;
    let mut rest = bytes;
    'lines: while let Some((text, after)) = next_line(rest) {
        match line(alloc, &mut state, number, text) {
            Ok(()) => {}
            Err(fault) => return Err(InputFault::Bad {
                line: number,
                kind: fault.kind()?,
            }),
        }
        number += 1;
        rest = after;
    }
    match end(&state) {
        Ok(()) => {}
        Err(missing) => return Err(InputFault::Bad {
            line: number,
            kind: missing.kind()?,
        }),
    }
    Ok(net(alloc, state)?)
}

#[tactic(auto, unfolding(crate::specs::Places::document_of))]
fn answered(alloc: Global, bytes: &[u8]) -> Result<Net, InputFault>
    ensures { ReadsNet result (document_of bytes.now) }
{
    if bytes.len() > MOST_BYTES {
        return Err(InputFault::Bad {
            line: 0,
            kind: Fault::TooLong,
        });
    }
    read_lines(alloc, bytes)
}

/// The net of a document of at most 4,194,304 bytes, or its first line at fault with the first fault there. It takes time
/// in proportion to the document, but that an edge takes a step for each server and the end builds the trees.
pub fn read_net(alloc: Global, bytes: &[u8]) -> Result<Net, InputFault>
    ensures net { IfOk result (λ net. IsNetOf bytes.now net) }
    ensures given { (net : NetParts) → IsNetOf bytes.now net → IsOk result ⊎ IsErrOf result NoMemory }
    ensures bad { (line : ℕ) (kind : Kind) → IsErrOf result (Bad line kind) → IsBadAt bytes.now line kind }
    ensures refused { (line : ℕ) (kind : Kind) → IsBadAt bytes.now line kind → IsErrOf result (Bad line kind) ⊎ IsErrOf result NoMemory }
{
    answered(alloc, bytes)
}
