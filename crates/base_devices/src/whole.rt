//! Reads all of a source, and writes all of a text.
ghost use Rattle.std.specs.Prelude.{◌≡◌, ◌≤◌, ◌+◌, ℕ, List, ◌++◌, true, length, vec_len, ◌↔◌, IfOk, IsOk, IsErrOf, OnOk, OnErr};
ghost use Rattle.std.specs.Io.KnownBytes.{Consumes, IsAtEnd};
ghost use Rattle.base_devices.specs.Cause.{Rose, HasCause};
ghost use Rattle.base_devices.specs.Sinks.{Took, TookFront};
ghost use Rattle.base_devices.specs.Whole.{Gave};

use crate::{Failed, Sink, Source};
use std::alloc::{AllocError, Global};

/// Why a source was not read to its end.
#[derive(Clone, Copy, Debug, PartialEq, Eq)]
pub enum ReadAll {
    TooLong,
    Failed,
    NoMemory,
}

impl From<AllocError> for ReadAll {
    ghost use Rattle.std.specs.Prelude.{◌≡◌};
    ghost use Rattle.base_devices.specs.declared.whole.ReadAll.TheVariants.{NoMemory};

    ghost from_gives = { λ _ e. e ≡ NoMemory };

    fn from(_: AllocError) -> Self {
        ReadAll::NoMemory
    }
}

impl From<Failed> for ReadAll {
    ghost use Rattle.std.specs.Prelude.{◌≡◌};
    ghost use Rattle.base_devices.specs.declared.whole.ReadAll.TheVariants.{Failed};

    ghost from_gives = { λ _ e. e ≡ Failed };

    fn from(_: Failed) -> Self {
        ReadAll::Failed
    }
}

const PIECE: usize = 4096;

/// All bytes up to the end, of which there are at most `limit`. Reading stops one byte past that.
pub fn read_all<S: Source>(alloc: Global, source: &mut S, limit: usize) -> Result<Vec<u8>, ReadAll>
    ensures ok { IfOk result (λ bytes. S.given source.new ≡ S.given source.old ++ bytes.items) }
    ensures ended { IsOk result ↔ (S.ended source.new ≡ true) }
    ensures within { IfOk result (λ bytes. vec_len bytes ≤ limit) }
    ensures too_long { IsErrOf result ReadAll.TooLong ↔ Gave (S.given source.old) (S.given source.new) (λ given. length given ≡ limit + 1) }
    ensures failed_within { IsErrOf result ReadAll.Failed → Gave (S.given source.old) (S.given source.new) (λ given. length given ≤ limit) }
    ensures at_most { Gave (S.given source.old) (S.given source.new) (λ given. length given ≤ limit + 1) }
    ensures told { (given : List ℕ) → S.given source.new ≡ S.given source.old ++ given → Consumes (S.left source.old) (S.left source.new) given }
    ensures at_end { IfOk result (λ _. IsAtEnd (S.left source.new)) }
    ensures later { S.faults source.old ≤ S.faults source.new }
    ensures kept { OnOk result (S.faults source.new ≡ S.faults source.old) }
    ensures kept_at_the_limit { IsErrOf result ReadAll.TooLong → S.faults source.new ≡ S.faults source.old }
    ensures failed { IsErrOf result ReadAll.Failed → Rose (S.faults source.old) (S.faults source.new) }
{
    let mut bytes = Vec::new(alloc);
    let mut piece = [0u8; PIECE];
    loop {
        let most = limit - bytes.len();
        let room = most.min(PIECE - 1) + 1;
        let count = source.read(&mut piece[..room])?;
        if count == 0 {
            return Ok(bytes);
        }
        if count > most {
            return Err(ReadAll::TooLong);
        }
        bytes.extend_from_slice(&piece[..count])?;
    }
}

/// Writes all the bytes.
pub fn write_all<K: Sink>(sink: &mut K, bytes: &[u8]) -> Result<(), Failed>
    ensures ok { OnOk result (Took (K.state sink.old) (K.state sink.new) bytes.now) }
    ensures err { OnErr result (TookFront (K.state sink.old) (K.state sink.new) bytes.now) }
    ensures cause { HasCause (K.state sink.old).faults (K.state sink.new).faults result }
{
    let mut rest = bytes;
    while !rest.is_empty() {
        let count = sink.write(rest)?;
        rest = &rest[count..];
    }
    Ok(())
}
