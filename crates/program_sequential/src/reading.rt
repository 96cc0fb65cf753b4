//! Reads a document from a source.
ghost use Rattle.std.specs.Prelude.{◌≡◌, ◌≤◌, ◌+◌, ◌⊎◌, ◌++◌, ◌↔◌, ℕ, List, true, length, IfOk, OnOk, IsOk, IsErrOf};
ghost use Rattle.std.specs.Io.KnownBytes.{Consumes, IsAtEnd};
ghost use Rattle.base_devices.specs.Cause.{Rose};
ghost use Rattle.base_devices.specs.Whole.{Gave};
ghost use Rattle.net_model.specs.Parts.{NetParts};
ghost use Rattle.net_model.specs.Sound.{IsSound};
ghost use Rattle.document_reader.specs.Net.{IsNetOf, IsBadAt};
ghost use Rattle.program_sequential.specs.Promise.{AreOfNotices};

use crate::notices::lemma_notices;
use base_devices::{ReadAll, Source, read_all};
use document_reader::law::lemma_net_sound;
use document_reader::{Fault, InputFault, MOST_BYTES, read_net};
use net_model::Net;
use std::alloc::Global;

/// All bytes of a source, of which there are at most 4,194,304.
pub fn document<S: Source>(alloc: Global, source: &mut S) -> Result<Vec<u8>, ReadAll>
    ensures all { IfOk result (λ bytes. S.given source.new ≡ S.given source.old ++ bytes.items) }
    ensures ended { IsOk result ↔ (S.ended source.new ≡ true) }
    ensures sure { OnOk result (S.faults source.new ≡ S.faults source.old) }
    ensures sure_long { IsErrOf result ReadAll.TooLong → S.faults source.new ≡ S.faults source.old }
    ensures long { IsErrOf result ReadAll.TooLong → Gave (S.given source.old) (S.given source.new) (λ given. length given ≡ 4194305) }
    ensures failed { IsErrOf result ReadAll.Failed → Rose (S.faults source.old) (S.faults source.new) }
    ensures failed_within { IsErrOf result ReadAll.Failed → Gave (S.given source.old) (S.given source.new) (λ given. length given ≤ 4194304) }
    ensures at_most { Gave (S.given source.old) (S.given source.new) (λ given. length given ≤ 4194305) }
    ensures told { (given : List ℕ) → S.given source.new ≡ S.given source.old ++ given → Consumes (S.left source.old) (S.left source.new) given }
    ensures end { S.ended source.new ≡ true → IsAtEnd (S.left source.new) }
{
    read_all(alloc, source, MOST_BYTES)
}

/// The net of a document.
pub fn net(alloc: Global, bytes: &[u8]) -> Result<Net, InputFault>
    ensures net { IfOk result (λ net. IsNetOf bytes.now net) }
    ensures sound { IfOk result IsSound }
    ensures notices { IfOk result (λ net. AreOfNotices net.clients) }
    ensures given { (net : NetParts) → IsNetOf bytes.now net → IsOk result ⊎ IsErrOf result InputFault.NoMemory }
    ensures bad { (line : ℕ) (kind : Fault) → IsErrOf result (InputFault.Bad line kind) → IsBadAt bytes.now line kind }
    ensures refused { (line : ℕ) (kind : Fault) → IsBadAt bytes.now line kind
        → IsErrOf result (InputFault.Bad line kind) ⊎ IsErrOf result InputFault.NoMemory }
{
    lemma_net_sound();
    match read_net(alloc, bytes) {
        Ok(net) => {
            lemma_notices(&net);
            Ok(net)
        }
        Err(fault) => Err(fault),
    }
}
