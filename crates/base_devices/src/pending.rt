//! Collects bytes on their way to a sink, so that it gets them in great pieces.
ghost use Rattle.std.specs.Prelude.{◌≡◌, ◌≤◌, ◌+◌, [], true, false, ◌++◌, length, IfOk, OnOk, OnErr};
ghost use Rattle.base_devices.specs.Cause.{Rose};
ghost use Rattle.base_devices.specs.Sinks.{Took, TookFront};
ghost use Rattle.base_devices.specs.Pending.{outlet, drained, Went};

use crate::{Failed, Sink, write_all};
use base::NoMemory;
use std::alloc::Global;
use std::marker::Model;

/// How many bytes wait at the most.
const ROOM: usize = 65536;

/// Bytes that wait to be written. Where the sink fails, what comes later is dropped, and `finish` says so: a text can be
/// put together without a question at each part. No call but `new` takes memory.
#[derive(Drop)]
pub struct Pending {
    bytes: Vec<u8>,
    failed: bool,
}

impl Model for Pending {
    ghost use Rattle.std.specs.Prelude.{◌≤◌, vec_len, vec_capacity};
    ghost use Rattle.base_devices.specs.Pending.{PendingParts};

    ghost Value = { PendingParts };

    ghost view = { λ p. record { bytes = p.bytes.items; failed = p.failed } };

    ghost invariant = { λ p. (65536 ≤ vec_capacity p.bytes) × (vec_len p.bytes ≤ 65536) };
}

// Writes bytes to a sink that has not failed; whether it has failed now.
fn fails<K: Sink>(sink: &mut K, failed: bool, bytes: &[u8]) -> bool
    ensures sound { failed ≡ false → result ≡ false
        → Took (K.state sink.old) (K.state sink.new) bytes.now × ((K.state sink.new).faults ≡ (K.state sink.old).faults) }
    ensures short { failed ≡ false → result ≡ true
        → TookFront (K.state sink.old) (K.state sink.new) bytes.now × Rose (K.state sink.old).faults (K.state sink.new).faults }
    ensures stuck { failed ≡ true → (result ≡ true) × (sink.new ≡ sink.old) }
{
    if failed {
        return true;
    }
    match write_all(sink, bytes) {
        Ok(()) => false,
        Err(_) => true,
    }
}

impl Pending {
    /// Nothing waits.
    pub fn new(alloc: Global) -> Result<Pending, NoMemory>
        ensures { IfOk result (λ p. p ≡ drained false) }
    {
        let bytes = Vec::with_capacity(alloc, ROOM)?;
        Ok(Pending {
            bytes,
            failed: false,
        })
    }

    // Writes what waits.
    fn flush<K: Sink>(&mut self, sink: &mut K)
        ensures went { Went (outlet (K.state sink.old) self.old) (outlet (K.state sink.new) self.new) [] }
        ensures empty { self.new.bytes ≡ [] }
    {
        self.failed = fails(sink, self.failed, &self.bytes);
        self.bytes.clear();
    }

    // Writes bytes where nothing waits.
    fn send<K: Sink>(&mut self, sink: &mut K, bytes: &[u8])
        requires { self.old.bytes ≡ [] }
        ensures { Went (outlet (K.state sink.old) self.old) (outlet (K.state sink.new) self.new) bytes.now }
    {
        self.failed = fails(sink, self.failed, bytes);
    }

    // Lets bytes wait.
    fn keep(&mut self, bytes: &[u8])
        requires { length self.old.bytes + length bytes.now ≤ 65536 }
        ensures { self.new ≡ record self.old { bytes = self.old.bytes ++ bytes.now } }
    {
        match self.bytes.extend_from_slice(bytes) {
            Ok(()) => {}
            Err(_) => unreachable!(),
        }
    }

    /// Puts bytes behind what waits.
    pub fn put<K: Sink>(&mut self, sink: &mut K, bytes: &[u8])
        ensures { Went (outlet (K.state sink.old) self.old) (outlet (K.state sink.new) self.new) bytes.now }
    {
        if bytes.len() > ROOM - self.bytes.len() {
            self.flush(sink);
        }
        if bytes.len() > ROOM {
            self.send(sink, bytes)
        } else {
            self.keep(bytes)
        }
    }

    /// Writes what waits; whether the sink took all since `new`.
    pub fn finish<K: Sink>(mut self, sink: &mut K) -> Result<(), Failed>
        ensures ok { OnOk result (Went (outlet (K.state sink.old) self)
            (outlet (K.state sink.new) (drained false)) []) }
        ensures err { OnErr result (Went (outlet (K.state sink.old) self)
            (outlet (K.state sink.new) (drained true)) []) }
    {
        self.flush(sink);
        if self.failed { Err(Failed) } else { Ok(()) }
    }
}
