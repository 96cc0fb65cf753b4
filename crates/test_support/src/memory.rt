//! A source and a sink in memory, for tests: in pieces, and failing at given calls.
ghost use Rattle.std.specs.Prelude.{◌≡◌, ◌<◌, ◌≤◌, ◌+◌, ◌-◌, ◌^◌, ◌⊎◌, [], false, length, min, vec_len, vec_capacity, IfOk, Contains, ◌↔◌, IsTrue};

use crate::piece::give;
use base::NoMemory;
use base_devices::{Failed, Sink, Source};
use std::alloc::Global;

/// The calls so far, and those that fail, counted from 1.
#[derive(Drop)]
struct Failing {
    fails: Vec<u64>,
    calls: u64,
    faults: u64,
}

impl Failing {
    ghost use Rattle.base_devices.specs.Cause.{Rose};

    /// Counts a call, and says whether it fails.
    fn next_fails(&mut self) -> bool
        ensures now { IsTrue result ↔ Contains self.old.fails.items (min (self.old.calls + 1) (2 ^ 64 - 1)) }
        ensures calls { self.new.calls ≡ min (self.old.calls + 1) (2 ^ 64 - 1) }
        ensures fails { self.new.fails.items ≡ self.old.fails.items }
        ensures later { self.old.faults ≤ self.new.faults }
        ensures rose { IsTrue result → Rose self.old.faults self.new.faults }
        ensures kept { result ≡ false → self.new.faults ≡ self.old.faults }
    {
        self.calls = self.calls.saturating_add(1);
        let fails = self.fails.contains(&self.calls);
        if fails {
            self.faults = self.faults.saturating_add(1);
        }
        fails
    }
}

/// Gives at most `piece` bytes a call, and fails at the calls whose numbers, from 1, are given.
#[derive(Drop)]
pub struct MemorySource {
    bytes: Vec<u8>,
    at: usize,
    ended: bool,
    piece: usize,
    failing: Failing,
    ghost inside: { at ≤ length bytes.items },
    ghost some: { 0 < piece },
}

impl MemorySource {
    ghost use Rattle.test_support.specs.Memory.{source_given, source_ended, source_left, source_piece, source_calls, source_fails, source_faults};

    /// A source of these bytes that has had no call yet. `piece` is at least 1; `fails` are the numbers of
    /// the calls that fail, from 1.
    pub fn make(bytes: Vec<u8>, piece: usize, fails: Vec<u64>) -> MemorySource
        requires { 0 < piece }
        ensures given { source_given result ≡ [] }
        ensures ended { source_ended result ≡ false }
        ensures left { source_left result ≡ bytes.items }
        ensures piece { source_piece result ≡ piece }
        ensures calls { source_calls result ≡ 0 }
        ensures fails { source_fails result ≡ fails.items }
        ensures faults { source_faults result ≡ 0 }
    {
        MemorySource {
            bytes,
            at: 0,
            ended: false,
            piece,
            failing: Failing {
                fails,
                calls: 0,
                faults: 0,
            },
        }
    }

    /// The bytes that are left.
    pub fn bytes(&self) -> &[u8]
        ensures { result.now ≡ source_left self.now }
    {
        &self.bytes[self.at..]
    }
}

impl Source for MemorySource {
    ghost use Rattle.std.specs.Prelude.{Some, IsErr};
    ghost use Rattle.std.specs.Io.{ReadsAtMost};
    ghost use Rattle.std.specs.Io.KnownBytes.{ReadConsumes};
    ghost use Rattle.base_devices.specs.Cause.{HasCause};
    ghost use Rattle.base_devices.specs.Told.{Adds, Ends};
    ghost use Rattle.test_support.specs.Memory.{source_given, source_ended, source_left, source_piece, source_calls, source_fails, source_faults};

    ghost given = { source_given };

    ghost ended = { source_ended };

    ghost left = { λ s. Some (source_left s) };

    ghost faults = { source_faults };

    fn read(&mut self, into: &mut [u8]) -> Result<usize, Failed>
        ensures bound { ReadsAtMost result into.new }
        ensures given { Adds (source_given self.old) (source_given self.new) result into.new }
        ensures end { Ends (source_ended self.new) result into.new }
        ensures left { ReadConsumes (Some (source_left self.old)) (Some (source_left self.new)) result into.new }
        ensures cause { HasCause (source_faults self.old) (source_faults self.new) result }
        ensures count { IfOk result (λ n. n ≡ min (min (source_piece self.old) (length (source_left self.old))) (length into.new)) }
        ensures call { source_calls self.new ≡ min (source_calls self.old + 1) (2 ^ 64 - 1) }
        ensures fails { IsErr result ↔ Contains (source_fails self.old) (source_calls self.new) }
        ensures no_fault { IfOk result (λ _. source_faults self.new ≡ source_faults self.old) }
        ensures same_piece { source_piece self.new ≡ source_piece self.old }
        ensures same_fails { source_fails self.new ≡ source_fails self.old }
    {
        if self.failing.next_fails() {
            self.ended = false;
            return Err(Failed);
        }
        let count = give(&self.bytes[self.at..], into, self.piece);
        self.at += count;
        self.ended = count == 0 && !into.is_empty();
        Ok(count)
    }
}

/// Takes at most `piece` bytes a call while there is room, and fails at the calls whose numbers, from 1, are given.
#[derive(Drop)]
pub struct MemorySink {
    bytes: Vec<u8>,
    room: usize,
    piece: usize,
    failing: Failing,
    ghost fits: { vec_len bytes + room ≤ vec_capacity bytes },
    ghost some: { 0 < piece },
}

impl MemorySink {
    ghost use Rattle.test_support.specs.Memory.{sink_bytes, sink_room, sink_piece, sink_calls, sink_fails, sink_faults};

    /// A sink with nothing written and room for `room` bytes. `piece` is at least 1; `fails` are the numbers
    /// of the calls that fail, from 1.
    pub fn make(
        alloc: Global,
        piece: usize,
        fails: Vec<u64>,
        room: usize,
    ) -> Result<MemorySink, NoMemory>
        requires { 0 < piece }
        ensures bytes { IfOk result (λ sink. sink_bytes sink ≡ []) }
        ensures room { IfOk result (λ sink. sink_room sink ≡ room) }
        ensures piece { IfOk result (λ sink. sink_piece sink ≡ piece) }
        ensures calls { IfOk result (λ sink. sink_calls sink ≡ 0) }
        ensures fails { IfOk result (λ sink. sink_fails sink ≡ fails.items) }
        ensures faults { IfOk result (λ sink. sink_faults sink ≡ 0) }
    {
        let bytes = Vec::with_capacity(alloc, room)?;
        Ok(MemorySink {
            bytes,
            room,
            piece,
            failing: Failing {
                fails,
                calls: 0,
                faults: 0,
            },
        })
    }

    /// The bytes written.
    pub fn bytes(&self) -> &[u8]
        ensures { result.now ≡ sink_bytes self.now }
    {
        &self.bytes
    }
}

impl Sink for MemorySink {
    ghost use Rattle.std.specs.Prelude.{Some, IsErr};
    ghost use Rattle.std.specs.Io.{WritesAtMost};
    ghost use Rattle.std.specs.Io.KnownBytes.{WriteAppends};
    ghost use Rattle.base_devices.specs.Cause.{HasCause};
    ghost use Rattle.base_devices.specs.Told.{Adds};
    ghost use Rattle.test_support.specs.Memory.{sink_state, sink_bytes, sink_room, sink_piece, sink_calls, sink_fails, sink_faults};

    ghost state = { sink_state };

    fn write(&mut self, from: &[u8]) -> Result<usize, Failed>
        ensures bound { WritesAtMost result from.now }
        ensures some { IfOk result (λ n. 0 < length from.now → 0 < n) }
        ensures taken { Adds (sink_bytes self.old) (sink_bytes self.new) result from.now }
        ensures contents { WriteAppends (Some (sink_bytes self.old)) (Some (sink_bytes self.new)) result from.now }
        ensures cause { HasCause (sink_faults self.old) (sink_faults self.new) result }
        ensures count { IfOk result (λ n. n ≡ min (min (length from.now) (sink_piece self.old)) (sink_room self.old)) }
        ensures room { IfOk result (λ n. sink_room self.new ≡ sink_room self.old - n) }
        ensures call { sink_calls self.new ≡ min (sink_calls self.old + 1) (2 ^ 64 - 1) }
        ensures fails { IsErr result ↔ (Contains (sink_fails self.old) (sink_calls self.new) ⊎ ((0 < length from.now) × (sink_room self.old ≡ 0))) }
        ensures no_fault { IfOk result (λ _. sink_faults self.new ≡ sink_faults self.old) }
        ensures same_piece { sink_piece self.new ≡ sink_piece self.old }
        ensures same_fails { sink_fails self.new ≡ sink_fails self.old }
    {
        if self.failing.next_fails() {
            return Err(Failed);
        }
        let count = from.len().min(self.piece).min(self.room);
        if count == 0 && !from.is_empty() {
            self.failing.faults = self.failing.faults.saturating_add(1);
            return Err(Failed);
        }
        self.bytes.extend_from_slice(&from[..count]).unwrap();
        self.room -= count;
        Ok(count)
    }
}
