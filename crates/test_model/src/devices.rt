//! Tests the devices on their worked rows, and a reading and a writing that fail in mid-stream.
use base::NoMemory;
use base_devices::{
    Failed, Gate, NoGate, Pending, Place, ReadAll, Spot, StdSink, StdSource, WorkerRole, read_all,
    write_all,
};
use std::alloc::Global;
use std::test::Fail;
use test_support::{MemorySink, MemorySource};

fn source(
    alloc: Global,
    bytes: &[u8],
    piece: usize,
    fails: &[u64],
) -> Result<MemorySource, NoMemory> {
    let piece = piece.max(1);
    Ok(MemorySource::make(bytes.to_vec(alloc)?, piece, fails.to_vec(alloc)?))
}

#[test]
fn reading_stops_one_byte_past_the_limit(rt: HostRuntime) -> Result<(), Fail> {
    let alloc = rt.alloc();
    let mut five = source(alloc, b"abcde", 2, &[])?;
    let bytes = read_all(alloc, &mut five, 5)?;
    assert_eq!(rt; bytes.as_slice(), b"abcde".as_slice());
    let mut more = source(alloc, b"abcdefg", 2, &[])?;
    assert_eq!(rt; read_all(alloc, &mut more, 4).err(), Some(ReadAll::TooLong));
    assert_eq!(rt; more.bytes(), b"fg".as_slice());
    Ok(())
}

#[test]
fn a_failing_source_loses_no_byte(rt: HostRuntime) -> Result<(), Fail> {
    let alloc = rt.alloc();
    let mut failing = source(alloc, b"abcde", 2, &[2])?;
    assert_eq!(rt;
        read_all(alloc, &mut failing, 5).err(),
        Some(ReadAll::Failed)
    );
    assert_eq!(rt; failing.bytes(), b"cde".as_slice());
    let rest = read_all(alloc, &mut failing, 5)?;
    assert_eq!(rt; rest.as_slice(), b"cde".as_slice());
    Ok(())
}

#[test]
fn a_failing_sink_keeps_a_front(rt: HostRuntime) -> Result<(), Fail> {
    let alloc = rt.alloc();
    let mut sink = MemorySink::make(alloc, 2, [2].to_vec(alloc)?, 10)?;
    assert_eq!(rt; write_all(&mut sink, b"abcde").is_err(), true);
    assert_eq!(rt; sink.bytes(), b"ab".as_slice());
    let mut full = MemorySink::make(alloc, 2, Vec::new(alloc), 3)?;
    assert_eq!(rt; write_all(&mut full, b"abcde").is_err(), true);
    assert_eq!(rt; full.bytes(), b"abc".as_slice());
    Ok(())
}

#[test]
fn bytes_wait_until_they_are_finished(rt: HostRuntime) -> Result<(), Fail> {
    let alloc = rt.alloc();
    let mut sink = MemorySink::make(alloc, 4, Vec::new(alloc), 10)?;
    let mut pending = Pending::new(alloc)?;
    pending.put(&mut sink, b"abc");
    pending.put(&mut sink, b"de");
    assert_eq!(rt; sink.bytes(), b"".as_slice());
    assert_eq!(rt; pending.finish(&mut sink), Ok(()));
    assert_eq!(rt; sink.bytes(), b"abcde".as_slice());
    Ok(())
}

#[test]
fn more_than_can_wait_is_written_at_once(rt: HostRuntime) -> Result<(), Fail> {
    let alloc = rt.alloc();
    let mut long = b"ab".as_slice().to_vec(alloc)?;
    long.resize(70_000, 99)?;
    let mut sink = MemorySink::make(alloc, 70_001, Vec::new(alloc), 70_001)?;
    let mut pending = Pending::new(alloc)?;
    pending.put(&mut sink, b"x");
    pending.put(&mut sink, &long);
    assert_eq!(rt; sink.bytes().len(), 70_001);
    assert_eq!(rt; sink.bytes().first(), Some(&120));
    assert_eq!(rt; pending.finish(&mut sink), Ok(()));
    Ok(())
}

#[test]
fn a_failed_write_is_told_at_the_end(rt: HostRuntime) -> Result<(), Fail> {
    let alloc = rt.alloc();
    let long = [7].repeat(alloc, 70_000)?;
    let mut sink = MemorySink::make(alloc, 5, [2].to_vec(alloc)?, 100)?;
    let mut pending = Pending::new(alloc)?;
    pending.put(&mut sink, &long);
    pending.put(&mut sink, b"more");
    assert_eq!(rt; pending.finish(&mut sink), Err(Failed));
    assert_eq!(rt; sink.bytes(), [7, 7, 7, 7, 7].as_slice());
    Ok(())
}

#[test]
fn standard_devices_pass_the_bytes_on(rt: HostRuntime) -> Result<(), Fail> {
    let alloc = rt.alloc();
    let mut source = StdSource::make(b"abc".as_slice());
    let bytes = read_all(alloc, &mut source, 3)?;
    assert_eq!(rt; bytes.as_slice(), b"abc".as_slice());
    let mut sink = StdSink::make(Vec::new(alloc));
    assert_eq!(rt; write_all(&mut sink, &bytes).is_ok(), true);
    NoGate.pass(Place {
        phase: 0,
        server: 1,
        worker: WorkerRole::Commands,
        spot: Spot::Before,
    });
    Ok(())
}
