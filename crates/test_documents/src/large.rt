//! Tries documents at the limits and one beyond.
use crate::outcome::print_outcome;
use std::alloc::Global;
use test_support::Failure;

/// The lines before the clients, with one server.
const HEAD: &[u8] = b"siena 1\nsemantics subscription\nservers 1\n";

/// A client and the beginning of its script.
const SCRIPT: &[u8] = b"client a 1\nscript a\n";

/// A publication on a line of 64 bytes.
const LONG: &[u8] = b"publish x str \"aaaaaaaaaaaaaaaaaaaaaaaaaaaaaaaaaaaaaaaaaaaaaaaa\"\n";

/// Adds the line so many times.
fn repeat(document: &mut Vec<u8>, line: &[u8], times: u32) -> Result<(), Failure> {
    for _ in 0..times {
        document.extend_from_slice(line)?;
    }
    Ok(())
}

/// One server and so many clients.
fn with_clients(alloc: Global, clients: u32) -> Result<Vec<u8>, Failure> {
    let mut document = HEAD.to_vec(alloc)?;
    for i in 1..=clients {
        let line = format!(in alloc; "client c{i} 1\n")?;
        document.extend_from_slice(line.as_bytes())?;
    }
    Ok(document)
}

/// 64 servers in a line, and a client's script.
fn with_servers(alloc: Global) -> Result<Vec<u8>, Failure> {
    let mut document = b"siena 1\nsemantics subscription\nservers 64\n".to_vec(alloc)?;
    for i in 1..64 {
        let line = format!(in alloc; "edge {i} {}\n", i + 1)?;
        document.extend_from_slice(line.as_bytes())?;
    }
    document.extend_from_slice(SCRIPT)?;
    Ok(document)
}

/// One server, a client, and its script of so many such lines.
fn with_script(alloc: Global, line: &[u8], times: u32) -> Result<Vec<u8>, Failure> {
    let mut document = HEAD.to_vec(alloc)?;
    document.extend_from_slice(SCRIPT)?;
    repeat(&mut document, line, times)?;
    Ok(document)
}

/// Prints the outcome of the document and of the one with the line once more.
fn print_both(
    rt: &impl Print,
    alloc: Global,
    name: &str,
    mut document: Vec<u8>,
    line: &[u8],
) -> Result<(), Failure> {
    print_outcome(rt, alloc, name, &document)?;
    document.extend_from_slice(line)?;
    print_outcome(rt, alloc, "one more", &document)
}

/// A document of 4,194,304 bytes.
fn full(alloc: Global) -> Result<Vec<u8>, Failure> {
    let mut document = with_script(alloc, b"", 0)?;
    document.resize(4_194_304, b'\n')?;
    Ok(document)
}

/// 1,024 clients, of which one publishes so often.
fn with_deliveries(alloc: Global, times: u32) -> Result<Vec<u8>, Failure> {
    let mut document = with_clients(alloc, 1024)?;
    document.extend_from_slice(b"script c1\n")?;
    repeat(&mut document, LONG, times)?;
    Ok(document)
}

/// 64 servers, and so many withdrawals.
fn with_withdrawals(alloc: Global, line: &[u8], times: u32) -> Result<Vec<u8>, Failure> {
    let mut document = with_servers(alloc)?;
    repeat(&mut document, line, times)?;
    Ok(document)
}

/// Prints the outcome at each limit and one beyond.
pub fn print_large(rt: &impl Print, alloc: Global) -> Result<(), Failure> {
    print_both(rt, alloc, "4194304 bytes", full(alloc)?, b"\n")?;
    print_both(
        rt,
        alloc,
        "1024 clients",
        with_clients(alloc, 1024)?,
        b"client d 1\n",
    )?;
    let barriers = with_script(alloc, b"barrier\n", 4095)?;
    print_both(rt, alloc, "4095 barriers", barriers, b"barrier\n")?;
    let line = b"subscribe x int any\n".as_slice();
    print_both(
        rt,
        alloc,
        "4096 controls",
        with_script(alloc, line, 4096)?,
        line,
    )?;
    let line = b"publish x int 1\n".as_slice();
    print_both(
        rt,
        alloc,
        "100000 publications",
        with_script(alloc, line, 100_000)?,
        line,
    )?;
    print_both(
        rt,
        alloc,
        "4096 times 64 bytes for 1024 clients",
        with_deliveries(alloc, 4096)?,
        LONG,
    )?;
    let line = b"unsubscribe x int any\n".as_slice();
    print_both(
        rt,
        alloc,
        "1263 withdrawals of 21 bytes at 64 servers",
        with_withdrawals(alloc, line, 1263)?,
        line,
    )
}
