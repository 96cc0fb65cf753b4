//! Tries documents at the limits, and each beginning of a document.
use crate::tried::{outcome, print_verdict};
use std::alloc::Global;
use test_support::Failure;

/// The lines before the clients, with one server.
const HEAD: &[u8] = b"siena 1\nsemantics subscription\nservers 1\n";

/// A client and the beginning of its script.
const SCRIPT: &[u8] = b"client a 1\nscript a\n";

/// A publication on a line of 64 bytes.
const LONG: &[u8] = b"publish x str \"aaaaaaaaaaaaaaaaaaaaaaaaaaaaaaaaaaaaaaaaaaaaaaaa\"\n";

/// A publication on a short line.
const SHORT: &[u8] = b"publish x int 1\n";

/// A withdrawal.
const WITHDRAWAL: &[u8] = b"unsubscribe x int any\n";

/// A market.
const MARKET: &str =
    "siena 1\nsemantics advertisement\nservers 3\nedge 1 2\nedge 2 3\nclient trader 1\nclient feed 3\n\
    script trader\nsubscribe symbol str = \"ACME\"; price int < 5000\nscript feed\n\
    advertise symbol str any; price int > 0\nbarrier\npublish symbol str \"ACME\"; price int 4250\n\
    publish symbol str \"ACME\"; price int 0\npublish symbol str \"OTHER\"; price int 12\n";

/// A document of one client with an empty script, and newlines up to so many bytes.
fn padded(alloc: Global, bytes: usize) -> Result<Vec<u8>, Failure> {
    let mut document = HEAD.to_vec(alloc)?;
    document.extend_from_slice(SCRIPT)?;
    document.resize(bytes, b'\n')?;
    Ok(document)
}

/// A client whose script is so often this line.
fn repeated(alloc: Global, line: &[u8], times: u32) -> Result<Vec<u8>, Failure> {
    let mut document = HEAD.to_vec(alloc)?;
    document.extend_from_slice(SCRIPT)?;
    for _ in 0..times {
        document.extend_from_slice(line)?;
    }
    Ok(document)
}

/// 1,024 clients, of which one publishes so often.
fn with_deliveries(alloc: Global, times: u32) -> Result<Vec<u8>, Failure> {
    let mut document = HEAD.to_vec(alloc)?;
    for i in 1..1025u32 {
        let line = format!(in alloc; "client c{i} 1\n")?;
        document.extend_from_slice(line.as_bytes())?;
    }
    document.extend_from_slice(b"script c1\n")?;
    for _ in 0..times {
        document.extend_from_slice(LONG)?;
    }
    Ok(document)
}

/// 64 servers in a line, and so many withdrawals.
fn with_withdrawals(alloc: Global, times: u32) -> Result<Vec<u8>, Failure> {
    let mut document = b"siena 1\nsemantics subscription\nservers 64\n".to_vec(alloc)?;
    for i in 1..64u32 {
        let line = format!(in alloc; "edge {i} {}\n", i + 1)?;
        document.extend_from_slice(line.as_bytes())?;
    }
    document.extend_from_slice(SCRIPT)?;
    for _ in 0..times {
        document.extend_from_slice(WITHDRAWAL)?;
    }
    Ok(document)
}

/// How many beginnings of the market are neither good nor refused with a line.
fn lost_beginnings(alloc: Global) -> Result<u32, Failure> {
    let bytes = MARKET.as_bytes();
    let mut lost = 0u32;
    for length in 0..bytes.len() {
        let came = outcome(alloc, "check", &bytes[..length])?;
        if !came.fault.is_empty() && !came.fault.starts_with(b"siena: line ") {
            lost = lost.saturating_add(1);
        }
    }
    Ok(lost)
}

// At the limit of bytes, and one beyond.
fn print_bytes(rt: &impl Print, alloc: Global) -> Result<(), Failure> {
    let came = outcome(alloc, "walk", &padded(alloc, 4_194_304)?)?;
    print_verdict(rt, "4194304 bytes", &came, b"", b"client a\n")?;
    let came = outcome(alloc, "walk", &padded(alloc, 4_194_305)?)?;
    print_verdict(
        rt,
        "one byte more",
        &came,
        b"siena: line 0: toolong: the document has more than 4194304 bytes, or what is audited more than 268435456\n",
        b"",
    )
}

// At the limit of what publications bring to clients, and one publication beyond.
fn print_deliveries(rt: &impl Print, alloc: Global) -> Result<(), Failure> {
    let came = outcome(alloc, "check", &with_deliveries(alloc, 4096)?)?;
    print_verdict(
        rt,
        "4096 publications to 1024 clients",
        &came,
        b"",
        b"ok version 1 servers 1 clients 1024 phases 1 commands 0 publications 4096\n",
    )?;
    let came = outcome(alloc, "check", &with_deliveries(alloc, 4097)?)?;
    print_verdict(
        rt,
        "one more",
        &came,
        b"siena: line 5125: muchnotice: bytes of publish lines * clients is more than 268435456\n",
        b"",
    )
}

// At the limit of what withdrawals cost, and one withdrawal beyond.
fn print_withdrawals(rt: &impl Print, alloc: Global) -> Result<(), Failure> {
    let came = outcome(alloc, "check", &with_withdrawals(alloc, 1263)?)?;
    print_verdict(
        rt,
        "1263 withdrawals at 64 servers",
        &came,
        b"",
        b"ok version 1 servers 64 clients 1 phases 1 commands 1263 publications 0\n",
    )?;
    let came = outcome(alloc, "check", &with_withdrawals(alloc, 1264)?)?;
    print_verdict(
        rt,
        "one more",
        &came,
        b"siena: line 1332: muchcontrol: (1 + unsubscribe and unadvertise commands) * bytes of control lines * servers is more than 2147483648\n",
        b"",
    )
}

// One command beyond each of the two counts.
fn print_counts(rt: &impl Print, alloc: Global) -> Result<(), Failure> {
    let came = outcome(alloc, "check", &repeated(alloc, WITHDRAWAL, 4097)?)?;
    print_verdict(
        rt,
        "4097 withdrawals",
        &came,
        b"siena: line 4102: commands: more than 4096 commands of subscriptions and advertisements\n",
        b"",
    )?;
    let came = outcome(alloc, "check", &repeated(alloc, SHORT, 100_001)?)?;
    print_verdict(
        rt,
        "100001 publications",
        &came,
        b"siena: line 100006: publications: more than 100000 publish commands\n",
        b"",
    )
}

/// Prints whether the documents at each limit, and one beyond, come as wanted.
pub fn print_large(rt: &impl Print, alloc: Global) -> Result<(), Failure> {
    print_bytes(rt, alloc)?;
    print_deliveries(rt, alloc)?;
    print_withdrawals(rt, alloc)?;
    print_counts(rt, alloc)?;
    println!(rt;
        "beginnings of the market that are lost: {}",
        lost_beginnings(alloc)?
    )?;
    Ok(())
}
