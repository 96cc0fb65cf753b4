//! Prints the nets of documents that are read.
use base_tree::Tree;
use document_reader::read_net;
use filter_text::{write_advert, write_filter, write_notice};
use net_model::{Client, Command, Net};
use std::alloc::Global;
use test_support::Failure;

/// A realistic document: a feed of prices, and a trader.
pub const FEED: &str =
    "siena 1\nsemantics advertisement\nservers 3\nedge 1 2\nedge 2 3\nclient trader 1\nclient feed 3\n\
        script trader\nsubscribe symbol str = \"ACME\"; price int < 5000\nscript feed\n\
        advertise symbol str any; price int > 0\nbarrier\npublish symbol str \"ACME\"; price int 4250\n\
        publish symbol str \"ACME\"; price int 0\npublish symbol str \"OTHER\"; price int 12\n";

/// Documents that are read.
const DOCUMENTS: [&str; 7] = [
    FEED,
    "siena 2\nsemantics subscription\nservers 3\nedge 1 2\nedge 2 3\nphase 1\nedge 1 2\nedge 1 3\n\
        client a 1\nclient p 3\nscript p\nbarrier\npublish t time 1\nschedule\ncommand p\ntake 3 1\n\n\
        version 2\n",
    "siena 1\nsemantics subscription\nservers 2\nedge 1 2\nschedule\ntake 2 1\n",
    "siena 1\nsemantics subscription\nservers 1\nclient a 1\nscript a\n",
    "siena 1\nsemantics subscription\nservers 1\nclient a 1\nscript a\n\
        subscribe x int < -9223372036854775808\n\
        unsubscribe x int > 9223372036854775807; x int > 9223372036854775807\nbarrier\nbarrier\n\
        publish x int -9223372036854775808\n",
    "siena 2\nsemantics subscription\nservers 1\nclient a 1\nscript a\n\
        subscribe t time >= 100; t time < 200\nbarrier\npublish t time 199\npublish t int 150\n",
    "siena 2\nsemantics advertisement\nservers 1\nphase 7\nphase 4095\nclient b 1\nclient a 1\nscript a\n\
        advertise x bool any\nunadvertise x bool any\nschedule\n",
];

/// What a command carries, on a line with its word.
fn text(alloc: Global, command: &Command) -> Result<Vec<u8>, Failure> {
    let (word, carried) = match command {
        Command::Subscribe(filter) => ("subscribe ", write_filter(alloc, filter)?),
        Command::Unsubscribe(filter) => ("unsubscribe ", write_filter(alloc, filter)?),
        Command::Advertise(advert) => ("advertise ", write_advert(alloc, advert)?),
        Command::Unadvertise(advert) => ("unadvertise ", write_advert(alloc, advert)?),
        Command::Publish(notice) => ("publish ", write_notice(alloc, notice)?),
    };
    let mut line = word.as_bytes().to_vec(alloc)?;
    line.extend_from_slice(&carried)?;
    Ok(line)
}

/// The bytes as text, where they are one.
pub fn shown(bytes: &[u8]) -> &str {
    std::str::from_utf8(bytes).unwrap_or("no text")
}

/// Prints a tree: of each server its neighbours.
fn print_tree(rt: &impl Print, first: u32, tree: &Tree) -> Result<(), Failure> {
    println!(rt; "  from phase {first} on")?;
    for server in 1..=tree.servers() {
        println!(rt; "    {server} beside {:?}", tree.neighbours(server))?;
    }
    Ok(())
}

/// Prints a client and its commands, each with its phase.
fn print_client(rt: &impl Print, alloc: Global, client: &Client) -> Result<(), Failure> {
    let name = shown(client.name.bytes());
    println!(rt;
        "  client {name} at {}, {} barriers",
        client.home, client.barriers
    )?;
    for (phase, command) in &client.script {
        let line = text(alloc, command)?;
        println!(rt; "    {phase} {}", shown(&line))?;
    }
    Ok(())
}

fn print_net(rt: &impl Print, alloc: Global, net: &Net) -> Result<(), Failure> {
    println!(rt; "version {}, {:?}", net.version, net.semantics)?;
    for (first, tree) in &net.trees {
        print_tree(rt, *first, tree)?;
    }
    for client in &net.clients {
        print_client(rt, alloc, client)?;
    }
    for (line, turn) in &net.schedule {
        println!(rt; "  line {line} {turn:?}")?;
    }
    Ok(())
}

/// Prints the net of each document.
pub fn print_nets(rt: &impl Print, alloc: Global) -> Result<(), Failure> {
    for document in DOCUMENTS {
        match read_net(alloc, document.as_bytes()) {
            Ok(net) => print_net(rt, alloc, &net)?,
            Err(fault) => println!(rt; "{fault:?}")?,
        }
    }
    Ok(())
}
