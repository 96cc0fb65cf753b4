//! What a catalogue knows of some documents: filters and advertisements by their numbers, scripts by these, what covers and
//! overlaps what, and what each publication matches.
ghost use Rattle.net_model.specs.Sound.{IsSound};

use crate::nets::shown;
use crate::sound::net;
use base_bits::Row;
use filter_text::{write_advert, write_filter};
use match_filters::Scratch;
use net_model::Net;
use net_tables::{Catalogue, NumberedCommand};
use std::alloc::Global;
use test_support::Failure;

/// Documents, each with what it is for.
const DOCUMENTS: [(&str, &str); 3] = [
    (
        "A net without filters",
        "siena 1\nsemantics subscription\nservers 1\nclient a 1\nscript a\npublish x int 1\nbarrier\npublish x int 2\n",
    ),
    (
        "One of each kind and operator, each once in canonical order, those of withdrawals too",
        "siena 2\nsemantics subscription\nservers 1\nclient a 1\nclient b 1\nscript a\nsubscribe x str contains \"b\"\n\
            subscribe x str any\nsubscribe x str prefix \"ab\"\nsubscribe x str suffix \"c\"\nsubscribe x str >= \"ab\"\n\
            subscribe x str > \"ab\"\nsubscribe x str <= \"ab\"\nsubscribe x str < \"ab\"\nsubscribe x str != \"ab\"\n\
            subscribe x str = \"ab\"\nsubscribe x bool any\nsubscribe x bool != true\nsubscribe x bool = true\nscript b\n\
            unsubscribe x int any\nsubscribe x int >= 5\nsubscribe x int > 5\nsubscribe x int <= 5\nsubscribe x int < 5\n\
            subscribe x int != 5\nsubscribe x int = 5\nsubscribe x time = 5\nsubscribe x int = 5; y int = 5\nsubscribe x int = 5\n\
            barrier\npublish x int 5\npublish x int 5; y int 5\npublish x str \"abc\"\npublish x bool false\npublish x time 5\n\
            publish y int 5\n",
    ),
    (
        "Advertisements and what overlaps them",
        "siena 1\nsemantics advertisement\nservers 1\nclient a 1\nscript a\nadvertise x int < 5; y str any\nadvertise x int any\n\
            unadvertise x int any; y str any\nsubscribe x int > 3\nsubscribe x int > 7\nsubscribe y str = \"s\"\n\
            subscribe z int any\npublish x int 9\n",
    ),
];

/// The word and the number of a command.
fn parts(command: NumberedCommand) -> (&'static str, u32) {
    match command {
        NumberedCommand::Subscribe(i) => ("subscribe", i),
        NumberedCommand::Unsubscribe(i) => ("unsubscribe", i),
        NumberedCommand::Advertise(i) => ("advertise", i),
        NumberedCommand::Unadvertise(i) => ("unadvertise", i),
        NumberedCommand::Publish(i) => ("publish", i),
    }
}

/// Prints the members of a row behind a word.
fn print_row(rt: &impl Print, alloc: Global, word: &str, row: &Row) -> Result<(), Failure> {
    print!(rt; " {word}")?;
    for member in &row.members(alloc)? {
        print!(rt; " {member}")?;
    }
    Ok(())
}

/// Prints each filter with its number, the others that it covers and those that stand over it.
fn print_filters(rt: &impl Print, alloc: Global, catalogue: &Catalogue) -> Result<(), Failure> {
    let filters = catalogue.filters();
    let order = catalogue.filter_order(alloc)?;
    for i in 0..order.count() {
        let text = write_filter(alloc, &filters.at(i as usize).0)?;
        print!(rt; "filter {i} {}:", shown(&text))?;
        print_row(rt, alloc, "covers", order.covered_by(i))?;
        print_row(rt, alloc, "under", order.above(i))?;
        println!(rt)?;
    }
    Ok(())
}

/// Prints each advertisement with its number, those that it covers, and the filters that overlap it.
fn print_adverts(rt: &impl Print, alloc: Global, catalogue: &Catalogue) -> Result<(), Failure> {
    let adverts = catalogue.adverts();
    let order = catalogue.advert_order(alloc)?;
    let overlaps = catalogue.overlaps(alloc)?;
    for i in 0..order.count() {
        let text = write_advert(alloc, &adverts.at(i as usize).0)?;
        print!(rt; "advertisement {i} {}:", shown(&text))?;
        print_row(rt, alloc, "covers", order.covered_by(i))?;
        if let Some(row) = overlaps.get(i as usize) {
            print_row(rt, alloc, "overlaps", row)?;
        }
        println!(rt)?;
    }
    Ok(())
}

/// Prints the scripts by numbers, a client a line.
fn print_scripts(rt: &impl Print, catalogue: &Catalogue) -> Result<(), Failure> {
    for script in catalogue.scripts() {
        print!(rt; "script:")?;
        for (phase, command) in script.as_slice() {
            let (word, number) = parts(*command);
            print!(rt; " {phase} {word} {number},")?;
        }
        println!(rt)?;
    }
    Ok(())
}

/// Prints each publication with what it matches.
fn print_publications(
    rt: &impl Print,
    alloc: Global,
    catalogue: &Catalogue,
) -> Result<(), Failure> {
    catalogue.lemma_sound();
    let mut scratch = Scratch::new(alloc);
    let mut row = Row::new(alloc, catalogue.filters().len() as u32)?;
    for publication in catalogue.publications() {
        catalogue
            .matcher()
            .matched(&publication.notice, &mut scratch, &mut row)?;
        let id = publication.id;
        print!(rt;
            "publication {} {} in {}",
            id.publisher, id.ordinal, publication.phase
        )?;
        print_row(rt, alloc, "matches", &row)?;
        println!(rt)?;
    }
    Ok(())
}

/// Prints what the catalogue of a net knows.
fn print_net(rt: &impl Print, alloc: Global, net: &Net) -> Result<(), Failure>
    requires { IsSound net.now }
{
    let catalogue = Catalogue::of(alloc, net)?;
    print_filters(rt, alloc, &catalogue)?;
    print_adverts(rt, alloc, &catalogue)?;
    print_scripts(rt, &catalogue)?;
    print_publications(rt, alloc, &catalogue)
}

/// Prints of each document what its catalogue knows.
pub fn print_catalogues(rt: &impl Print, alloc: Global) -> Result<(), Failure> {
    for (purpose, document) in DOCUMENTS {
        println!(rt; "{purpose}")?;
        print_net(rt, alloc, &net(alloc, document.as_bytes())?)?;
        println!(rt)?;
    }
    Ok(())
}
