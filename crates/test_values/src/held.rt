//! Keeps filters, each under the number of the interface that holds it.
use base::NoMemory;
use base_bits::Row;
use filter_types::{Filter, Notice};
use match_filters::{Matcher, Scratch};
use match_routes::{Forwarding, is_rising, law};
use std::alloc::Global;
use test_support::{RowFault, filter, first_word, notice, number, put_number, truth};

/// The most filters that rows hold at once.
const MOST: usize = 4096;

/// Filters with their interfaces, place by place.
#[derive(Drop)]
pub struct Held {
    filters: Vec<Filter>,
    interfaces: Vec<u32>,
}

/// The numbers as an answer.
fn numbers(alloc: Global, all: &[u32]) -> Result<Vec<u8>, RowFault> {
    let mut answer = Vec::new(alloc);
    for one in all {
        put_number(alloc, &mut answer, *one as usize)?;
    }
    Ok(answer)
}

/// The interfaces, each once, rising.
fn distinct(alloc: Global, interfaces: &[u32]) -> Result<Vec<u32>, NoMemory> {
    let mut sorted = Vec::from_slice(alloc, interfaces)?;
    sorted.sort()?;
    let mut all = Vec::new(alloc);
    for interface in &sorted {
        if all.last() != Some(interface) {
            all.push(*interface)?;
        }
    }
    Ok(all)
}

/// Publishes each place from its interface, where the forwarding knows both.
fn publish(forwarding: &mut Forwarding, interfaces: &[u32]) {
    for place in 0..interfaces.len() {
        let interface = interfaces[place];
        if place < MOST && forwarding.knows(place as u32, interface) {
            forwarding.put(place as u32, interface);
        }
    }
}

/// The forwarding of these interfaces, by places below a width.
fn published(alloc: Global, width: u32, interfaces: &[u32]) -> Result<Forwarding, RowFault> {
    let rising = distinct(alloc, interfaces)?;
    if rising.len() > MOST || !is_rising(&rising) {
        return Err(RowFault::Form);
    }
    let mut forwarding = Forwarding::new(alloc, width, &rising)?;
    publish(&mut forwarding, interfaces);
    Ok(forwarding)
}

impl Held {
    /// Nothing is held.
    pub fn new(alloc: Global) -> Held {
        Held {
            filters: Vec::new(alloc),
            interfaces: Vec::new(alloc),
        }
    }

    /// The answer to a question of the filters that are held, which a change of them leaves empty.
    pub fn answer(&mut self, alloc: Global, verb: &str, rest: &str) -> Result<Vec<u8>, RowFault> {
        match verb {
            "new" => *self = Held::new(alloc),
            "add" => self.add(alloc, rest)?,
            "remove" => {
                let was_there = self.remove(alloc, rest)?;
                return truth(alloc, was_there);
            }
            "route" => return self.route(alloc, rest),
            _ => return Err(RowFault::Form),
        }
        Ok(Vec::new(alloc))
    }

    /// An interface holds the filter of a text too.
    fn add(&mut self, alloc: Global, rest: &str) -> Result<(), RowFault> {
        let (interface, text) = first_word(rest);
        self.interfaces.push(number(interface)?)?;
        self.filters.push(filter(alloc, text)?)?;
        Ok(())
    }

    /// It holds it no more; whether it did.
    fn remove(&mut self, alloc: Global, rest: &str) -> Result<bool, RowFault> {
        let (interface, text) = first_word(rest);
        let (interface, filter) = (number(interface)?, filter(alloc, text)?);
        for place in 0..self.filters.len() {
            if place < self.interfaces.len()
                && self.interfaces[place] == interface
                && self.filters[place] == filter
            {
                self.interfaces.remove(place);
                self.filters.remove(place);
                return Ok(true);
            }
        }
        Ok(false)
    }

    /// The interfaces with a filter that the notice of a text matches, rising.
    fn route(&self, alloc: Global, rest: &str) -> Result<Vec<u8>, RowFault> {
        let notice = notice(alloc, rest)?;
        if self.filters.len() > MOST {
            return Err(RowFault::Form);
        }
        let matcher = Matcher::of(alloc, &self.filters)?;
        let forwarding = published(alloc, self.filters.len() as u32, &self.interfaces)?;
        routed(alloc, &matcher, &forwarding, &notice)
    }
}

/// The interfaces that a notice goes to, where the forwarding is of the matcher's filters.
fn routed(
    alloc: Global,
    matcher: &Matcher,
    forwarding: &Forwarding,
    notice: &Notice,
) -> Result<Vec<u8>, RowFault> {
    if forwarding.width() as usize != matcher.len() {
        return Err(RowFault::Form);
    }
    let mut matched = Row::new(alloc, forwarding.width())?;
    let mut scratch = Scratch::new(alloc);
    let route = law::route(
        alloc,
        matcher,
        forwarding,
        notice,
        &mut scratch,
        &mut matched,
    )?;
    numbers(alloc, route.interfaces())
}
