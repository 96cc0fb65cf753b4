//! Answers the questions of a pool of filters and of one of advertisements.
use base::Cover;
use base_pool::Pool;
use filter_covering::{Ad, Sub};
use filter_text::{write_advert, write_filter};
use std::alloc::Global;
use test_support::{RowFault, advert, filter, first_word, number, put, put_number};

/// An item that rows keep in a pool.
pub trait Kept: Cover + Drop {
    /// The item of a text.
    fn read(alloc: Global, text: &str) -> Result<Self, RowFault>;

    /// Its text.
    fn text(&self, alloc: Global) -> Result<Vec<u8>, RowFault>;
}

impl Kept for Sub {
    fn read(alloc: Global, text: &str) -> Result<Sub, RowFault> {
        Ok(Sub(filter(alloc, text)?))
    }

    fn text(&self, alloc: Global) -> Result<Vec<u8>, RowFault> {
        Ok(write_filter(alloc, &self.0)?)
    }
}

impl Kept for Ad {
    fn read(alloc: Global, text: &str) -> Result<Ad, RowFault> {
        Ok(Ad(advert(alloc, text)?))
    }

    fn text(&self, alloc: Global) -> Result<Vec<u8>, RowFault> {
        Ok(write_advert(alloc, &self.0)?)
    }
}

/// How many holders an item has, and how many distinct items are live.
fn counted<T: Kept>(alloc: Global, pool: &Pool<T>, item: &T) -> Result<Vec<u8>, RowFault> {
    let mut answer = Vec::new(alloc);
    let holders = match pool.find(item) {
        Some(key) => pool.holders(key),
        None => 0,
    };
    put_number(alloc, &mut answer, holders as usize)?;
    put_number(alloc, &mut answer, pool.live())?;
    Ok(answer)
}

/// Keeps an item once more.
fn keep<T: Kept>(alloc: Global, pool: &mut Pool<T>, text: &str) -> Result<Vec<u8>, RowFault> {
    if pool.keep(T::read(alloc, text)?).is_err() {
        return Err(RowFault::NoMemory);
    }
    counted(alloc, pool, &T::read(alloc, text)?)
}

/// Shares an item that is live.
fn share<T: Kept>(alloc: Global, pool: &mut Pool<T>, text: &str) -> Result<Vec<u8>, RowFault> {
    let item = T::read(alloc, text)?;
    if let Some(key) = pool.find(&item) {
        if pool.holders(key) < 1000 {
            pool.share(key);
        }
    }
    counted(alloc, pool, &item)
}

/// Gives an item back, and says how many holders are left or, after the last one, which item came back.
fn give_back<T: Kept>(alloc: Global, pool: &mut Pool<T>, text: &str) -> Result<Vec<u8>, RowFault> {
    let item = T::read(alloc, text)?;
    let Some(key) = pool.find(&item) else {
        return counted(alloc, pool, &item);
    };
    match pool.give_back(key) {
        None => counted(alloc, pool, &item),
        Some(back) => {
            let mut answer = back.text(alloc)?;
            put_number(alloc, &mut answer, pool.live())?;
            Ok(answer)
        }
    }
}

/// The number of a live item by its key.
fn number_by_key<T: Kept>(alloc: Global, pool: &Pool<T>, item: &T) -> Result<usize, RowFault> {
    if pool.live() > u32::MAX as usize {
        return Err(RowFault::Form);
    }
    let Some(key) = pool.find(item) else {
        return Err(RowFault::Form);
    };
    match pool.numbers(alloc, &[key])?.first() {
        Some(number) => Ok(*number as usize),
        None => Err(RowFault::Form),
    }
}

/// The number of an item, by a search and by its key, and the item that has it.
fn place<T: Kept>(alloc: Global, pool: &Pool<T>, text: &str) -> Result<Vec<u8>, RowFault> {
    let item = T::read(alloc, text)?;
    let mut answer = Vec::new(alloc);
    if let Some(place) = pool.number_of(&item) {
        put_number(alloc, &mut answer, place)?;
        put_number(alloc, &mut answer, number_by_key(alloc, pool, &item)?)?;
    }
    if let Some(key) = pool.find(&item) {
        put(&mut answer, &pool.at(key).text(alloc)?)?;
    }
    Ok(answer)
}

/// All live items in their order.
pub fn listed<T: Kept>(alloc: Global, pool: &Pool<T>) -> Result<Vec<u8>, RowFault> {
    let mut answer = Vec::new(alloc);
    for place in 0..pool.live() {
        put(&mut answer, &pool.nth(place).text(alloc)?)?;
    }
    Ok(answer)
}

/// Makes room for so many more.
fn reserve<T: Kept>(alloc: Global, pool: &mut Pool<T>, text: &str) -> Result<Vec<u8>, RowFault> {
    pool.reserve(number(text)? as usize)?;
    listed(alloc, pool)
}

/// Asks for more room than there can be, and says which items are live then.
fn overfill<T: Kept>(alloc: Global, pool: &mut Pool<T>) -> Result<Vec<u8>, RowFault> {
    match pool.reserve(usize::MAX) {
        Ok(()) => Err(RowFault::Form),
        Err(_) => listed(alloc, pool),
    }
}

/// The answer to a question of a pool.
fn answer<T: Kept>(
    alloc: Global,
    pool: &mut Pool<T>,
    verb: &str,
    text: &str,
) -> Result<Vec<u8>, RowFault> {
    match verb {
        "keep" => keep(alloc, pool, text),
        "share" => share(alloc, pool, text),
        "give_back" => give_back(alloc, pool, text),
        "place" => place(alloc, pool, text),
        "reserve" => reserve(alloc, pool, text),
        "overfill" => overfill(alloc, pool),
        "list" => listed(alloc, pool),
        _ => Err(RowFault::Form),
    }
}

/// A pool of filters and one of advertisements.
#[derive(Drop)]
pub struct Pools {
    filters: Pool<Sub>,
    adverts: Pool<Ad>,
}

impl Pools {
    /// Both are empty.
    pub fn new(alloc: Global) -> Pools {
        Pools {
            filters: Pool::new(alloc),
            adverts: Pool::new(alloc),
        }
    }

    /// The answer to a question of the filters that are kept.
    pub fn of_filters(&mut self, alloc: Global, question: &str) -> Result<Vec<u8>, RowFault> {
        let (verb, text) = first_word(question);
        answer(alloc, &mut self.filters, verb, text)
    }

    /// The answer to a question of the advertisements that are kept.
    pub fn of_adverts(&mut self, alloc: Global, question: &str) -> Result<Vec<u8>, RowFault> {
        let (verb, text) = first_word(question);
        answer(alloc, &mut self.adverts, verb, text)
    }
}
