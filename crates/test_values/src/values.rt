//! Chooses by its first word who answers a row's question.
use crate::held::Held;
use crate::pooled::Pools;
use crate::{compared, made, spelled, texts};
use std::alloc::Global;
use test_support::{Answers, RowFault, first_word};

/// Answers questions of values, of what is made of them, of their texts, of the filters that are held, and of pools.
#[derive(Drop)]
pub struct Values {
    held: Held,
    pools: Pools,
}

impl Values {
    /// No filter is held, and the pools are empty.
    pub fn new(alloc: Global) -> Values {
        Values {
            held: Held::new(alloc),
            pools: Pools::new(alloc),
        }
    }
}

/// The answer to a question of two things.
fn compared(alloc: Global, verb: &str, rest: &str) -> Result<Vec<u8>, RowFault> {
    match verb {
        "satisfied" => compared::satisfied(alloc, rest),
        "covers" => compared::covers(alloc, rest),
        "compatible" => compared::compatible(alloc, rest),
        "alike" => compared::alike(alloc, rest),
        "before" => compared::before(alloc, rest),
        "rises" => compared::rises(alloc, rest),
        "covering" => compared::covering(alloc, rest),
        "filters" => compared::filters(alloc, rest),
        "adverts" => compared::adverts(alloc, rest),
        "overlap" => compared::overlap(alloc, rest),
        "shared" => compared::shared(alloc, rest),
        "matched" => compared::matched(alloc, rest),
        _ => texts::answer(alloc, verb, rest),
    }
}

impl Answers for Values {
    fn answer(&mut self, alloc: Global, question: &str) -> Result<Vec<u8>, RowFault> {
        let (verb, rest) = first_word(question);
        match verb {
            "new" | "add" | "remove" | "route" => self.held.answer(alloc, verb, rest),
            "pool" => self.pools.of_filters(alloc, rest),
            "advert_pool" => self.pools.of_adverts(alloc, rest),
            "name" => spelled::name(alloc, rest),
            "names" => spelled::names(alloc, rest),
            "text" => spelled::text(alloc, rest),
            "texts" => spelled::texts(alloc, rest),
            "constraint" => made::constraint(alloc, rest),
            "normal" => made::normal(alloc, rest),
            "notice" => made::notice(alloc, rest),
            "notice_in_order" => made::notice_in_order(alloc, rest),
            "filter" => made::filter(alloc, rest),
            "advert" => made::advert(alloc, rest),
            "filter_in_order" => made::filter_in_order(alloc, rest),
            "copied" => made::copied(alloc, rest),
            _ => compared(alloc, verb, rest),
        }
    }
}
